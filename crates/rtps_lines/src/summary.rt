//! The lines of a reader's matches and of its status.

ghost use Rattle.std.specs.Prelude.{◌≡◌, ◌++◌, OnOk};
ghost use Rattle.std.specs.Io.{StartsWith};
ghost use Rattle.rtps_lines.specs.Summary.{match_line, matches_text, policy_text, status_line};

use crate::guid::push_guid;
use rtps_ascii::{push_number, push_octet, push_word};
use rtps_reader::Status;
use rtps_types::{Guid, PolicyId};
use std::alloc::{AllocError, Allocator};

/// Appends the line of a match between the reader of this rank and a writer, with a newline.
pub fn push_match<A: Allocator>(
    out: &mut Vec<u8, A>,
    rank: u32,
    writer: Guid,
) -> Result<(), AllocError>
    ensures ok { OnOk result (out.new.items ≡ out.old.items ++ match_line rank writer) }
    ensures keeps { StartsWith out.new.items out.old.items }
{
    push_word(out, "match ")?;
    push_number(out, u64::from(rank))?;
    push_octet(out, b' ')?;
    push_guid(out, writer)?;
    push_octet(out, b'\n')
}

/// Appends the line of the status of the reader of this rank, with a newline.
pub fn push_status<A: Allocator>(
    out: &mut Vec<u8, A>,
    rank: u32,
    status: &Status,
) -> Result<(), AllocError>
    ensures ok { OnOk result (out.new.items ≡ out.old.items ++ status_line rank status.now) }
    ensures keeps { StartsWith out.new.items out.old.items }
{
    push_word(out, "status ")?;
    push_number(out, u64::from(rank))?;
    push_octet(out, b' ')?;
    push_matches(out, status)?;
    push_octet(out, b' ')?;
    push_number(out, u64::from(status.lost_total))?;
    push_octet(out, b' ')?;
    push_number(out, u64::from(status.samples))?;
    push_octet(out, b'\n')
}

/// Appends the counts of matches so far, of present matches and of refused writers, and the policy
/// that was reported last.
fn push_matches<A: Allocator>(out: &mut Vec<u8, A>, status: &Status) -> Result<(), AllocError>
    ensures ok { OnOk result (out.new.items ≡ out.old.items ++ matches_text status.now) }
    ensures keeps { StartsWith out.new.items out.old.items }
{
    push_number(out, u64::from(status.matched_total))?;
    push_octet(out, b' ')?;
    push_number(out, status.matched_now)?;
    push_octet(out, b' ')?;
    push_number(out, u64::from(status.incompatible_total))?;
    push_octet(out, b' ')?;
    push_policy(out, status.last_policy)
}

/// Appends a policy by its id, or a dash for none.
fn push_policy<A: Allocator>(
    out: &mut Vec<u8, A>,
    policy: Option<PolicyId>,
) -> Result<(), AllocError>
    ensures ok { OnOk result (out.new.items ≡ out.old.items ++ policy_text policy) }
    ensures keeps { StartsWith out.new.items out.old.items }
{
    let Some(policy) = policy else {
        return push_octet(out, b'-');
    };
    push_number(out, u64::from(policy.id()))
}
