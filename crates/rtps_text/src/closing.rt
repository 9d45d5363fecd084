//! The summary after the last line of a run: its matches, and the status of each reader.

ghost use Rattle.std.specs.Prelude.{◌≡◌, ◌++◌, List, OnOk, ℕ};
ghost use Rattle.std.specs.Io.{StartsWith};
ghost use Rattle.rtps_run.specs.Seen.{reader_count};
ghost use Rattle.rtps_text.specs.Inputs.{StandsAt, run_by};
ghost use Rattle.rtps_text.specs.Replayed.{match_lines, status_lines, status_text, summary_text};
ghost use Rattle.rtps_records.specs.RecordFile.{Record};

use dds_participant::Participant;
use dds_topic::Catalog;
use rtps_lines::{push_match, push_status};
use rtps_reader::Status;
use rtps_types::Guid;
use std::alloc::{AllocError, Allocator, Global};
use std::collections::BTreeSet;

/// Adds the lines of the matches, and then those of the statuses, both by rank.
pub(crate) fn push_summary<C: Catalog, A: Allocator>(
    out: &mut Vec<u8, A>,
    alloc: Global,
    participant: &Participant<C>,
) -> Result<(), AllocError>
    ensures sums { (datagrams : List Record)
        → StandsAt C.decoding datagrams participant.now.engine
        → OnOk result (out.new.items ≡ out.old.items ++
        summary_text (run_by C.decoding participant.now.engine datagrams)) }
    ensures keeps { StartsWith out.new.items out.old.items }
{
    let Ok(matches) = participant.matches(alloc) else {
        return Err(AllocError);
    };
    push_all_matches(out, &matches)?;
    push_statuses(out, participant)
}

/// Adds a line for each match.
fn push_all_matches<A: Allocator>(
    out: &mut Vec<u8, A>,
    matches: &BTreeSet<(u32, Guid)>,
) -> Result<(), AllocError>
    ensures ok { OnOk result (out.new.items ≡ out.old.items ++ match_lines matches.now.keys) }
    ensures keeps { StartsWith out.new.items out.old.items }
{
    for pair in matches.iter() {
        push_match(out, pair.0, pair.1)?;
    }
    Ok(())
}

/// Adds a line for the status of each reader.
fn push_statuses<C: Catalog, A: Allocator>(
    out: &mut Vec<u8, A>,
    participant: &Participant<C>,
) -> Result<(), AllocError>
    ensures lines { (datagrams : List Record)
        → StandsAt C.decoding datagrams participant.now.engine
        → OnOk result (out.new.items ≡ out.old.items ++
        status_lines (run_by C.decoding participant.now.engine datagrams)
        (reader_count (run_by C.decoding participant.now.engine datagrams))) }
    ensures keeps { StartsWith out.new.items out.old.items }
{
    for rank in 0..participant.readers() {
        push_status_of(out, rank, participant.status(rank))?;
    }
    Ok(())
}

/// Adds the line of the status, if there is one.
fn push_status_of<A: Allocator>(
    out: &mut Vec<u8, A>,
    rank: u32,
    status: Option<Status>,
) -> Result<(), AllocError>
    ensures ok { OnOk result (out.new.items ≡ out.old.items ++ status_text rank status) }
    ensures keeps { StartsWith out.new.items out.old.items }
{
    match status {
        Some(status) => push_status(out, rank, &status),
        None => Ok(()),
    }
}
