//! Whether a reader and a writer match (DDSI-RTPS 8.5.4.4; DDS 1.4, 2.2.3).

ghost use Rattle.std.specs.Prelude.{◌≡◌};
ghost use Rattle.rtps_discovery.specs.Known as known;
ghost use Rattle.rtps_discovery.specs.Seen.{lent, standing_seen};

use crate::known::{Reader, Writer};
use dds_qos::{first_fault, share_partition};
use rtps_types::PolicyId;
use std::alloc::Allocator;

/// The state of a reader and a writer.
#[derive(Clone, Copy)]
pub(crate) enum PairState {
    /// They have no topic, type and partition in common.
    Unmatched,
    /// They are matched.
    Joined,
    /// They would be matched, but this policy is incompatible.
    Refused(PolicyId),
}

/// Whether they have the same topic, the same type and a partition in common.
fn is_near<A: Allocator>(reader: &Reader<A>, writer: &Writer<A>) -> bool
    ensures { result ≡ known.is_near reader.now writer.now }
{
    reader.topic() == writer.topic()
        && reader.type_name() == writer.type_name()
        && share_partition(writer.offered(), &reader.requested)
}

/// Returns the state of a reader and a writer.
fn standing_of<A: Allocator>(reader: &Reader<A>, writer: &Writer<A>) -> PairState
    ensures { standing_seen result ≡ known.standing_of reader.now writer.now }
{
    if !is_near(reader, writer) {
        return PairState::Unmatched;
    }
    match first_fault(writer.offered(), &reader.requested) {
        None => PairState::Joined,
        Some(policy) => PairState::Refused(policy),
    }
}

/// Returns the state of a reader and a writer; `Unmatched` if one of them is missing.
pub(crate) fn standing_between<A: Allocator>(
    reader: &Option<Reader<A>>,
    writer: Option<&Writer<A>>,
) -> PairState
    ensures { standing_seen result ≡ known.standing reader.now (lent writer.entry) }
{
    match (reader, writer) {
        (Some(reader), Some(writer)) => standing_of(reader, writer),
        _ => PairState::Unmatched,
    }
}
