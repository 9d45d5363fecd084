//! Messages, with octets written by hand from their formats.

mod contents;
mod faults;
mod raw;
mod reading;
mod writing;

use crate::*;
use rtps_types::{EntityId, GuidPrefix};

/// A prefix with twelve different octets.
const PREFIX: GuidPrefix = GuidPrefix([1, 2, 3, 4, 5, 6, 7, 8, 9, 10, 11, 12]);

const READER: EntityId = EntityId([0, 0, 1, 7]);

const WRITER: EntityId = EntityId([0, 0, 1, 2]);

/// Returns the contents of the submessage, if there is exactly one, without a fault.
fn only(octets: &[u8]) -> Option<Parts<'_>> {
    let mut submessages = Submessages::new(octets);
    let Some(first) = submessages.next() else {
        return None;
    };
    if submessages.next().is_some() || submessages.fault().is_some() {
        return None;
    }
    Some(first.parts)
}
