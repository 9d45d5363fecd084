//! The values of parameters that hold texts (DDSI-RTPS 9.6.3; CORBA CDR 9.3.2.5, 9.3.2.7).

ghost use Rattle.std.specs.Prelude.{◌≡◌, ◌<◌, ◌≤◌, map, length, IfOk, OnErr};
ghost use Rattle.std.specs.String.{string_bytes};
ghost use Rattle.rtps_cdr.specs.Cdr.{Sequence, Text};
ghost use Rattle.rtps_cdr.specs.Writing.{Fits};
ghost use Rattle.rtps_announcement.specs.Fault.{IsTooLong, longest};
ghost use Rattle.rtps_announcement.specs.Values as values;

use crate::fault::{LONGEST, RecordFault};
use rtps_cdr::CdrWriter;
use rtps_types::Endian;
use std::alloc::{AllocError, Allocator};

/// The octets of padding.
const ZEROS: [u8; 8] = [0; 8];

/// Returns the value of a topic or a type. `TooLong` where it has more octets than a record;
/// `NoMemory` where memory is refused.
pub(crate) fn text_value<A: Allocator>(alloc: A, text: &str) -> Result<Vec<u8, A>, RecordFault>
    ensures value { IfOk result (λ value. value.items ≡ values.text_value text.now) }
    ensures fits { IfOk result (λ value. Fits Text text.now) }
    ensures short { IfOk result (λ value. length value.items ≤ longest) }
    ensures too_long { IsTooLong result (values.text_value text.now) }
{
    if text.len() > LONGEST {
        return Err(RecordFault::TooLong);
    }
    let mut writer = CdrWriter::new(alloc, Endian::Little);
    writer.write_string(text)?;
    filled(writer.finish())
}

/// Returns the value of partitions. `TooLong` where it has more octets than a record; `NoMemory`
/// where memory is refused.
pub(crate) fn names_value<A: Allocator>(
    alloc: A,
    names: &[String],
) -> Result<Vec<u8, A>, RecordFault>
    ensures value { IfOk result (λ value. value.items
        ≡ values.names_value (map string_bytes names.now)) }
    ensures fits { IfOk result (λ value. Fits (Sequence Text) (map string_bytes names.now)) }
    ensures short { IfOk result (λ value. length value.items ≤ longest) }
    ensures too_long { IsTooLong result (values.names_value (map string_bytes names.now)) }
{
    if names.len() > LONGEST {
        return Err(RecordFault::TooLong);
    }
    let mut writer = CdrWriter::new(alloc, Endian::Little);
    writer.write_len(names.len() as u32)?;
    for name in names {
        if name.len() > LONGEST {
            return Err(RecordFault::TooLong);
        }
        writer.write_string(name.as_str())?;
    }
    filled(writer.finish())
}

/// Returns octets with zeros up to a whole word. `TooLong` where there are more than a record has;
/// `NoMemory` where memory is refused.
#[tactic(auto, using(rtps_cdr::proofs::Written::zeros))]
fn filled<A: Allocator>(mut octets: Vec<u8, A>) -> Result<Vec<u8, A>, RecordFault>
    ensures value { IfOk result (λ value. value.items ≡ values.filled octets.items) }
    ensures short { IfOk result (λ value. length value.items ≤ longest) }
    ensures too_long { IsTooLong result (values.filled octets.items) }
{
    if octets.len() > LONGEST {
        return Err(RecordFault::TooLong);
    }
    let (gap, _) = ZEROS.split_at((4 - octets.len() % 4) % 4);
    octets.extend_from_slice(gap)?;
    Ok(octets)
}
