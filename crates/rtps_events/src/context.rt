//! The part of a line before an event's body: its place and its context.

ghost use Rattle.std.specs.Prelude.{◌≡◌, ◌++◌, OnOk, codes, length};
ghost use Rattle.std.specs.Io.{StartsWith};
ghost use Rattle.std.specs.Int.{w32, to_be_bytes};
ghost use Rattle.rtps_ascii.specs.Hex.{hex_text};
ghost use Rattle.rtps_types.specs.NumberText.{place_text};
ghost use Rattle.rtps_receiver.specs.Events.{view};
ghost use Rattle.rtps_events.specs.Line.{context_text, time_text};

use rtps_ascii::{push_hex_array, push_number, push_octet};
use rtps_receiver::Event;
use rtps_types::{EntityId, Place, Timestamp};
use std::alloc::{AllocError, Allocator};

/// Appends a place, as datagram and submessage with a colon between.
pub fn push_place<A: Allocator>(out: &mut Vec<u8, A>, place: Place) -> Result<(), AllocError>
    ensures ok { OnOk result (out.new.items ≡ out.old.items ++ place_text place) }
    ensures keeps { StartsWith out.new.items out.old.items }
{
    push_number(out, place.datagram)?;
    push_octet(out, b':')?;
    push_number(out, u64::from(place.submessage))
}

/// Appends a time in hex, seconds and fraction with a dot between, or a dash for none.
pub fn push_time<A: Allocator>(
    out: &mut Vec<u8, A>,
    time: Option<Timestamp>,
) -> Result<(), AllocError>
    ensures ok { OnOk result (out.new.items ≡ out.old.items ++ time_text time) }
    ensures keeps { StartsWith out.new.items out.old.items }
{
    let Some(time) = time else {
        return push_octet(out, b'-');
    };
    let mut digits = [b'.'; 17];
    let (seconds, rest) = digits.split_at_mut(8);
    let (_, fraction) = rest.split_at_mut(1);
    write_hex(time.seconds, seconds);
    write_hex(time.fraction, fraction);
    out.extend_from_slice(&digits)
}

/// Writes a number as eight digits.
fn write_hex(number: u32, digits: &mut [u8])
    requires { length digits.old ≡ 8 }
    ensures { digits.new ≡ hex_text (to_be_bytes w32 number) }
{
    match hex::encode_to_slice(&number.to_be_bytes(), digits) {
        Ok(()) => {}
        Err(_) => unreachable!(),
    }
}

/// Appends an event's place, source, time, writer and reader.
pub(crate) fn push_context<A: Allocator>(
    out: &mut Vec<u8, A>,
    event: &Event<'_>,
) -> Result<(), AllocError>
    ensures ok { OnOk result (out.new.items ≡ out.old.items ++ context_text (view event.now)) }
    ensures keeps { StartsWith out.new.items out.old.items }
{
    push_place(out, event.place)?;
    push_octet(out, b' ')?;
    push_hex_array(out, &event.source.0)?;
    push_octet(out, b' ')?;
    push_time(out, event.time)?;
    push_ends(out, event.writer, event.reader)
}

/// Appends the writer and the reader, each after a blank, by one copy.
fn push_ends<A: Allocator>(
    out: &mut Vec<u8, A>,
    writer: EntityId,
    reader: EntityId,
) -> Result<(), AllocError>
    ensures ok { OnOk result (out.new.items ≡ (((out.old.items ++ codes " ")
        ++ hex_text writer.0) ++ codes " ") ++ hex_text reader.0) }
    ensures keeps { StartsWith out.new.items out.old.items }
{
    let mut text = [b' '; 18];
    let (first, second) = text.split_at_mut(9);
    let (_, digits) = first.split_at_mut(1);
    write_entity(writer, digits);
    let (_, digits) = second.split_at_mut(1);
    write_entity(reader, digits);
    out.extend_from_slice(&text)
}

/// Writes an entity as eight digits.
fn write_entity(entity: EntityId, digits: &mut [u8])
    requires { length digits.old ≡ 8 }
    ensures { digits.new ≡ hex_text entity.0 }
{
    match hex::encode_to_slice(&entity.0, digits) {
        Ok(()) => {}
        Err(_) => unreachable!(),
    }
}
