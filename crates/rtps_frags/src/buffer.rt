//! A buffer for the octets of a sample.

ghost use Rattle.std.specs.Prelude.{◌≡◌, ◌+◌, ◌-◌, ◌++◌, ◌<◌, ◌^◌, ◌≤◌, max, IfOk, IsOk, OnErr, OnOk, length, replicate, vec_capacity, vec_len};
ghost use Rattle.rtps_frags.specs.Buffer.{IsPutAt};

use core::mem::replace_with;
use std::alloc::{AllocError, Allocator};

/// Makes sure that the buffer has a capacity of `length` octets. If it hasn't, it grows to `room`
/// octets, or to `length` if that is more.
pub(crate) fn make_room<A: Allocator>(
    buffer: &mut Vec<u8, A>,
    room: usize,
    length: usize,
) -> Result<(), AllocError>
    ensures same { buffer.new.items ≡ buffer.old.items }
    ensures room { OnOk result (length ≤ vec_capacity buffer.new) }
    ensures enough { length ≤ vec_capacity buffer.old
        → IsOk result × (vec_capacity buffer.new ≡ vec_capacity buffer.old) }
    ensures bound { vec_capacity buffer.new ≤ max (vec_capacity buffer.old) (max room length) }
    ensures refused { OnErr result (vec_capacity buffer.new ≡ vec_capacity buffer.old) }
{
    if buffer.capacity() < length {
        buffer.reserve_exact(room.max(length) - buffer.len())?;
    }
    Ok(())
}

/// Appends octets to a buffer that has the capacity for them, and returns it. They are pushed one
/// by one, since the contract of a slice copy doesn't say that the capacity stays as it is. For a
/// buffer that is passed by value the compiler turns that into a copy.
fn with_octets<A: Allocator>(mut buffer: Vec<u8, A>, octets: &[u8]) -> (Vec<u8, A>, ())
    requires { vec_len buffer + length octets.now ≤ vec_capacity buffer }
    ensures items { result.0.items ≡ buffer.items ++ octets.now }
    ensures capacity { vec_capacity result.0 ≡ vec_capacity buffer }
{
    for octet in octets {
        buffer.push_reserved(*octet);
    }
    (buffer, ())
}

/// Appends zeros up to the length `end` to a buffer that has the capacity for them, and returns it.
fn with_zeros<A: Allocator>(mut buffer: Vec<u8, A>, end: usize) -> (Vec<u8, A>, ())
    requires { (vec_len buffer ≤ end) × (end ≤ vec_capacity buffer) }
    ensures items { result.0.items ≡ buffer.items ++ replicate (end - vec_len buffer) 0 }
    ensures capacity { vec_capacity result.0 ≡ vec_capacity buffer }
{
    for _i in buffer.len()..end {
        buffer.push_reserved(0);
    }
    (buffer, ())
}

/// Returns a copy of octets, with exactly their capacity.
pub(crate) fn copy_of<A: Allocator>(alloc: A, octets: &[u8]) -> Result<Vec<u8, A>, AllocError>
    ensures items { IfOk result (λ copy. copy.items ≡ octets.now) }
    ensures exact { IfOk result (λ copy. vec_capacity copy ≡ length octets.now) }
{
    let room = Vec::with_capacity(alloc, octets.len())?;
    let (copy, ()) = with_octets(room, octets);
    Ok(copy)
}

/// Appends octets.
pub(crate) fn append<A: Allocator>(
    buffer: &mut Vec<u8, A>,
    room: usize,
    octets: &[u8],
) -> Result<(), AllocError>
    ensures enough { vec_len buffer.old + length octets.now ≤ vec_capacity buffer.old
        → IsOk result }
    ensures ok { OnOk result (buffer.new.items ≡ buffer.old.items ++ octets.now) }
    ensures err { OnErr result (buffer.new.items ≡ buffer.old.items) }
    ensures bound { vec_capacity buffer.new
        ≤ max (vec_capacity buffer.old) (max room (vec_len buffer.old + length octets.now)) }
    ensures refused { OnErr result (vec_capacity buffer.new ≡ vec_capacity buffer.old) }
{
    make_room(buffer, room, buffer.len() + octets.len())?;
    replace_with(buffer, octets, with_octets);
    Ok(())
}

/// Appends zeros up to the length `end`.
fn fill_up<A: Allocator>(buffer: &mut Vec<u8, A>, room: usize, end: usize) -> Result<(), AllocError>
    ensures enough { end ≤ vec_capacity buffer.old → IsOk result }
    ensures ok { OnOk result
        (buffer.new.items ≡ buffer.old.items ++ replicate (end - vec_len buffer.old) 0) }
    ensures err { OnErr result (buffer.new.items ≡ buffer.old.items) }
    ensures bound { vec_capacity buffer.new ≤ max (vec_capacity buffer.old) (max room end) }
    ensures refused { OnErr result (vec_capacity buffer.new ≡ vec_capacity buffer.old) }
{
    if end <= buffer.len() {
        return Ok(());
    }
    make_room(buffer, room, end)?;
    replace_with(buffer, end, with_zeros);
    Ok(())
}

/// Writes octets at a place, which may be at or past the end.
pub(crate) fn put_at<A: Allocator>(
    buffer: &mut Vec<u8, A>,
    room: usize,
    at: usize,
    octets: &[u8],
) -> Result<(), AllocError>
    requires { at < 2 ^ 32 }
    ensures enough { at + length octets.now ≤ vec_capacity buffer.old → IsOk result }
    ensures ok { OnOk result (IsPutAt at octets.now buffer.old.items buffer.new.items) }
    ensures err { OnErr result (buffer.new.items ≡ buffer.old.items) }
    ensures bound { vec_capacity buffer.new
        ≤ max (vec_capacity buffer.old) (max room (at + length octets.now)) }
    ensures refused { OnErr result (vec_capacity buffer.new ≡ vec_capacity buffer.old) }
{
    if at == buffer.len() {
        return append(buffer, room, octets);
    }
    let end = at + octets.len();
    fill_up(buffer, room, end)?;
    buffer[at..end].copy_from_slice(octets);
    Ok(())
}
