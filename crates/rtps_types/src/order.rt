//! The order of octets. They are compared as big-endian numbers, of up to eight octets at once.

ghost use Rattle.std.specs.Prelude.{◌≡◌, ◌+◌, ◌*◌, ◌^◌, drop};
ghost use Rattle.std.specs.Ordering.{ordering_then};
ghost use Rattle.byteorder.specs.Endian.{big_number};
ghost use Rattle.rtps_types.specs.Order.{octet_order};

use byteorder::{BigEndian, ByteOrder};
use std::cmp::Ordering;

/// Compares four octets.
pub(crate) fn order_of_four(left: &[u8; 4], right: &[u8; 4]) -> Ordering
    ensures { result ≡ octet_order left.now right.now }
{
    BigEndian::read_u32(left).cmp(&BigEndian::read_u32(right))
}

/// Compares twelve octets: the first eight, and if these are equal the last four.
pub(crate) fn order_of_twelve(left: &[u8; 12], right: &[u8; 12]) -> Ordering
    ensures { result ≡ octet_order left.now right.now }
{
    let front = BigEndian::read_u64(left);
    let other = BigEndian::read_u64(right);
    if front != other {
        return front.cmp(&other);
    }
    BigEndian::read_u32(&left[8..]).cmp(&BigEndian::read_u32(&right[8..]))
}

/// Returns the big-endian number in the last four of twelve octets and four more.
fn last_eight(octets: &[u8; 12], end: &[u8; 4]) -> u64
    ensures { result ≡ big_number 4 (drop 8 octets.now) * 2 ^ 32 + big_number 4 end.now }
{
    let high = BigEndian::read_u32(&octets[8..]);
    let low = BigEndian::read_u32(end);
    u64::from(high) * (1 << 32) + u64::from(low)
}

/// Compares twelve octets and four more: the first eight, and if these are equal the last eight.
pub(crate) fn order_of_sixteen(
    left: &[u8; 12],
    left_end: &[u8; 4],
    right: &[u8; 12],
    right_end: &[u8; 4],
) -> Ordering
    ensures { result ≡ ordering_then (octet_order left.now right.now)
        (octet_order left_end.now right_end.now) }
{
    let front = BigEndian::read_u64(left);
    let other = BigEndian::read_u64(right);
    if front != other {
        return front.cmp(&other);
    }
    last_eight(left, left_end).cmp(&last_eight(right, right_end))
}
