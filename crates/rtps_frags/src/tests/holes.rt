//! Fragments after a missing one, stored at their places in the buffer or apart from it.

use super::is_just;
use crate::Assembly;
use std::test::Fail;

/// The octets of a sample in fragments of one octet.
const OCTETS: &[u8] = b"abcdefghi";

/// Fragments 2 and 5 are missing, and 5 arrives first.
#[test]
fn the_later_hole_first(rt: HostRuntime) -> Result<(), Fail> {
    let alloc = rt.alloc();
    let mut sample = Assembly::new(alloc, 9, 1);
    sample.add(alloc, 1, 1, b"a")?;
    sample.add(alloc, 3, 2, b"cd")?;
    sample.add(alloc, 6, 4, b"fghi")?;
    assert!(rt; !sample.is_whole());
    sample.add(alloc, 5, 1, b"e")?;
    assert!(rt; !sample.is_whole());
    sample.add(alloc, 2, 1, b"b")?;
    assert!(rt; is_just(sample, OCTETS));
    Ok(())
}

/// Fragments 2 and 5 are missing, and 2 arrives first: the fragments up to 5 are joined.
#[test]
fn the_earlier_hole_first(rt: HostRuntime) -> Result<(), Fail> {
    let alloc = rt.alloc();
    let mut sample = Assembly::new(alloc, 9, 1);
    sample.add(alloc, 1, 1, b"a")?;
    sample.add(alloc, 3, 2, b"cd")?;
    sample.add(alloc, 6, 4, b"fghi")?;
    sample.add(alloc, 2, 1, b"b")?;
    assert!(rt; !sample.is_whole());
    sample.add(alloc, 5, 1, b"e")?;
    assert!(rt; is_just(sample, OCTETS));
    Ok(())
}

/// The last fragment is stored apart, since the hole before it would be longer than all octets
/// received. The fragments before it end exactly where it begins.
#[test]
fn a_hole_that_is_too_long(rt: HostRuntime) -> Result<(), Fail> {
    let alloc = rt.alloc();
    let mut sample = Assembly::new(alloc, 9, 1);
    sample.add(alloc, 9, 1, b"i")?;
    sample.add(alloc, 1, 2, b"ab")?;
    sample.add(alloc, 5, 2, b"ef")?;
    sample.add(alloc, 7, 2, b"gh")?;
    assert!(rt; !sample.is_whole());
    sample.add(alloc, 3, 2, b"cd")?;
    assert!(rt; is_just(sample, OCTETS));
    Ok(())
}

/// A hole is filled in parts, each of which ends where stored fragments begin.
#[test]
fn a_hole_in_parts(rt: HostRuntime) -> Result<(), Fail> {
    let alloc = rt.alloc();
    let mut sample = Assembly::new(alloc, 9, 2);
    sample.add(alloc, 1, 1, b"ab")?;
    sample.add(alloc, 4, 1, b"gh")?;
    sample.add(alloc, 3, 1, b"ef")?;
    sample.add(alloc, 3, 3, b"----i")?;
    assert!(rt; !sample.is_whole());
    sample.add(alloc, 1, 2, b"--cd")?;
    assert!(rt; is_just(sample, OCTETS));
    Ok(())
}
