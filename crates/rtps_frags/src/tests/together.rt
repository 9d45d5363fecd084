//! Payloads from fragments in any order.

use super::is_just;
use crate::laws::any_order_gives_the_payload;
use crate::{Assembly, Sizes};
use std::test::Fail;

/// The octets of a sample in fragments of two octets, the last of one.
const OCTETS: &[u8] = b"abcdefghi";

#[test]
fn fragments_in_order(rt: HostRuntime) -> Result<(), Fail> {
    let alloc = rt.alloc();
    let mut sample = Assembly::new(alloc, 9, 2);
    let sizes = Sizes {
        sample: 9,
        fragment: 2,
    };
    assert_eq!(rt; sample.sizes(), sizes);
    sample.add(alloc, 1, 1, b"ab")?;
    sample.add(alloc, 2, 3, b"cdefgh")?;
    assert!(rt; !sample.is_whole());
    sample.add(alloc, 5, 1, b"i")?;
    assert!(rt; is_just(sample, OCTETS));
    any_order_gives_the_payload();
    Ok(())
}

#[test]
fn fragments_in_reverse(rt: HostRuntime) -> Result<(), Fail> {
    let alloc = rt.alloc();
    let mut sample = Assembly::new(alloc, 9, 2);
    sample.add(alloc, 5, 1, b"i")?;
    sample.add(alloc, 4, 1, b"gh")?;
    sample.add(alloc, 3, 1, b"ef")?;
    sample.add(alloc, 2, 1, b"cd")?;
    assert!(rt; !sample.is_whole());
    sample.add(alloc, 1, 1, b"ab")?;
    assert!(rt; is_just(sample, OCTETS));
    Ok(())
}

/// The odd fragments arrive first, and then one DATA_FRAG with all of them: only the even ones are
/// used, and the octets after the last fragment are ignored.
#[test]
fn late_fragment_stays_out(rt: HostRuntime) -> Result<(), Fail> {
    let alloc = rt.alloc();
    let mut sample = Assembly::new(alloc, 9, 2);
    sample.add(alloc, 3, 1, b"ef")?;
    sample.add(alloc, 1, 1, b"ab")?;
    sample.add(alloc, 5, 1, b"i")?;
    sample.add(alloc, 1, 5, b"--cd--gh-and more")?;
    assert!(rt; is_just(sample, OCTETS));
    Ok(())
}

/// Consecutive fragments while the first is missing; then the one before them, those after them,
/// and the first.
#[test]
fn fragments_after_a_missing_one(rt: HostRuntime) -> Result<(), Fail> {
    let alloc = rt.alloc();
    let mut sample = Assembly::new(alloc, 9, 1);
    sample.add(alloc, 3, 1, b"c")?;
    sample.add(alloc, 4, 1, b"d")?;
    sample.add(alloc, 5, 2, b"ef")?;
    sample.add(alloc, 2, 1, b"b")?;
    sample.add(alloc, 7, 3, b"ghi")?;
    assert!(rt; !sample.is_whole());
    sample.add(alloc, 1, 1, b"a")?;
    assert!(rt; is_just(sample, OCTETS));
    Ok(())
}

/// A piece that overlaps stored fragments on both sides.
#[test]
fn runs_that_overlap(rt: HostRuntime) -> Result<(), Fail> {
    let alloc = rt.alloc();
    let mut sample = Assembly::new(alloc, 9, 2);
    sample.add(alloc, 2, 1, b"cd")?;
    sample.add(alloc, 4, 2, b"ghi")?;
    sample.add(alloc, 2, 3, b"--ef--")?;
    assert!(rt; !sample.is_whole());
    sample.add(alloc, 1, 2, b"ab--")?;
    assert!(rt; is_just(sample, OCTETS));
    Ok(())
}

/// A sample with a fragment size above its own size is one fragment.
#[test]
fn one_fragment_is_all(rt: HostRuntime) -> Result<(), Fail> {
    let alloc = rt.alloc();
    let mut sample = Assembly::new(alloc, 9, 65_535);
    sample.add(alloc, 1, 1, b"abcdefghi")?;
    assert!(rt; is_just(sample, OCTETS));
    Ok(())
}
