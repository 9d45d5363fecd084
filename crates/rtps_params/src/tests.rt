//! Parameter lists, with octets written by hand.

use crate::*;
use rtps_types::Endian;
use std::test::Fail;

/// A key hash, padding of four octets, a status info and the end, then four more octets.
const LITTLE: [u8; 44] = [
    0x70, 0x00, 0x10, 0x00, 0, 1, 2, 3, 4, 5, 6, 7, 8, 9, 10, 11, 12, 13, 14, 15, //
    0x00, 0x00, 0x04, 0x00, 0xee, 0xee, 0xee, 0xee, //
    0x71, 0x00, 0x04, 0x00, 0, 0, 0, 1, //
    0x01, 0x00, 0x00, 0x00, //
    0xaa, 0xbb, 0xcc, 0xdd,
];

#[test]
fn a_list_and_what_stands_behind_it(rt: HostRuntime) -> Result<(), Fail> {
    let list = ParamList::new(&LITTLE, Endian::Little)?;
    assert_eq!(rt; list.used(), 40);
    assert_eq!(rt; list.endian(), Endian::Little);
    let mut params = list.iter();
    let hash = params.next().ok_or("no key hash")?;
    assert_eq!(rt; hash.id, 0x70);
    assert_eq!(rt;
        hash.value,
        [0, 1, 2, 3, 4, 5, 6, 7, 8, 9, 10, 11, 12, 13, 14, 15].as_slice()
    );
    let status = params.next().ok_or("no status info")?;
    assert_eq!(rt; status.id, 0x71);
    assert_eq!(rt; status.value, [0, 0, 0, 1].as_slice());
    assert!(rt; params.next().is_none());
    Ok(())
}

#[test]
fn the_end_in_the_last_octets(rt: HostRuntime) -> Result<(), Fail> {
    // Big-endian; the length of the end is ignored.
    let list = ParamList::new(&[0x00, 0x01, 0xff, 0xff], Endian::Big)?;
    assert_eq!(rt; list.used(), 4);
    assert_eq!(rt; list.endian(), Endian::Big);
    assert!(rt; list.iter().next().is_none());
    // In little-endian order the same octets are the id 0100 with a length of 65,535.
    assert_eq!(rt;
        ParamList::new(&[0x00, 0x01, 0xff, 0xff], Endian::Little).err(),
        Some(ParamFault::OddLength)
    );
    Ok(())
}

/// Octets in little-endian order, and their first fault.
const FAULTY: [(&[u8], ParamFault); 9] = [
    (&[], ParamFault::NoEnd),
    (&[0x70], ParamFault::Short),
    (&[0x70, 0, 4], ParamFault::Short),
    (&[0x70, 0, 4, 0, 1, 2, 3], ParamFault::Short),
    (&[0x70, 0, 4, 0, 1, 2, 3, 4], ParamFault::NoEnd),
    (&[0x70, 0, 0, 0, 0x01], ParamFault::Short),
    (
        &[0x70, 0, 3, 0, 1, 2, 3, 0, 1, 0, 0, 0],
        ParamFault::OddLength,
    ),
    // An odd length is reported as such, even if it also passes the end.
    (&[0x70, 0, 9, 0, 1], ParamFault::OddLength),
    // The length of padding is checked as for any parameter.
    (&[0, 0, 2, 0, 1, 2, 1, 0, 0, 0], ParamFault::OddLength),
];

#[test]
fn the_first_fault_is_answered(rt: HostRuntime) {
    for (octets, fault) in FAULTY {
        assert_eq!(rt; ParamList::new(octets, Endian::Little).err(), Some(fault));
    }
}

#[test]
fn one_parameter_at_a_time(rt: HostRuntime) {
    match read_front(&LITTLE, Endian::Little) {
        Front::Param(param, after) => {
            assert_eq!(rt; param.id, 0x70);
            assert_eq!(rt; param.value.len(), 16);
            assert_eq!(rt; after.len(), 24);
        }
        Front::End(_) | Front::Fault(_) => assert!(rt; false, "no parameter in front"),
    }
}
