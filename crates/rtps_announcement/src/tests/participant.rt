//! What a participant says of itself.

use super::*;

/// Change 1 of the announcer of participants.
const COMES: &str = "15058c00 00001000 000100c7 000100c2 00000000 01000000 00030000 \
    15000400 02050000 16000400 00000000 \
    50001000 0102030405060708090a0b0c 000001c1 \
    32001800 01000000 f41c0000 000000000000000000000000 0a090001 \
    31001800 01000000 f51c0000 000000000000000000000000 0a090002 \
    02000800 0a000000 00000080 58000400 3b000000 01000000";

/// Change 2.
const LEAVES: &str = "150b5000 00001000 000100c7 000100c2 00000000 02000000 \
    70001000 0102030405060708090a0b0c 000001c1 71000400 00000003 01000000 \
    00030000 50001000 0102030405060708090a0b0c 000001c1 01000000";

#[test]
fn a_participant_announces_itself_to_everyone(rt: HostRuntime) -> Result<(), Fail> {
    let octets = write_participant(rt.alloc(), OWN, None, HERE)?;
    assert_eq!(rt;
        octets.as_slice(),
        octets_of(rt.alloc(), HEADER, COMES)?.as_slice()
    );
    Ok(())
}

#[test]
fn a_participant_announces_itself_to_one_other(rt: HostRuntime) -> Result<(), Fail> {
    let octets = write_participant(rt.alloc(), OWN, Some(PEER), HERE)?;
    assert_eq!(rt;
        octets.as_slice(),
        octets_of(rt.alloc(), FRONT, COMES)?.as_slice()
    );
    Ok(())
}

/// Change 1, with the least port and the greatest one, and the least lease.
const AT_THE_EDGES: &str = "15058c00 00001000 000100c7 000100c2 00000000 01000000 00030000 \
    15000400 02050000 16000400 00000000 \
    50001000 0102030405060708090a0b0c 000001c1 \
    32001800 01000000 01000000 000000000000000000000000 00000000 \
    31001800 01000000 ffff0000 000000000000000000000000 ffffffff \
    02000800 00000080 00000000 58000400 3b000000 01000000";

#[test]
fn ports_and_a_lease_at_the_ends_of_their_range(rt: HostRuntime) -> Result<(), Fail> {
    let here = Presence {
        discovery: Locator {
            port: 1,
            address: [0; 4],
        },
        user: Locator {
            port: 65_535,
            address: [0xff; 4],
        },
        lease: Duration {
            seconds: -2_147_483_648,
            fraction: 0,
        },
    };
    let octets = write_participant(rt.alloc(), OWN, None, here)?;
    let expected = octets_of(rt.alloc(), HEADER, AT_THE_EDGES)?;
    assert_eq!(rt; octets.as_slice(), expected.as_slice());
    Ok(())
}

#[test]
fn a_participant_leaves(rt: HostRuntime) -> Result<(), Fail> {
    let octets = write_participant_gone(rt.alloc(), OWN, None)?;
    assert_eq!(rt;
        octets.as_slice(),
        octets_of(rt.alloc(), HEADER, LEAVES)?.as_slice()
    );
    let octets = write_participant_gone(rt.alloc(), OWN, Some(PEER))?;
    assert_eq!(rt;
        octets.as_slice(),
        octets_of(rt.alloc(), FRONT, LEAVES)?.as_slice()
    );
    Ok(())
}
