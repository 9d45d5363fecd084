//! Submessages before their bodies are read.

use super::PREFIX;
use crate::*;
use std::test::Fail;

/// INFO_TS without a time, INFO_DST, a HEARTBEAT of four octets, which is invalid, and two octets
/// more.
const OCTETS: &[u8] = b"\x09\x03\x00\x00\
    \x0e\x01\x0c\x00\x01\x02\x03\x04\x05\x06\x07\x08\x09\x0a\x0b\x0c\
    \x07\x01\x04\x00\x00\x00\x00\x00\
    \x07\x01";

#[test]
fn a_body_is_read_by_the_function_of_its_kind(rt: HostRuntime) -> Result<(), Fail> {
    let Ok(Some(time)) = read_front(OCTETS) else {
        return Err("no INFO_TS".into());
    };
    assert_eq!(rt;
        (time.id, time.flags, time.body.len()),
        (kinds::INFO_TS, 3, 0)
    );
    assert_eq!(rt; time.info_timestamp(), Some(None));
    assert!(rt; time.info_destination().is_none() && time.info_source().is_none());
    let Ok(Some(destination)) = read_front(time.rest) else {
        return Err("no INFO_DST".into());
    };
    assert_eq!(rt; destination.info_destination(), Some(PREFIX));
    assert!(rt; destination.gap().is_none() && destination.data().is_none());
    assert!(rt; destination.heartbeat_frag().is_none() && destination.data_frag().is_none());
    let Ok(Some(heartbeat)) = read_front(destination.rest) else {
        return Err("no HEARTBEAT".into());
    };
    assert_eq!(rt; (heartbeat.id, heartbeat.body.len()), (kinds::HEARTBEAT, 4));
    assert!(rt; heartbeat.heartbeat().is_none() && heartbeat.parts().is_none());
    assert_eq!(rt;
        read_front(heartbeat.rest).err(),
        Some(SubmessageFault::Rest)
    );
    assert!(rt; matches!(read_front(&[]), Ok(None)));
    Ok(())
}
