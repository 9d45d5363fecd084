//! Calls that are refused memory.

use super::*;
use linked_list_allocator::LocalHeap;

/// The calls that take memory.
#[derive(Clone, Copy, Debug)]
enum Call {
    Gap,
    Heartbeat,
    Participant,
    ParticipantGone,
    Reader,
    ReaderGone,
}

const CALLS: [Call; 6] = [
    Call::Gap,
    Call::Heartbeat,
    Call::Participant,
    Call::ParticipantGone,
    Call::Reader,
    Call::ReaderGone,
];

/// Returns how many octets a call gives; none if it is refused.
fn written<A: Allocator>(
    alloc: A,
    call: Call,
    record: &ReaderRecord,
) -> Result<Option<usize>, Fail> {
    let number = number_of(1)?;
    let octets = match call {
        Call::Gap => write_gap(alloc, OWN, PEER, number, number),
        Call::Heartbeat => write_heartbeat(alloc, OWN, PEER, 1, 1),
        Call::Participant => write_participant(alloc, OWN, Some(PEER), HERE),
        Call::ParticipantGone => write_participant_gone(alloc, OWN, Some(PEER)),
        Call::Reader => write_reader(alloc, OWN, PEER, number, record),
        Call::ReaderGone => write_reader_gone(alloc, OWN, PEER, number, READER),
    };
    match octets {
        Ok(octets) => Ok(Some(octets.as_slice().len())),
        Err(_) => Ok(None),
    }
}

#[test]
fn a_datagram_is_refused_without_a_trace(rt: HostRuntime) -> Result<(), Fail> {
    let record = ReaderRecord::new(rt.alloc(), OWN, &particular(rt.alloc())?)?;
    for call in CALLS {
        let (mut some_refused, mut some_made) = (false, false);
        for step in 0..32 {
            let heap = LocalHeap::new(rt.alloc(), step * 16)?;
            match written(&heap, call, &record)? {
                Some(count) => {
                    assert!(rt; count >= 68, "of {call:?}");
                    some_made = true;
                }
                None => some_refused = true,
            }
            assert_eq!(rt; heap.used(), 0, "of {call:?}");
        }
        assert!(rt; some_refused && some_made, "of {call:?}");
    }
    Ok(())
}

#[test]
fn a_record_is_refused_without_a_trace(rt: HostRuntime) -> Result<(), Fail> {
    let reader = particular(rt.alloc())?;
    let (mut some_refused, mut some_made) = (false, false);
    for step in 0..128 {
        let heap = LocalHeap::new(rt.alloc(), step * 16)?;
        match ReaderRecord::new(&heap, OWN, &reader) {
            Ok(record) => {
                assert_eq!(rt; record.as_slice().len(), 208);
                some_made = true;
            }
            Err(fault) => {
                assert_eq!(rt; fault, RecordFault::NoMemory);
                some_refused = true;
            }
        }
        assert_eq!(rt; heap.used(), 0);
    }
    assert!(rt; some_refused && some_made);
    Ok(())
}
