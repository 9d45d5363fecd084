//! A board whose ends are on one thread.

use super::{jobs_of, ranks, three};
use crate::{Board, NoGate, SharedBatch, Stolen};
use dds_topic::Shapes;
use std::alloc::{AllocError, Global};
use std::test::Fail;

/// Returns the items that the owner takes off a board, in order.
fn taken(alloc: Global, board: &mut Board<u32>) -> Result<Vec<u32>, AllocError> {
    let mut taken = Vec::new(alloc);
    for _turn in 0..100 {
        match board.pop() {
            Some(item) => taken.push(item)?,
            None => break,
        }
    }
    Ok(taken)
}

#[test]
fn pushes_past_the_capacity_are_taken_in_order_or_come_back(rt: HostRuntime) -> Result<(), Fail> {
    let alloc = rt.alloc();
    for capacity in [1, 2, 3, 64] {
        let (board, _thieves) = Board::new(alloc, capacity, 0)?;
        let mut board = board;
        let mut pushed = Vec::new(alloc);
        for item in 0..70_u32 {
            match board.push(item) {
                Ok(()) => pushed.push(item)?,
                Err(back) => assert_eq!(rt; back, item),
            }
        }
        assert!(rt; pushed.len() >= capacity);
        let taken = taken(alloc, &mut board)?;
        assert!(rt; taken.as_slice() == pushed.as_slice());
    }
    Ok(())
}

/// Whether the steal took this item.
fn is_item(stolen: &Stolen<usize>, item: usize) -> bool {
    match stolen {
        Stolen::Item(stolen) => *stolen == item,
        _ => false,
    }
}

#[test]
fn thieves_take_in_the_order_of_the_pushes(rt: HostRuntime) -> Result<(), Fail> {
    let (board, thieves) = Board::new(rt.alloc(), 4096, 63)?;
    let mut board = board;
    for item in 0..64_usize {
        assert!(rt; board.push(item).is_ok());
    }
    assert_eq!(rt; thieves.len(), 63);
    for (at, thief) in thieves.into_iter().enumerate() {
        let mut thief = thief;
        assert!(rt; is_item(&thief.steal(), at));
    }
    assert_eq!(rt; board.pop(), Some(63));
    assert_eq!(rt; board.pop(), None);
    Ok(())
}

#[test]
fn a_thief_runs_all_jobs(rt: HostRuntime) -> Result<(), Fail> {
    let alloc = rt.alloc();
    let events = three(alloc)?;
    let batch = SharedBatch {
        catalog: &Shapes,
        gate: &NoGate,
        events: &events,
    };
    let (board, thieves) = Board::new(alloc, 3, 1)?;
    let mut board = board;
    for job in jobs_of::<Shapes>(alloc, 3)? {
        assert!(rt; board.push(job).is_ok());
    }
    for thief in thieves {
        let mut thief = thief;
        let results = thief.work(alloc, &batch)?;
        assert!(rt; ranks(alloc, results)?.as_slice() == [0, 1, 2].as_slice());
        assert!(rt; matches!(thief.steal(), Stolen::Empty));
    }
    assert!(rt; board.pop().is_none());
    Ok(())
}
