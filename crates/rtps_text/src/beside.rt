//! Writing a text and reading a batch while two other calls are made.

ghost use Rattle.std.specs.Prelude.{◌≡◌, ◌⊎◌, ◌++◌, [], false, IfErr, IfSome, IsSomeAnd, List, OnErr, OnOk, Option, ℕ};
ghost use Rattle.rtps_records.specs.Batches.{records_in};
ghost use Rattle.rtps_records.specs.Runs.{Moves, PutsFront};
ghost use Rattle.rtps_records.specs.declared.fault.RunFault.TheVariants.{CannotWrite, NoMemory};
ghost use Rattle.rtps_text.specs.Ahead.{Ended, ReadsAhead, goes_on};

use crate::pipeline::ReadAhead;
use rtps_records::{Lines, Records, RunFault};
use std::io::{Read, Write};
use std::thread;
use std::thread::Threads;

/// Writes a text and reads the next batch on a thread of its own, as [`ReadAhead::write_and_read`]
/// does, while the first call is made on another thread and the second call on this one. Returns
/// the result of the writing and reading, and the result of each call.
pub(crate) fn write_and_read_beside<R, W, T, F, G, X, Y>(
    rt: &T,
    ahead: &mut ReadAhead,
    records: &mut Records<'_, R>,
    lines: &mut Lines<'_, W>,
    calls: (F, G),
) -> (Result<(), RunFault>, X, Y)
where
    R: Read + Send,
    W: Write + Send,
    T: Threads + Sync,
    F: FnOnce() -> X + Send,
    G: FnOnce() -> Y,
    X: Send,
    requires first { F.pre calls.0 }
    requires second { G.pre calls.1 }
    ensures first { F.post calls.0 result.1 }
    ensures second { G.post calls.1 result.2 }
    ensures none { ahead.new.text.items ≡ [] }
    ensures same_reader { records.new.reader.ghost_name ≡ records.old.reader.ghost_name }
    ensures same_format { records.new.format ≡ records.old.format }
    ensures same_writer { lines.new.writer.ghost_name ≡ lines.old.writer.ghost_name }
    ensures reads { (here : Option (List ℕ)) (n : ℕ)
        → Ended records.old.format ahead.old.end records.old.count
        (R.remaining records.old.reader.now) n here
        → OnOk result.0 (ReadsAhead records.old.format ahead.old.end
        here (R.remaining records.new.reader.now) n records.new.count
        (records_in ahead.new.next) ahead.new.end) }
    ensures still { goes_on ahead.old.end ≡ false
        → R.remaining records.new.reader.now ≡ R.remaining records.old.reader.now }
    ensures ok { OnOk result.0 (Moves
        (W.contents lines.old.writer.now) (W.contents lines.new.writer.now)
        (lines.old.text.items ++ ahead.old.text.items) lines.new.text.items) }
    ensures fault { IfErr result.0 (λ fault. (fault ≡ CannotWrite) ⊎ (fault ≡ NoMemory)) }
    ensures front { OnErr result.0 (PutsFront
        (W.contents lines.old.writer.now) (W.contents lines.new.writer.now)
        (lines.old.text.items ++ ahead.old.text.items)) }
{
    let mut due = Some(calls);
    let (done, made) = thread::join_mut(
        rt,
        &mut || ahead.write_and_read(rt, records, lines),
        &mut || -> Option<(X, Y)>
            requires { IfSome due (λ calls. F.pre calls.0 × G.pre calls.1) }
            ensures { IfSome due.entry (λ calls. IsSomeAnd result (λ made.
                F.post calls.0 made.0 × G.post calls.1 made.1)) }
        {
            match due.take() {
                Some((first, second)) => Some(thread::join(rt, first, second)),
                None => None,
            }
        },
    );
    match made {
        Some((one, other)) => (done, one, other),
        None => unreachable!(),
    }
}
