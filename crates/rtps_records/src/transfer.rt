//! Reading and writing all octets, with a known result after a fault.

ghost use Rattle.std.specs.Prelude.{◌≡◌, ◌<◌, ◌≤◌, true, false, length, take, IfErr, OnOk, OnErr};
ghost use Rattle.std.specs.Io.KnownBytes.{Appends, Consumes, IsAtEnd, Keeps};
ghost use Rattle.rtps_records.specs.declared.fault.RunFault.TheVariants.{CannotWrite};
ghost use Rattle.rtps_records.specs.Runs.{PutsFront};

use crate::fault::RunFault;
use std::io::{ErrorKind, Read, Write};

/// The result of filling a buffer.
#[derive(Clone, Copy)]
pub(crate) struct Filled {
    /// The number of octets read.
    pub count: usize,
    /// Whether a read failed after them.
    pub failed: bool,
}

/// Reads until the buffer is full, the reader ends or a read fails. An interrupted read is tried
/// again.
pub(crate) fn fill<R: Read>(reader: &mut R, buffer: &mut [u8]) -> Filled
    ensures within { result.count ≤ length buffer.old }
    ensures taken { Consumes (R.remaining reader.old) (R.remaining reader.new)
        (take result.count buffer.new) }
    ensures end { result.failed ≡ false → result.count < length buffer.old →
        IsAtEnd (R.remaining reader.new) }
    ensures short { result.failed ≡ true → result.count < length buffer.old }
{
    let mut count = 0;
    for _turn in 0..u64::MAX {
        if count >= buffer.len() {
            return Filled {
                count,
                failed: false,
            };
        }
        match reader.read(&mut buffer[count..]) {
            Ok(0) => return Filled {
                count,
                failed: false,
            },
            Ok(n) => count += n,
            Err(e) => {
                if e.kind() != ErrorKind::Interrupted {
                    return Filled {
                        count,
                        failed: true,
                    };
                }
            }
        }
    }
    let failed = count < buffer.len();
    Filled { count, failed }
}

/// Writes all octets, or those that the writer accepts before it fails. An interrupted write is
/// tried again; one that fails, or writes nothing, is `CannotWrite`.
pub(crate) fn put_all<W: Write>(writer: &mut W, octets: &[u8]) -> Result<(), RunFault>
    ensures ok { OnOk result (Appends (W.contents writer.old) (W.contents writer.new) octets.now) }
    ensures fault { IfErr result (λ fault. fault ≡ CannotWrite) }
    ensures front { OnErr result (PutsFront (W.contents writer.old) (W.contents writer.new)
        octets.now) }
{
    let mut count = 0;
    for _turn in 0..u64::MAX {
        if count >= octets.len() {
            return Ok(());
        }
        match writer.write(&octets[count..]) {
            Ok(0) => return Err(RunFault::CannotWrite),
            Ok(n) => count += n,
            Err(e) => {
                if e.kind() != ErrorKind::Interrupted {
                    return Err(RunFault::CannotWrite);
                }
            }
        }
    }
    Err(RunFault::CannotWrite)
}

/// Flushes the writer. An interrupted flush is tried again; one that fails is `CannotWrite`.
pub(crate) fn flush_all<W: Write>(writer: &mut W) -> Result<(), RunFault>
    ensures keeps { Keeps (W.contents writer.old) (W.contents writer.new) }
    ensures fault { IfErr result (λ fault. fault ≡ CannotWrite) }
{
    for _turn in 0..u64::MAX {
        match writer.flush() {
            Ok(()) => return Ok(()),
            Err(e) => {
                if e.kind() != ErrorKind::Interrupted {
                    return Err(RunFault::CannotWrite);
                }
            }
        }
    }
    Err(RunFault::CannotWrite)
}
