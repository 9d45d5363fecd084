//! Printing the events of a whole record file, one line for each.

ghost use Rattle.std.specs.Prelude.{◌≡◌, ◌≤◌, ◌++◌, [], ◌∷◌, IfErr, List, None, OnOk, length, ℕ};
ghost use Rattle.rtps_records.specs.Runs.{Stops, WroteAll};
ghost use Rattle.rtps_records.specs.Text.{text_of};
ghost use Rattle.rtps_events.specs.EventLines.{lines_of};

use crate::event_lines::push_events;
use crate::printing::{DatagramText, print_file};
use rtps_records::RunFault;
use rtps_types::GuidPrefix;
use std::alloc::{AllocError, Global};
use std::io::{Read, Write};

/// Reads a record file up to its end or its first fault, and writes a line for each event of its
/// datagrams, as the participant with the prefix `own` sees them.
///
/// The file is never in memory as a whole; what is in memory, and what was written at a fault, says
/// [`print_file`].
pub fn dump<R: Read, W: Write>(
    alloc: Global,
    own: GuidPrefix,
    reader: &mut R,
    writer: &mut W,
) -> Result<(), RunFault>
    ensures ok { OnOk result (WroteAll (text_of (lines_of own)) (R.remaining reader.old)
        (W.contents writer.old) (W.contents writer.new) None) }
    ensures fault { IfErr result (λ fault. Stops (text_of (lines_of own)) fault
        (R.remaining reader.old) (R.remaining reader.new)
        (W.contents writer.old) (W.contents writer.new)) }
{
    print_file(alloc, &mut EventText { own }, reader, writer)
}

/// The events of datagrams, as the participant with the prefix `own` sees them.
#[derive(Drop)]
struct EventText {
    own: GuidPrefix,
}

impl DatagramText for EventText {
    ghost lines = { λ events. lines_of events.own };

    ghost ending = { λ _ _. [] };

    fn push_datagram(
        &mut self,
        out: &mut Vec<u8>,
        index: u32,
        octets: &[u8],
    ) -> Result<(), AllocError> {
        push_events(out, self.own, index, octets)
    }

    fn push_ending(&self, _out: &mut Vec<u8>) -> Result<(), AllocError> {
        Ok(())
    }
}
