//! Explaining a whole record file.

ghost use Rattle.std.specs.Prelude.{◌≡◌, ◌≤◌, ◌++◌, [], ◌∷◌, IfErr, List, None, OnOk, length, ℕ};
ghost use Rattle.rtps_records.specs.Runs.{Stops, WroteAll};
ghost use Rattle.rtps_receiver.specs.Counters.{all_counted};
ghost use Rattle.rtps_explain.specs.Counts.{counts_text};
ghost use Rattle.rtps_explain.specs.Explained.{explained_text};
ghost use Rattle.rtps_explain.specs.Lines.{explained};

use crate::counts::push_counts;
use crate::lines::push_explained;
use rtps_events::{DatagramText, print_file};
use rtps_receiver::Counters;
use rtps_records::RunFault;
use rtps_types::GuidPrefix;
use std::alloc::{AllocError, Global};
use std::io::{Read, Write};

/// Reads a record file up to its end or its first fault, and writes the lines of its datagrams, as
/// the participant with the prefix `own` receives them, as [`crate::push_explained`] makes them.
/// Then come the counts, as [`crate::push_counts`] makes them, also if a record has a fault.
///
/// The file is never in memory as a whole; what is in memory, and what was written at a fault, says
/// [`rtps_events::print_file`].
///
/// ```
/// explain(rt.alloc(), GuidPrefix([0x0b; 12]), &mut rt.stdin(), &mut rt.stdout())?;
/// ```
pub fn explain<R: Read, W: Write>(
    alloc: Global,
    own: GuidPrefix,
    reader: &mut R,
    writer: &mut W,
) -> Result<(), RunFault>
    ensures ok { OnOk result (WroteAll (explained_text own) (R.remaining reader.old)
        (W.contents writer.old) (W.contents writer.new) None) }
    ensures fault { IfErr result (λ fault. Stops (explained_text own) fault
        (R.remaining reader.old) (R.remaining reader.new)
        (W.contents writer.old) (W.contents writer.new)) }
{
    let mut explainer = Explainer {
        own,
        counters: Counters::new(),
    };
    print_file(alloc, &mut explainer, reader, writer)
}

/// What becomes of datagrams, and the counts of those before.
#[derive(Drop)]
struct Explainer {
    own: GuidPrefix,
    counters: Counters,
}

impl DatagramText for Explainer {
    ghost lines = { λ explainer. explained explainer.own };

    ghost ending = { λ explainer rest.
        counts_text (all_counted explainer.own rest explainer.counters) };

    fn push_datagram(
        &mut self,
        out: &mut Vec<u8>,
        index: u32,
        octets: &[u8],
    ) -> Result<(), AllocError> {
        push_explained(out, &mut self.counters, self.own, index, octets)
    }

    fn push_ending(&self, out: &mut Vec<u8>) -> Result<(), AllocError> {
        push_counts(out, &self.counters)
    }
}
