//! Sending the answers of a batch to writers.

ghost use Rattle.std.specs.Prelude.{◌≡◌, OnErr, OnOk};
ghost use Rattle.rtps_records.specs.Traffic.{Grows};
ghost use Rattle.rtps_run.specs.BatchOutput.{AreAnswersInOrder};
ghost use Rattle.rtps_run.specs.Order.{report_of};
ghost use Rattle.rtps_text.specs.Sending.{Sends, given_sends, goes_out, sendings, to_each};

use rtps_records::Exchange;
use rtps_run::{BatchOutput, Item, answers_in_order};
use rtps_types::Locator;
use std::alloc::{AllocError, Global};

/// Sends the answers of a batch in the order of the run, each one whole, and once to each of its
/// locators. The order is by place; at one place discovery's answers come first, and then those of
/// each reader, by rank (DDSI-RTPS 8.3.7.1, AckNack, and 8.3.7.11, NackFrag). So a run sends the
/// same datagrams however it is cut into batches.
///
/// `given` is the output of [`run_in_order`](dds_participant::Participant::run_in_order) for the
/// batch. An answer without locators isn't sent. A send that the network refuses is no error: that
/// datagram is lost, as any datagram may be, and the next heartbeat of its writer is answered
/// again. Nothing is received.
///
/// An error is a refused growth; then nothing is sent. Memory is needed for each reader that
/// answers, and none where nobody does.
pub fn send_answers<V: Drop, N: Exchange>(
    alloc: Global,
    network: &mut N,
    given: &BatchOutput<V>,
) -> Result<(), AllocError>
    ensures ok { OnOk result (Sends (AreAnswersInOrder given.now)
        (N.traffic network.old) (N.traffic network.new) (given_sends given.now)) }
    ensures err { OnErr result (N.traffic network.new ≡ N.traffic network.old) }
    ensures speech { N.speech network.new ≡ N.speech network.old }
{
    for item in answers_in_order(alloc, given)? {
        send_item(network, item);
    }
    Ok(())
}

/// Sends an item if it is an answer.
fn send_item<V, N: Exchange>(network: &mut N, item: Item<'_, V>)
    ensures sent { Grows (N.traffic network.old) (N.traffic network.new)
        (sendings (goes_out (report_of item.entry))) }
    ensures speech { N.speech network.new ≡ N.speech network.old }
{
    match item {
        Item::Answer(_, (_place, reply)) => {
            send_to(network, reply.to.as_slice(), reply.octets.as_slice());
        }
        Item::Notice(_, _) => {}
    }
}

/// Sends an answer to each of these locators.
fn send_to<N: Exchange>(network: &mut N, to: &[Locator], octets: &[u8])
    ensures sent { Grows (N.traffic network.old) (N.traffic network.new)
        (sendings (to_each to.now octets.now)) }
    ensures speech { N.speech network.new ≡ N.speech network.old }
{
    for locator in to {
        network.send(*locator, octets);
    }
}
