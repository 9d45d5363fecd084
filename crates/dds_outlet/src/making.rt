//! Making a ring.

ghost use Rattle.std.specs.Prelude.{◌≡◌, [], ◌≤◌, false, IfOk};

use crate::ring::{Inlet, Outlet};
use rtps_reader::Notice;
use rtrb::RingBuffer;
use std::alloc::{AllocError, Allocator};

/// Makes a ring with `capacity` places for notices, 1 to 65,536. Returns the end that notices are
/// delivered to, and the end that they are popped from. Each may move to a thread of its own. An
/// error is a refused growth; no call on the ends takes memory, and none waits.
///
/// ```
/// let (mut outlet, mut inlet) = dds_outlet::outlet(alloc, 64)?;
/// // On the thread that runs the reader:
/// for notice in notices {
///     if let Err(notice) = outlet.deliver(notice) {
///         // The ring is full. The notice may be delivered again later.
///     }
/// }
/// // On a thread of the application:
/// while let Some(notice) = inlet.pop() {
///     // The notices, in the order in which they were delivered.
/// }
/// ```
pub fn outlet<V: Drop, A: Allocator + Copy>(
    alloc: A,
    capacity: usize,
) -> Result<(Outlet<V, A>, Inlet<V, A>), AllocError>
    requires { (1 ≤ capacity) × (capacity ≤ 65536) }
    ensures pair { IfOk result (λ r. r.0.ring ≡ r.1.ring) }
    ensures outlet { IfOk result (λ r. (r.0.sent ≡ []) × (r.0.free ≡ capacity)
        × (r.0.capacity ≡ capacity)) }
    ensures inlet { IfOk result (λ r. (r.1.received ≡ []) × (r.1.next ≡ [])
        × (r.1.is_last ≡ false) × (r.1.is_put_back ≡ false) × (r.1.capacity ≡ capacity)) }
{
    let (producer, consumer) = RingBuffer::new(alloc, capacity)?;
    Ok((Outlet::new(producer), Inlet::new(consumer)))
}
