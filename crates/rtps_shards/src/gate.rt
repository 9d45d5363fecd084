//! Callbacks that watch jobs as they run.

/// Called as each job begins and ends, on the thread that runs it. Each `enter` of a job is
/// followed by one `leave` of it, also where the job runs out of memory.
pub trait Gate: Sync {
    /// The job of the reader of this rank begins.
    fn enter(&self, rank: u32);

    /// The job of the reader of this rank has ended.
    fn leave(&self, rank: u32);
}

/// A gate that does nothing.
#[derive(Clone, Copy, Debug)]
pub struct NoGate;

impl Gate for NoGate {
    fn enter(&self, _rank: u32) {}

    fn leave(&self, _rank: u32) {}
}
