//! The plain queue: a heap of entries with one caller, the baseline of the shared queues.

mod pass;
mod queue;
mod steps;

pub use pass::PlainPass;
pub use queue::PlainQueue;
