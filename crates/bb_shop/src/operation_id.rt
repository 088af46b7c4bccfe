//! How an operation of a shop is named.
/// Where an operation stands: its job, and its step in the job.
#[derive(Clone, Copy)]
pub struct OperationId {
    pub job: usize,
    pub step: usize,
}

/// Two operations, the other one a later one by job and step.
#[derive(Clone, Copy)]
pub struct Pair {
    pub one: OperationId,
    pub other: OperationId,
}
