use thiserror::Error;

/// Memory was refused.
#[derive(Clone, Copy, Debug, Error)]
#[error("out of memory")]
pub struct NoMemory;

/// Why a step of the work on automata gave up.
#[derive(Clone, Copy, Debug, Error)]
pub enum StepFault {
    /// The nodes and states would have passed the limit.
    #[error("more than {limit} nodes and states")]
    Nodes { limit: u64 },
    #[error("out of memory")]
    Memory,
}
