use thiserror::Error;

/// Why bytes were not read as an automaton file.
#[derive(Clone, Copy, Debug, Error)]
pub enum FileFault {
    /// They are no automaton file.
    #[error("not an automaton file")]
    Text,
    #[error("out of memory")]
    Memory,
}
