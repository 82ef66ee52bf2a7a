use ms_dfa::Plain;
use std::alloc::Global;

/// A file, with the slots of its variables.
#[derive(Drop)]
pub(crate) struct LaidOut<'a> {
    pub alloc: Global,
    pub plain: &'a Plain,
    pub slots: &'a [usize],
}
