//! Automata over other variables.
#![tactic(auto)]

mod choose;
mod examples;
mod images;
mod reached;
mod renaming;
mod tracks;
mod whole;

pub use examples::{worked_numbers, worked_renamings};
pub use renaming::{rename, rises};
pub use tracks::renamed_tracks;
pub use whole::{widen, widen_all};
