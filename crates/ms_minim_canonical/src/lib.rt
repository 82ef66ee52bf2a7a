//! The canonical content of an automaton: the one that is the same for all automata with the same signs.
#![tactic(auto)]

mod examples;
mod files;
mod laws;
mod order;
mod renumber;
mod walk;

pub use examples::worked_canonical;
pub use files::canonical;
pub use laws::{laws_of_canonical_contents, laws_of_canonical_files};
