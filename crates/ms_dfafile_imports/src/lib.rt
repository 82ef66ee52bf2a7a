//! Imports: the automaton files that a checked source imports, read and made automata of.
#![tactic(auto)]

mod contents;
mod enough;
mod examples;
mod file;
mod laws;
mod source;
mod taking;

pub use enough::laws_of_enough;
pub use examples::{worked_contents, worked_refusals};
pub use laws::laws_of_told_imports;
pub use source::imports;
