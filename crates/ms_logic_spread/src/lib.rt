//! The spread of a source into core formulas keeps its value, for the whole language. Definitions and lemmas alone.
#![tactic(auto)]

mod examples;
mod laws;

pub use examples::{worked_calls, worked_lets, worked_names, worked_roots};
pub use laws::{laws_of_roots, laws_of_same_roots, laws_of_spread};
