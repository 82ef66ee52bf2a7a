//! Each node of the graph of a source is a subformula of one of its roots, and its steps are own steps of that subformula. Definitions
//! and lemmas alone.
#![tactic(auto)]

mod examples;
mod laws;

pub use examples::{worked_occurrences, worked_own_steps, worked_subformulas};
pub use laws::laws_of_node_steps;
