//! That what a node of the graph lacks is below the budget of its step.
#![tactic(auto)]

mod examples;
mod graphs;
mod nodes;

pub use examples::{worked_kinds, worked_steps};
pub use graphs::laws_of_graphs;
pub use nodes::laws_of_nodes;
