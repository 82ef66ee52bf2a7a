//! From a graph of formulas to automata of fewest states, one for each root.
#![tactic(auto)]

mod at_least;
mod bodies;
mod built;
mod children;
mod connectives;
mod examples;
mod lacked;
mod laws;
mod leaves;
mod nodes;
mod plan;
mod quantified;
mod range;
mod roots;
mod uses;
mod wider;

pub use built::{Built, build};
pub use examples::{worked_last_uses, worked_uses};
pub use laws::laws_of_built;
pub use plan::Many;
