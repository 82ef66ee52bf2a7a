//! How many states and nodes the automata of a step need: laws that bound what a step of the graph lacks by what its formula fixes.
#![tactic(auto)]

mod examples;
mod products;

pub use examples::worked_contents;
pub use products::laws_of_products;
