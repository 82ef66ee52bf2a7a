//! That what a source lacks is below the budget of a step of its roots, and that each step has a budget.
#![tactic(auto)]

mod examples;
mod laws;
mod measures;

pub use examples::worked_source_steps;
pub use laws::laws_of_sources;
pub use measures::laws_of_measures;
