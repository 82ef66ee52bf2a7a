//! How many states and nodes a projection needs: laws that bound what it lacks by what its formula fixes.
#![tactic(auto)]

mod examples;
mod projections;

pub use examples::worked_bindings;
pub use projections::laws_of_projections;
