//! Each finite automaton over words has a canonical content: a law, worked examples, and no code that is run.
#![tactic(auto)]

mod examples;
mod laws;

pub use examples::worked_machines;
pub use laws::law_of_machines;
