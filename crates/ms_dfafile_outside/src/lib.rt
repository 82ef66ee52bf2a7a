//! Whether the sign `x` of an automaton file stands at exactly the words that encode no assignment.
#![tactic(auto)]

mod arrival;
mod examples;
mod label;
mod labels;
mod numbers;
mod outside;
mod settling;

pub use examples::worked_outside;
pub use outside::marks_outside;
