//! Generated sources, and the laws that they are read, have no fault, are within the limits and are valid.
#![tactic(auto)]

mod acceptance;
mod accepted_examples;
mod chain;
mod examples;

pub use acceptance::laws_of_generated;
pub use accepted_examples::worked_texts;
pub use chain::generate;
pub use examples::{law_of_length, worked_sources};
