//! How many labels an automaton has whose states two contents fix: laws that prepare a bound of what a widening lacks.
#![tactic(auto)]

mod examples;
mod widenings;

pub use examples::worked_readings;
pub use widenings::laws_of_widenings;
