//! The right quotient of an automaton by zeros at the end of a word: what is met at a state or behind it along its zero letters.
#![tactic(auto)]

mod close;
mod examples;
mod marks;
mod way;

pub use close::close_zeros;
pub use examples::worked_closures;
pub use marks::Marks;
