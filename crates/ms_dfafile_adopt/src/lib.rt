//! Automaton files as imports: the automaton of a file over the variables of an import.
#![tactic(auto)]

mod adoption;
mod changes;
mod examples;
mod images;
mod in_mode;
mod laws;
mod names;
mod naming;
mod numbers;
mod over_numbers;
mod over_sets;
mod over_strings;
mod states;
mod tracks;

pub use adoption::adopt;
pub use examples::{worked_answers, worked_imports, worked_lacks};
pub use laws::laws_of_imports;
