//! Finite automata whose transitions are decision diagrams, the contents of automaton files, and the theory that every operation on
//! automata rests on: what a diagram stands for, what an automaton means at an assignment, machines that read words and how an
//! automaton follows one, and words read over other variables.
#![tactic(auto)]

mod automaton;
mod count;
mod examples;
mod part;
mod plain;
mod state;
mod track;

pub use automaton::Automaton;
pub use examples::{
    worked_file_signs, worked_functions, worked_machines, worked_meanings, worked_narrowings,
};
pub use ms_logic_words::Sign;
pub use part::{Part, is_in};
pub use plain::{FileSign, FileState, FileVar, FileVersion, Plain};
pub use state::State;
pub use track::{Track, copy_tracks};
