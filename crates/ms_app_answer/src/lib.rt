//! The answer to a question, by an automaton that has its value.
#![tactic(auto)]

mod question;

pub use question::answer;
