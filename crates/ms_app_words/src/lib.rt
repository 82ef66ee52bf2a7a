//! What the words of a command line ask for.
#![tactic(auto)]

mod apps;
mod command;
mod examples;
mod laws;
mod words;

pub use command::{Command, Verb, WordsFault};
pub use examples::{
    worked_certifications, worked_checks, worked_comparisons, worked_formats, worked_formulas,
    worked_generations, worked_limits, worked_verbs, worked_words,
};
pub use laws::one_command;
pub use words::options;
