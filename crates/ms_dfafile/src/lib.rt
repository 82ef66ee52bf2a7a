//! Automaton files: their text, written and read.
#![tactic(auto)]

mod examples;
mod fault;
mod field;
mod laws;
mod line;
mod lines;
mod names;
mod node;
mod parts;
mod reading;
mod rules;
mod signs;
mod state;
mod tested;
mod variable;
mod writing;

pub use examples::{worked_files, worked_rules, worked_texts};
pub use fault::FileFault;
pub use field::{behind, number};
pub use laws::laws_of_files;
pub use reading::read;
pub use state::{sign, sign_field};
pub use writing::write;
