//! Reads the tokens of a source as the one tree that they make up, or refuses them.
#![tactic(auto)]

mod examples;
mod laws;
mod parser;
mod refuse;

pub use examples::{
    example_continuations, example_declarations, example_depths, example_documents,
    example_operators, example_refusals,
};
pub use laws::one_document;
pub use parser::parse;
