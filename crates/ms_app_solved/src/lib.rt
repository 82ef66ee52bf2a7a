//! A formula in a file alone: the tokens of the file, and the answer by a source that imports nothing.
#![tactic(auto)]

mod solved;
mod tokens;

pub use solved::solved_answer;
pub use tokens::read_tokens;
