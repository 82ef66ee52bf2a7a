//! Texts of trees: whether some text reads as a tree, and such a text.
#![tactic(auto)]

mod clear;
mod declaration;
mod expression;
mod fit;
mod laws;
mod level;
mod said;
mod source_fit;
mod text;
mod token;

pub use laws::read_sources_fit;
pub use source_fit::fits;
pub use text::print;
