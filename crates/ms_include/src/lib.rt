//! Includes: a source of several files as one list of declarations, or the first refusal of one of its files.
#![tactic(auto)]

mod begun;
mod examples;
mod file;
mod loader;
mod source;
mod text;

pub use begun::Begun;
pub use examples::{example_loads, example_refused_loads};
pub use file::read_source;
pub use source::load;
pub use text::load_bytes;
