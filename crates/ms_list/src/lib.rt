//! Lists, boxes, texts, names, places in files and words of letters, which are handed from crate to crate; and what a call that
//! is refused memory answers.
#![tactic(auto)]

mod at;
mod boxed;
mod fault;
mod list;
mod memory;
mod name;
mod text;
mod word;

pub use at::At;
pub use boxed::Boxed;
pub use fault::{NoMemory, StepFault};
pub use list::{Bytes, List};
pub use memory::{let_go, on_heap, push};
pub use name::Name;
pub use text::Text;
pub use word::Word;
