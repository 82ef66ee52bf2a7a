//! The definitions at small cases, worked out by hand. Each function has an empty body, and its contract is the table of its
//! examples.

mod canonical;
mod contents;
mod values;
mod words;

pub use canonical::{worked_not_canonical, worked_words_over};
pub use contents::{worked_contents, worked_runs};
pub use values::{worked_covers, worked_values};
pub use words::{worked_encodings, worked_truth_values};
