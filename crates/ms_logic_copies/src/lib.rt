//! Copies of trees, and whether two trees are equal. They stand in a crate of their own, since no crate on the way from a
//! source to its typed tree calls them.
#![tactic(auto)]

mod core_copy;
mod equality;
mod formula_copy;
mod made;
mod term_copy;
mod term_equality;

pub use core_copy::copy_core;
pub use equality::same_formula;
pub use formula_copy::copy_formula;
