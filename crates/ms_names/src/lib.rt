//! Names, orders, constants and forbidden places: from the tree of a source to its typed tree, or to its first fault.
#![tactic(auto)]

mod call;
mod declaration;
mod declare;
mod expression;
mod name;
mod operation;
mod outcome;
mod progress;
mod source;
mod variable;

pub use source::check;
