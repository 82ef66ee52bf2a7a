//! The definitions at small cases, worked out by hand. Each function has an empty body, and its contract is the table of its
//! examples.

mod budgets;
mod calls;
mod full;
mod limits;
mod steps;

pub use budgets::{worked_budgets, worked_call_measures, worked_starts};
pub use calls::{worked_files, worked_renamings, worked_restricted_quantifier};
pub use full::{worked_full_contents, worked_only_contents};
pub use limits::worked_limits;
pub use steps::worked_steps;
