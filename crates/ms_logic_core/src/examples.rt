//! The definitions at small cases, worked out by hand. Each function has an empty body, and its contract is the table of its
//! examples.

mod bound;
mod calls;
mod sizes;
mod spreads;

pub use bound::worked_bound_numbers;
pub use calls::{worked_calls, worked_orders, worked_scopes};
pub use sizes::{worked_extents, worked_sizes};
pub use spreads::{
    worked_formula_spreads, worked_number_spreads, worked_roots, worked_set_spreads,
};
