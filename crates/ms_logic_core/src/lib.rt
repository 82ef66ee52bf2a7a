//! Core formulas: what they mean, how a source is spread into them, where their variables stand and which orders these have, and how
//! calls stand in them.
#![tactic(auto)]

mod core_formula;
mod examples;
mod laws;
mod orders;

pub use core_formula::{Basic, Core, Lowered, Root};
pub use examples::{
    worked_bound_numbers, worked_calls, worked_extents, worked_formula_spreads,
    worked_number_spreads, worked_orders, worked_roots, worked_scopes, worked_set_spreads,
    worked_sizes,
};
pub use laws::laws_of_spread;
pub use orders::order_at;
