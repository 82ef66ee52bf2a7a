//! The definitions at small sources, worked out by hand. Each function has an empty body, and its contract is the table
//! of its examples: a source, and its first fault or none, or what it becomes.

mod exports;
mod goals;
mod names;
mod numbers;
mod orders;
mod places;
mod trees;

pub use exports::worked_exports;
pub use goals::worked_goals;
pub use names::{worked_lexical_scopes, worked_repeats, worked_unknown_names};
pub use numbers::{worked_counts_of_arguments, worked_ranges};
pub use orders::{
    worked_either_wanted, worked_formulas_wanted, worked_numbers_wanted, worked_sets_wanted,
};
pub use places::{worked_firsts, worked_places};
pub use trees::{worked_typed_declarations, worked_typed_names, worked_uses};
