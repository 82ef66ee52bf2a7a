//! What the rules of names, orders, constants and forbidden places are, and what a source becomes that meets them: the
//! definitions, what follows from them, and worked examples. The code beside them answers small questions of the rules.
#![tactic(auto)]

mod examples;
mod fault;
mod meaning;
mod wanted;

pub use examples::{
    worked_counts_of_arguments, worked_either_wanted, worked_exports, worked_firsts,
    worked_formulas_wanted, worked_goals, worked_lexical_scopes, worked_numbers_wanted,
    worked_places, worked_ranges, worked_repeats, worked_sets_wanted, worked_typed_declarations,
    worked_typed_names, worked_unknown_names, worked_uses,
};
pub use fault::Fault;
pub use meaning::{Meaning, Reading};
pub use wanted::Wanted;
