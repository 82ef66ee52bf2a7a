//! What an expression becomes, by what its parts became. Nothing comes of parts that came to nothing, or of parts of other
//! orders.
#![tactic(auto)]

mod comparison;
mod declared;
mod formula;
mod name;
mod order;
mod parts;
mod quantifier;
mod term;

pub use comparison::{emptiness, relation};
pub use declared::{default_predicate, predicate};
pub use formula::{
    conjunction, disjunction, equivalence, exported, implication, more_formulas, negation,
    restriction,
};
pub use name::{call, more_arguments, parameter_at, variable};
pub use order::formula_in;
pub use quantifier::{more_bindings, more_params, quantified, restricted, where_let};
pub use term::{
    difference, intersection, literal, maximum, minimum, more_numbers, pconst, shift, union,
};
