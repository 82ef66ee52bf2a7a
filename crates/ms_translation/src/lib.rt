//! What translations of other logics share: formulas and sources made of their parts, and when a formula says a fact.
#![tactic(auto)]

mod atoms;
mod made;
mod parts;
mod source;

pub use atoms::{is_in, less};
pub use made::{Made, MadeList, and_then, both, heaped};
pub use parts::{
    all_hold, both_hold, bound, conjunction, disjunction, either_holds, equivalence, implication,
    negation, pair, restriction, single, some_hold,
};
pub use source::source_over;
