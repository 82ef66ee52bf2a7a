//! Trees of the language, and what they mean: the values of terms and formulas in WS1S and M2L-Str.
#![tactic(auto)]

mod assignment;
mod checked;
mod examples;
mod formula;
mod laws;
mod mode;
mod source;
mod term;

pub use assignment::{Assignment, Value};
pub use checked::{Checked, ExportUse, Global, ImportUse, MapPair, Param, Placed, Predicate};
pub use examples::{
    worked_all, worked_atoms, worked_calls, worked_connectives, worked_defaults, worked_exists,
    worked_lets, worked_orders, worked_questions, worked_restrictions, worked_terms,
    worked_terms_on_strings, worked_verdicts,
};
pub use formula::{Arg, Binding, Formula};
pub use laws::{laws_of_order, laws_of_sets, laws_of_truth};
pub use mode::{Mode, Order, Quant, Rel};
pub use source::{Bound, Decl, Expr, Form, Int, Item, LetPart, Loaded, PlacedInt, Rename, Source};
pub use term::{Term1, Term2};
