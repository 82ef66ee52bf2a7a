//! The definitions at small cases, worked out by hand. Each function has an empty body, and its contract is the table of its
//! examples.

mod calls;
mod formulas;
mod orders;
mod quantifiers;
mod restrictions;
mod terms;
mod verdicts;

pub use calls::{worked_calls, worked_defaults, worked_lets};
pub use formulas::{worked_atoms, worked_connectives};
pub use orders::worked_orders;
pub use quantifiers::{worked_all, worked_exists};
pub use restrictions::worked_restrictions;
pub use terms::{worked_terms, worked_terms_on_strings};
pub use verdicts::{worked_questions, worked_verdicts};
