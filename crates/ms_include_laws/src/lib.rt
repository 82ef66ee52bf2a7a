//! Laws of a source that is loaded. What a load gives is fixed by what the files hold; the places of a source are in its files, and so
//! are those of what is refused; and its names are names of the language. Definitions and lemmas alone.
#![tactic(auto)]

mod loads;
mod places;
mod spellings;

pub use loads::{
    laws_of_checks, laws_of_loads, laws_of_reading, laws_of_texts, worked_outside, worked_told,
};
pub use places::{laws_of_places, worked_expressions, worked_refusals, worked_sources};
pub use spellings::{laws_of_spellings, worked_declarations};
