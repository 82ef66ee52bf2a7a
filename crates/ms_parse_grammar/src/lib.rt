//! The grammar of the language: which symbols a text has, which tree they are read as, and how tightly the sides of the operators bind.
//! `ms_parse` reads by it, and `ms_parse_print` writes by it.
#![tactic(auto)]

mod laws;
mod least;
mod operator;
mod reach;

pub use laws::no_more_parts_than_symbols;
pub use least::{least_left, least_operand};
pub use operator::{Binary, Bracket, Junction, Listing, Prefix};
pub use reach::{infix_reach, junction_reach, prefix_reach};
