//! The automaton that reads the tokens of a source, symbol by symbol, as the one tree that they make up, or stops at the
//! first that cannot stand there.
#![tactic(auto)]

mod append;
mod begin;
mod bound;
mod close;
mod complete;
mod configuration;
mod context;
mod declaration;
mod declare;
mod enter;
mod expression;
mod followed;
mod form;
mod frame;
mod globals;
mod go_on;
mod header;
mod input;
mod int;
mod join;
mod lists;
mod memory;
mod names;
mod operand;
mod outcome;
mod parameters;
mod parser;
mod punctuation;
mod run;
mod separate;
mod settle;
mod stack;
mod stop;
mod terminal;
mod top;

pub use input::at_of;
pub use punctuation::{Punctuation, behind_mark};
pub use run::read;
pub use stop::Stop;
