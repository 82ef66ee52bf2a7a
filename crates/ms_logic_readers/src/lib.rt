//! Finite machines that read a word and tell whether what it encodes has a property: a relation, a formula, a quantified one, the
//! Yes of an automaton. Lemmas alone, with worked examples of the scopes that they speak of.
#![tactic(auto)]

mod examples;

pub use examples::worked_scopes;
