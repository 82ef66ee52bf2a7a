//! How many states the full content of a basic relation has at least: laws that bound what its automaton needs by what the relation fixes.
#![tactic(auto)]

mod relations;

pub use relations::laws_of_relations;
