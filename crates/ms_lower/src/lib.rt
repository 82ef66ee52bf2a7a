//! From the typed tree of a source to core formulas: its size and depth after expansion, and the spread of its roots.
#![tactic(auto)]

mod all_roots;
mod arguments;
mod atoms;
mod bodies;
mod called;
mod calls;
mod cores;
mod counted;
mod defined;
mod exports;
mod extents;
mod formulas;
mod given;
mod goal_roots;
mod laws;
mod made;
mod main_root;
mod orders;
mod pairs;
mod predicate_extents;
mod relations;
mod restriction;
mod scope;
mod source;
mod source_extents;
mod source_measure;
mod tables;
mod term_extents;
mod terms;
mod truths;

pub use bodies::lower_call;
pub use laws::laws_of_numbers;
pub use source::lower;
pub use tables::Tables;
