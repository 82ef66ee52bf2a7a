//! Nodes of ordered decision diagrams, the references between them, and the unique table: a list of nodes, no two equal, in which a
//! node is found by its hash.
#![tactic(auto)]

mod arena;
mod cells;
mod chain;
mod code;
mod examples;
mod hash;
mod node;

pub use arena::Arena;
pub use examples::{worked_buckets, worked_cells, worked_codes};
pub use node::{Node, Ref};
