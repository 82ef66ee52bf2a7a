//! Sharing: core formulas as a directed acyclic graph, in which each formula stands once.
#![tactic(auto)]

mod above;
mod binders;
mod bodies;
mod call;
mod codes;
mod connectives;
mod dag;
mod examples;
mod formulas;
mod laws;
mod maps;
mod memo;
mod node;
mod nodes;
mod relations;
mod rising;
mod sharing;
mod tasks;

pub use bodies::Bodies;
pub use dag::{Dag, SharedRoot};
pub use examples::{worked_graphs, worked_unfoldings, worked_values};
pub use laws::laws_of_sharing;
pub use node::{Child, DagNode, Entry};
pub use sharing::share;
