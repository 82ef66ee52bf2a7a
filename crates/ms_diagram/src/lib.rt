//! Reduced ordered diagrams with numbers at their leaves, each kept once.
//!
//! The calls that go over a diagram do it with a stack of their own on the heap, so no path is too long for them.
#![tactic(auto)]

mod across;
mod apply;
mod bring;
mod collect;
mod computed_table;
mod examples;
mod halves;
mod hash;
mod leaves;
mod list_table;
mod listed;
mod notes;
mod pair_table;
mod pairs;
mod places;
mod projected;
mod ref_list;
mod relabel;
mod root_list;
mod roots;
mod sets;
mod short;
mod sides;
mod store;
mod tables;
mod walk;

pub use examples::{
    worked_buckets, worked_codes, worked_halves, worked_lists, worked_newest, worked_projected,
    worked_sides,
};
pub use hash::scatter;
pub use list_table::ListTable;
pub use pair_table::PairTable;
pub use pairs::Pairs;
pub use places::PlaceTable;
pub use projected::Projected;
pub use ref_list::RefList;
pub use root_list::RootList;
pub use sets::Sets;
pub use sides::{Renamed, Sides};
pub use store::Store;
