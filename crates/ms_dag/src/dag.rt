ghost use Rattle.ms_logic_core.specs.Orders.{order_at};
ghost use Rattle.ms_dag.specs.Dag.{own_orders};
ghost use Rattle.ms_dag.specs.Share.{children_of_roots, variables_of_roots};
ghost use Rattle.ms_dag.specs.Unfolds.{node_at};
ghost use Rattle.std.specs.Prelude.{◌≡◌, ◌<◌, ◌≤◌, length, slice_get};

use crate::node::{Child, DagNode, Entry};
use ms_list::List;
use ms_logic::Order;
use ms_logic_core::order_at;

/// A root: the node of its formula, whose variables have their numbers in the source here, and the rising
/// list of the root's variables.
#[derive(Drop)]
pub struct SharedRoot {
    pub child: Child,
    pub variables: List<u32>,
}

/// The formulas of a source, each of which stands once, up to a renaming of its variables that keeps
/// their order.
#[derive(Drop)]
pub struct Dag {
    pub(crate) entries: List<Entry>,
    pub(crate) roots: List<SharedRoot>,
    /// The orders of the globals of the source.
    pub(crate) orders: List<Order>,
}

impl Dag {
    /// How many nodes there are.
    pub fn len(&self) -> u32
        requires { length self.now.entries ≤ 4294967295 }
        ensures { result ≡ length self.now.entries }
    {
        self.entries.len() as u32
    }

    /// The node with this number.
    pub fn node(&self, i: u32) -> &DagNode
        requires { i < length self.now.entries }
        ensures { node_at self.now.entries i ≡ Some result.now }
    {
        &self.entries.get(i as usize).node
    }

    /// The node with this number, and the orders of its own variables.
    pub fn entry(&self, i: u32) -> &Entry
        requires { i < length self.now.entries }
        ensures { slice_get self.now.entries i ≡ Some result.now }
    {
        self.entries.get(i as usize)
    }

    /// The orders of the node's own variables.
    pub fn orders(&self, i: u32) -> &[Order]
        requires { i < length self.now.entries }
        ensures { own_orders self.now.entries i ≡ Some result.now }
    {
        self.entries.get(i as usize).orders.slice()
    }

    /// How many roots there are.
    pub fn roots(&self) -> u32
        requires { length self.now.roots ≤ 4294967295 }
        ensures { result ≡ length self.now.roots }
    {
        self.roots.len() as u32
    }

    /// The roots, by their numbers.
    pub fn shared_roots(&self) -> &[SharedRoot]
        ensures { result.now ≡ self.now.roots }
    {
        self.roots.slice()
    }

    /// The formula of this root, whose variables have their numbers in the source.
    pub fn root(&self, r: u32) -> &Child
        requires { r < length self.now.roots }
        ensures { slice_get (children_of_roots self.now.roots) r ≡ Some result.now }
    {
        &self.roots.get(r as usize).child
    }

    /// The variables of this root, in rising order.
    pub fn variables(&self, r: u32) -> &[u32]
        requires { r < length self.now.roots }
        ensures { slice_get (variables_of_roots self.now.roots) r ≡ Some result.now }
    {
        self.roots.get(r as usize).variables.slice()
    }

    /// The order of a variable of the source.
    pub fn order(&self, variable: u32) -> Order
        ensures { result ≡ order_at self.now.orders variable }
    {
        order_at(self.orders.slice(), variable)
    }
}
