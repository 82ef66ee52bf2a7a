use ms_list::List;
use ms_logic::{Order, Quant};
use ms_logic_core::Basic;

/// A formula below another one: its node, and for each of its own variables that of the upper formula.
#[derive(Drop)]
pub struct Child {
    pub node: u32,
    pub map: List<u32>,
}

/// A formula by its parts. `Basic`, `Import` and the maps of children speak of its own variables, which
/// are its free ones in their order, numbered from 0. What a quantifier binds comes behind them all.
#[derive(Drop)]
pub enum DagNode {
    True,
    False,
    Basic(Basic),
    Not(Child),
    And(List<Child>),
    Or(List<Child>),
    Implies(Child, Child),
    Iff(Child, Child),
    Restrict(Child),
    /// The number of an import, and the variable for each variable of its file.
    Import(u32, List<u32>),
    /// The variable, its restriction and the body.
    Bind(Quant, Order, u32, Option<Child>, Child),
}

/// A node with the orders of its own variables.
#[derive(Drop)]
pub struct Entry {
    pub node: DagNode,
    pub orders: List<Order>,
}
