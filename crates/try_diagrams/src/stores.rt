//! Stores of diagrams.
ghost use Rattle.std.specs.Prelude.{◌≤◌};

use crate::functions::leaf_at;
use anyhow::Result;
use ms_arena::Ref;
use ms_diagram::{Pairs, Store};
use ms_list::StepFault;
use std::alloc::Global;

pub fn tell(rt: &HostRuntime) -> Result<()> {
    println!(rt; "Stores")?;
    node_once(rt)?;
    println!(rt; "the leaf at 1: {}", find_leaf(rt.alloc())?)?;
    brought_node(rt)?;
    refused_node(rt)?;
    for limit in [3, 100] {
        pair_nodes(rt, limit)?;
    }
    Ok(())
}

/// Two equal nodes are one.
fn node_once(rt: &HostRuntime) -> Result<()> {
    let mut store = Store::new(rt.alloc(), 9);
    let zero = store.leaf(0);
    let one = store.leaf(1);
    let first = store.mk(0, zero, one)?;
    let again = store.mk(0, zero, one)?;
    println!(rt;
        "an equal node is the same: {}, {}",
        first == again,
        store.same(first, again)
    )?;
    println!(rt; "nodes: {}", store.len())?;
    Ok(())
}

/// The leaf of a node.
fn find_leaf(alloc: Global) -> Result<u32> {
    let mut store = Store::new(alloc, 1);
    let made = store.mk(0, Ref::Leaf(0), Ref::Leaf(1))?;
    Ok(store.eval(made, &[true]))
}

/// A node in another store, to which it is brought, as variable 5.
fn brought_node(rt: &HostRuntime) -> Result<()> {
    let mut store = Store::new(rt.alloc(), 1);
    let mut other = Store::new(rt.alloc(), 1);
    let made = store.mk(0, Ref::Leaf(0), Ref::Leaf(1))?;
    let brought = other.bring(&store, made, &[5])?;
    println!(rt;
        "brought to variable 5, the leaves at the numbers 31 and 32: {}, {}",
        leaf_at(&other, brought, 31),
        leaf_at(&other, brought, 32)
    )?;
    Ok(())
}

/// A node more than the store may hold is refused, and the store is as it was.
fn refused_node(rt: &HostRuntime) -> Result<()> {
    let mut store = Store::new(rt.alloc(), 1);
    let _made = store.mk(0, Ref::Leaf(0), Ref::Leaf(1))?;
    if let Err(StepFault::Nodes { limit }) = store.mk(1, Ref::Leaf(0), Ref::Leaf(1)) {
        println!(rt; "another node is refused at the limit {limit}")?;
    }
    println!(rt; "nodes: {}", store.len())?;
    Ok(())
}

/// A store that is too small for an answer refuses it, and a larger one makes it.
fn pair_nodes(rt: &HostRuntime, limit: u64) -> Result<()>
    requires some { 1 ≤ limit }
    requires small { limit ≤ 100 }
{
    let mut store = Store::new(rt.alloc(), limit);
    let mut pairs = Pairs::new(rt.alloc());
    let f = store.mk(0, Ref::Leaf(0), Ref::Leaf(1))?;
    let g = store.mk(1, Ref::Leaf(0), Ref::Leaf(1))?;
    let is_made = store.apply(f, g, &mut pairs).is_ok();
    println!(rt;
        "with room for {limit} nodes a pair is made: {is_made}; nodes: {}",
        store.len()
    )?;
    Ok(())
}
