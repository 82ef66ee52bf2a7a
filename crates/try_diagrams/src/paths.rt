//! Diagrams as long as a variable may be high.
use crate::functions::{ROOM, chain, either_leaf, identity, parity};
use anyhow::Result;
use ms_diagram::{Pairs, Sets, Store};
use std::alloc::Global;

/// How many variables a long path has.
const LONG: u32 = 65_534;

pub fn tell(rt: &HostRuntime) -> Result<()> {
    println!(rt; "Paths of {LONG} variables")?;
    paired_path(rt)?;
    collected_path(rt)?;
    println!(rt; "relabelled: {} nodes", relabel_path(rt.alloc())?)?;
    println!(rt; "brought: {} nodes", bring_path(rt.alloc())?)?;
    Ok(())
}

/// A long path that is paired with itself.
fn paired_path(rt: &HostRuntime) -> Result<()> {
    let mut store = Store::new(rt.alloc(), ROOM);
    let mut pairs = Pairs::new(rt.alloc());
    let odd = parity(&mut store, LONG)?;
    let same = store.apply(odd, odd, &mut pairs)?;
    println!(rt;
        "paired with itself: {} nodes, {} pairs, leaves {:?}",
        store.len(),
        pairs.len(),
        store.leaves_in_order(same)?.slice()
    )?;
    Ok(())
}

/// A chain whose first variable is left out, and what it takes in another store.
fn collected_path(rt: &HostRuntime) -> Result<()> {
    let mut store = Store::new(rt.alloc(), ROOM);
    let mut sets = Sets::new(rt.alloc());
    let _sets = either_leaf(rt.alloc(), &mut store, &mut sets, LONG)?;
    println!(rt; "collected: {} nodes, {} sets", store.len(), sets.len())?;
    Ok(())
}

fn relabel_path(alloc: Global) -> Result<u64> {
    let mut store = Store::new(alloc, ROOM);
    let odd = parity(&mut store, LONG)?;
    let _renamed = store.relabel(odd, &[9, 7])?;
    Ok(store.len())
}

fn bring_path(alloc: Global) -> Result<u64> {
    let mut store = Store::new(alloc, ROOM);
    let mut other = Store::new(alloc, ROOM);
    let root = chain(&mut store, LONG)?;
    let map = identity(alloc, LONG)?;
    let _brought = other.bring(&store, root, map.slice())?;
    Ok(other.len())
}
