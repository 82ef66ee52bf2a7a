//! Answers on diagrams, at all bits of four variables.
use crate::functions::{either_leaf, leaf_at, parity};
use anyhow::Result;
use ms_diagram::{Pairs, Sets, Store};
use ms_list::List;
use std::alloc::Global;

pub fn tell(rt: &HostRuntime) -> Result<()> {
    print_right(rt, "pairs", right_pairs(rt.alloc())?)?;
    print_right(rt, "sets", right_sets(rt.alloc())?)?;
    leaves_at_bits(rt)
}

/// Prints at how many lists of bits the answer is right.
fn print_right(rt: &HostRuntime, what: &str, right: u32) -> Result<()> {
    println!(rt; "{what} at 16 lists of bits: {right} right")?;
    Ok(())
}

/// The pair of two leaves at all bits of four variables.
fn right_pairs(alloc: Global) -> Result<u32> {
    let mut store = Store::new(alloc, 100);
    let mut pairs = Pairs::new(alloc);
    let odd = parity(&mut store, 4)?;
    let zero = store.leaf(0);
    let one = store.leaf(1);
    let second = store.mk(1, zero, one)?;
    let both = store.apply(odd, second, &mut pairs)?;
    let mut right = 0u32;
    for word in 0..16u32 {
        let number = leaf_at(&store, both, word);
        let wanted = (word.count_ones() % 2, word / 2 % 2);
        if number < pairs.len() && pairs.get(number) == wanted {
            right = right.saturating_add(1);
        }
    }
    Ok(right)
}

/// The set of the leaves with either bit of a track, at all bits of four variables: both leaves of a chain of two variables
/// are met where the second bit is 1, and one where it is 0.
fn right_sets(alloc: Global) -> Result<u32> {
    let mut store = Store::new(alloc, 100);
    let mut sets = Sets::new(alloc);
    let either = either_leaf(alloc, &mut store, &mut sets, 2)?;
    let mut right = 0u32;
    for word in 0..16u32 {
        let number = leaf_at(&store, either, word);
        let wanted = 1 + (word / 2 % 2) as usize;
        if number < sets.len() && sets.get(number).len() == wanted {
            right = right.saturating_add(1);
        }
    }
    Ok(right)
}

/// Mapped leaves at all bits of four variables, and their order.
fn leaves_at_bits(rt: &HostRuntime) -> Result<()> {
    let (right, leaves) = map_leaves(rt.alloc())?;
    print_right(rt, "leaves", right)?;
    println!(rt; "leaves by first sight: {:?}", leaves.slice())?;
    Ok(())
}

/// At how many lists of bits the mapped leaf is right, and the mapped leaves by first sight.
fn map_leaves(alloc: Global) -> Result<(u32, List<u32>)> {
    let mut store = Store::new(alloc, 100);
    let odd = parity(&mut store, 4)?;
    let renamed = store.relabel(odd, &[9, 7])?;
    let mut right = 0u32;
    for word in 0..16u32 {
        if leaf_at(&store, renamed, word) == 9 - 2 * (word.count_ones() % 2) {
            right = right.saturating_add(1);
        }
    }
    Ok((right, store.leaves_in_order(renamed)?))
}
