//! The parity of 200 bits, paired with itself.
use crate::functions::parity;
use anyhow::Result;
use ms_diagram::{Pairs, Store};
use std::alloc::Global;
use std::io;

pub fn tell(rt: &HostRuntime) -> Result<()> {
    let (nodes, pairs) = pair_with_itself(rt.alloc())?;
    println!(rt; "the parity of 200 bits with itself: {nodes} nodes, {pairs} pairs")?;
    print_hits(rt, pair_again(rt.alloc())?)?;
    Ok(())
}

/// The parity of 200 bits needs 399 nodes, and with itself no more.
fn pair_with_itself(alloc: Global) -> Result<(u64, u32)> {
    let mut store = Store::new(alloc, 1000);
    let mut pairs = Pairs::new(alloc);
    let odd = parity(&mut store, 200)?;
    let _same = store.apply(odd, odd, &mut pairs)?;
    Ok((store.len(), pairs.len()))
}

/// The hits of the memo before a first pair, after it, after a second, and those of a copy. In the pair of the parity of 200
/// bits with itself, 396 of 795 pairs of nodes are seen again. A call knows nothing of the calls before it.
fn pair_again(alloc: Global) -> Result<[u64; 4]> {
    let mut store = Store::new(alloc, 1000);
    let mut pairs = Pairs::new(alloc);
    let odd = parity(&mut store, 200)?;
    let before = store.hits();
    let _same = store.apply(odd, odd, &mut pairs)?;
    let once = store.hits();
    let _same = store.apply(odd, odd, &mut pairs)?;
    Ok([before, once, store.hits(), store.copy()?.hits()])
}

fn print_hits(rt: &HostRuntime, hits: [u64; 4]) -> io::Result<()> {
    for hits in hits {
        println!(rt; "hits of the memo: {hits}")?;
    }
    Ok(())
}
