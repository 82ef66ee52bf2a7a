//! Arenas of many nodes.
use anyhow::{Result, bail};
use ms_arena::{Arena, Node, Ref};
use ms_list::let_go;
use std::io;

/// How many nodes are put into an arena.
const MANY: u32 = 200_000;

pub fn tell(rt: &HostRuntime) -> Result<()> {
    println!(rt; "An arena")?;
    let mut arena = Arena::new(rt.alloc());
    let told = tell_changes(rt, &mut arena);
    let_go(arena);
    told
}

/// What an arena has once it is filled, cleared, filled anew and copied.
fn tell_changes(rt: &HostRuntime, arena: &mut Arena) -> Result<()> {
    fill(arena)?;
    tell_places(rt, "", arena)?;
    arena.clear();
    tell_places(rt, "cleared: ", arena)?;
    fill(arena)?;
    tell_places(rt, "filled anew: ", arena)?;
    tell_copy(rt, arena)
}

fn tell_copy(rt: &HostRuntime, arena: &Arena) -> Result<()> {
    let copy = arena.copy()?;
    let told = tell_places(rt, "copied: ", &copy);
    let_go(copy);
    told?;
    Ok(())
}

fn tell_places(rt: &HostRuntime, change: &str, arena: &Arena) -> io::Result<()> {
    println!(rt;
        "{change}{} nodes, at their places: {}",
        arena.len(),
        at_places(arena)
    )
}

/// The node with this number.
fn node(number: u32) -> Node {
    Node {
        var: number % 7,
        low: Ref::Leaf(number),
        high: Ref::Inner(number / 2),
    }
}

/// Puts many nodes into an arena, each once.
fn fill(arena: &mut Arena) -> Result<()> {
    for number in 0..MANY {
        if arena.len() == u32::MAX {
            bail!("no room");
        }
        let node = node(number);
        if arena.find(node).is_none() {
            arena.reserve(1)?;
            let _place = arena.push(node);
        }
    }
    Ok(())
}

/// How many nodes are found at the place of their number.
fn at_places(arena: &Arena) -> u32 {
    let mut count = 0u32;
    for number in 0..MANY {
        if arena.find(node(number)) == Some(number) {
            count = count.saturating_add(1);
        }
    }
    count
}
