//! Diagrams that are built, and what stands at their leaves.
ghost use Rattle.std.specs.Prelude.{◌≡◌, ◌<◌, ℕ, [], ◌∷◌, length, slice_get, slice_index, Some, IfOk};
ghost use Rattle.ms_arena.specs.Diagram.{IsValid};
ghost use Rattle.ms_arena.specs.declared.node.Node.{Node};
ghost use Rattle.ms_diagram.specs.Relabel.{CoversLeaves};

use ms_arena::Ref;
use ms_diagram::{ListTable, Projected, Sets, Store};
use ms_list::{List, NoMemory, StepFault};
use std::alloc::Global;

/// How many nodes a store of long paths may hold.
pub const ROOM: u64 = 1_000_000;

/// Whether the number of ones among the first bits is odd.
pub fn parity(store: &mut Store, count: u32) -> Result<Ref, StepFault>
    requires { 0 < count }
    ensures valid { IfOk result (IsValid store.new.nodes) }
    ensures covered { IfOk result (CoversLeaves store.new.nodes (0 ∷ 0 ∷ [])) }
{
    let _ = store.len();
    let mut even = store.leaf(0);
    let mut odd = store.leaf(1);
    let mut var = count;
    while var > 1 {
        var -= 1;
        let next = store.mk(var, even, odd)?;
        odd = store.mk(var, odd, even)?;
        even = next;
    }
    store.mk(0, even, odd)
}

/// A chain of the variables below a count: 1 where each bit is 1.
pub fn chain(store: &mut Store, count: u32) -> Result<Ref, StepFault>
    requires { store.old.nodes ≡ [] }
    ensures valid { IfOk result (IsValid store.new.nodes) }
    ensures below { (place : ℕ) (node : Node) → slice_get store.new.nodes place ≡ Some node → node.var < count }
{
    let zero = store.leaf(0);
    let mut root = store.leaf(1);
    let mut var = count;
    while var > 0 {
        var -= 1;
        root = store.mk(var, zero, root)?;
    }
    Ok(root)
}

/// Each variable below a count in its own place.
pub fn identity(alloc: Global, count: u32) -> Result<List<u32>, NoMemory>
    ensures long { IfOk result (λ made. length made ≡ count) }
    ensures same { IfOk result (λ made. (var : ℕ) → var < count → slice_index made var ≡ var) }
{
    let mut made = List::new(alloc);
    let mut var = 0;
    while var < count {
        if made.push(var).is_err() {
            return Err(NoMemory);
        }
        var += 1;
    }
    Ok(made)
}

/// The sets of the leaves that a chain of the variables below a count has with either bit of the first one, in another store.
pub fn either_leaf(
    alloc: Global,
    other: &mut Store,
    sets: &mut Sets,
    count: u32,
) -> Result<Ref, StepFault>
    ensures { IfOk result (IsValid other.new.nodes) }
{
    let mut store = Store::new(alloc, ROOM);
    let root = chain(&mut store, count)?;
    let Ok(map) = identity(alloc, count) else {
        return Err(StepFault::Memory);
    };
    let view = Projected {
        store: &store,
        map: map.slice(),
        track: 0,
    };
    other.collect(&view, &[root], sets, &mut ListTable::new(alloc))
}

/// The leaf at bits that are given as a number, the bit of variable 0 lowest.
pub fn leaf_at(store: &Store, root: Ref, word: u32) -> u32
    requires { IsValid store.now.nodes root }
{
    let mut at = root;
    loop {
        match at {
            Ref::Leaf(value) => return value,
            Ref::Inner(place) => {
                let node = store.node(place);
                let one = node.var < 32 && (word >> node.var) % 2 == 1;
                at = if one { node.high } else { node.low };
            }
        }
    }
}
