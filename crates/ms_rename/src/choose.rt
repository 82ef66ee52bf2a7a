ghost use Rattle.std.specs.Prelude.{◌≡◌, if◌then◌else◌, map, IfOk, IsTrue};
ghost use Rattle.ms_arena.specs.Diagram.{Bits, IsValid, TestsAbove, leaf_of};
ghost use Rattle.ms_arena.specs.Target.{Extends};
ghost use Rattle.ms_diagram.specs.Store.{IsStore};
ghost use Rattle.ms_rename.specs.inner.Choice.{choice_of};

use ms_arena::Ref;
use ms_diagram::{PairTable, Pairs, Store};
use ms_list::{List, NoMemory, StepFault, push};
use std::alloc::Global;

/// The end that a bit chooses of the two that have a number.
fn choice(ends: &Pairs, bit: u32, number: u32) -> u32
    ensures { result ≡ choice_of ends.now (bit, number) }
{
    if number >= ends.len() {
        return 0;
    }
    let (low, high) = ends.get(number);
    if bit == 0 { low } else { high }
}

/// For each pair of a bit and of the number of two ends, the end that is chosen.
fn choices(alloc: Global, pairs: &Pairs, ends: &Pairs) -> Result<List<u32>, NoMemory>
    ensures { IfOk result (λ made. made ≡ map (choice_of ends.now) pairs.now) }
{
    let mut made = List::new(alloc);
    for number in 0..pairs.len() {
        let (bit, end) = pairs.get(number);
        push(&mut made, choice(ends, bit, end))?;
    }
    Ok(made)
}

/// Whether a reference tests only variables above this one.
fn tests_above(store: &Store, var: u32, reference: Ref) -> bool
    requires { IsValid store.now.nodes reference }
    ensures { IsTrue result → TestsAbove store.now.nodes var reference }
{
    match reference {
        Ref::Leaf(_) => true,
        Ref::Inner(place) => var < store.node(place).var,
    }
}

/// The function that is `low` where the bit of the variable is 0, and `high` where it is 1. These may test any variables: where
/// they test only later ones it is one node, else it is built of the pairs of what the three come to.
pub(crate) fn choose(
    alloc: Global,
    store: &mut Store,
    var: u32,
    low: Ref,
    high: Ref,
) -> Result<Ref, StepFault>
    requires valid_low { IsValid store.old.nodes low }
    requires valid_high { IsValid store.old.nodes high }
    ensures extends { Extends store.old.nodes store.new.nodes }
    ensures store { IsStore store.new.nodes store.new.limit }
    ensures valid { IfOk result (IsValid store.new.nodes) }
    ensures function { IfOk result (λ made. (bits : Bits) → leaf_of store.new.nodes made bits
        ≡ (if bits var then leaf_of store.old.nodes high bits else leaf_of store.old.nodes low bits)) }
{
    if tests_above(store, var, low) && tests_above(store, var, high) {
        return store.mk(var, low, high);
    }
    let test = match store.mk(var, Ref::Leaf(0), Ref::Leaf(1)) {
        Ok(test) => test,
        Err(fault) => return Err(fault),
    };
    let mut ends = Pairs::new(alloc);
    let mut table = PairTable::new(alloc);
    let both = match store.apply_with(low, high, &mut ends, &mut table) {
        Ok(both) => both,
        Err(fault) => return Err(fault),
    };
    let mut pairs = Pairs::new(alloc);
    let mut table = PairTable::new(alloc);
    let which = match store.apply_with(test, both, &mut pairs, &mut table) {
        Ok(which) => which,
        Err(fault) => return Err(fault),
    };
    let map = match choices(alloc, &pairs, &ends) {
        Ok(map) => map,
        Err(_) => return Err(StepFault::Memory),
    };
    store.relabel(which, map.slice())
}
