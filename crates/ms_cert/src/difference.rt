ghost use Rattle.std.specs.Prelude.{◌≡◌, ◌≢◌, ◌<◌, ◌≤◌, length, slice_set, IfNone, IfOk, IfSome};
ghost use Rattle.ms_arena.specs.Diagram.{IsValid, leaf_of};
ghost use Rattle.ms_arena.specs.Halves.{IsLeaf, half_of, level_of};
ghost use Rattle.ms_logic_words.specs.Content.{bits_at};
ghost use Rattle.ms_cert.specs.inner.Difference.{IsFirstTested, TestBelow};

use crate::levels::zeros;
use ms_arena::Ref;
use ms_diagram::Store;
use ms_list::NoMemory;
use std::alloc::Global;

/// Behind all variables.
const LEAF_LEVEL: u64 = 4_294_967_296;

/// The variable that a diagram tests first, or the level of a leaf.
fn level(store: &Store, reference: Ref) -> u64
    requires { IsValid store.now.nodes reference }
    ensures level { result ≡ level_of store.now.nodes reference }
    ensures leaf { result ≡ 4294967296 → IsLeaf reference }
    ensures most { result ≤ 4294967296 }
{
    match reference {
        Ref::Leaf(_) => LEAF_LEVEL,
        Ref::Inner(place) => u64::from(store.node(place).var),
    }
}

/// The first of the variables that two diagrams test.
fn first_of_both(store: &Store, one: Ref, other: Ref) -> Option<u32>
    requires one { IsValid store.now.nodes one }
    requires other { IsValid store.now.nodes other }
    ensures some { IfSome result (IsFirstTested store.now.nodes one other) }
    ensures none { IfNone result (IsLeaf one × IsLeaf other) }
{
    let one_level = level(store, one);
    let other_level = level(store, other);
    let first = one_level.min(other_level);
    if first == LEAF_LEVEL {
        None
    } else {
        Some(first as u32)
    }
}

/// What is left of a diagram where a variable has a bit.
fn half(store: &Store, reference: Ref, var: u32, bit: bool) -> Ref
    requires { IsValid store.now.nodes reference }
    ensures half { result ≡ half_of store.now.nodes var bit reference }
    ensures valid { IsValid store.now.nodes result }
{
    let Ref::Inner(place) = reference else {
        return reference;
    };
    let node = store.node(place);
    if node.var != var {
        return reference;
    }
    if bit { node.high } else { node.low }
}

/// The bit at a place is another one from now on.
fn put(bits: &mut Vec<bool>, place: u32, bit: bool)
    requires { place < length bits.old.items }
    ensures { bits.new.items ≡ slice_set bits.old.items place bit }
{
    bits[place as usize] = bit;
}

/// Bits that lead from two different references to different leaves.
pub(crate) fn bits_apart(
    alloc: Global,
    store: &Store,
    one: Ref,
    other: Ref,
    count: usize,
) -> Result<Vec<bool>, NoMemory>
    requires one { IsValid store.now.nodes one }
    requires other { IsValid store.now.nodes other }
    requires below { TestBelow store.now.nodes count }
    requires differ { one ≢ other }
    ensures long { IfOk result (λ made. length made.items ≡ count) }
    ensures apart { IfOk result (λ made. leaf_of store.now.nodes one (bits_at made.items) ≢ leaf_of store.now.nodes other (bits_at made.items)) }
{
    // The length tells that the nodes are those of a store.
    let _ = store.len();
    let mut bits = zeros(alloc, count)?;
    let mut first = one;
    let mut second = other;
    while let Some(var) = first_of_both(store, first, second) {
        let low_first = half(store, first, var, false);
        let low_second = half(store, second, var, false);
        let bit = store.same(low_first, low_second);
        put(&mut bits, var, bit);
        first = half(store, first, var, bit);
        second = half(store, second, var, bit);
    }
    Ok(bits)
}
