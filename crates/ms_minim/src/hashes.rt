ghost use Rattle.std.specs.Prelude.{◌≡◌, ◌≤◌, length, IfOk};
ghost use Rattle.ms_minim.specs.inner.Hash.{AreCoarseMarks, AreHashes, hash_of, joined};
ghost use Rattle.ms_minim.specs.inner.Partition.{IsPartition};

use crate::classes::Partition;
use crate::images::class_of;
use crate::reading::Reader;
use crate::splitting::split;
use ms_arena::Ref;
use ms_diagram::{Store, scatter};
use ms_list::{List, NoMemory, push};
use std::alloc::Global;

const TWO_TO_32: u64 = 0x1_0000_0000;

/// The hash of a node by those of its ends: theirs where they are equal, so that a variable that makes no difference is not seen.
fn joined(var: u32, low: u32, high: u32) -> u32
    ensures { result ≡ joined var low high }
{
    if low == high {
        return low;
    }
    let ends = scatter(TWO_TO_32 * u64::from(low) + u64::from(high));
    scatter(TWO_TO_32 * u64::from(var) + ends) as u32
}

/// The hash of a reference, by those of the nodes: that of a leaf is the class of its state.
fn hash_of(classes: &[u32], hashes: &[u32], reference: Ref) -> u32
    ensures { result ≡ hash_of classes.now hashes.now reference }
{
    match reference {
        Ref::Leaf(state) => class_of(classes, state),
        Ref::Inner(place) => class_of(hashes, place),
    }
}

/// The hashes of all nodes of a store whose leaves are states of these classes.
fn hashes(alloc: Global, store: &Store, classes: &[u32]) -> Result<List<u32>, NoMemory>
    ensures { IfOk result (AreHashes store.now.nodes classes.now) }
{
    let mut made = List::new(alloc);
    for place in 0..store.len() {
        let node = store.node(place as u32);
        let low = hash_of(classes, made.slice(), node.low);
        let high = hash_of(classes, made.slice(), node.high);
        push(&mut made, joined(node.var, low, high))?;
    }
    Ok(made)
}

/// The hash of where each state leads.
fn hash_marks(
    alloc: Global,
    automaton: &Reader,
    classes: &[u32],
    hashes: &[u32],
) -> Result<List<u32>, NoMemory>
    requires { AreHashes automaton.now.nodes classes.now hashes.now }
    ensures { IfOk result (AreCoarseMarks automaton.now classes.now) }
{
    let mut made = List::new(alloc);
    for state in 0..automaton.states() {
        push(
            &mut made,
            hash_of(classes, hashes, automaton.next_ref(state)),
        )?;
    }
    Ok(made)
}

/// The classes, split where hashes tell that letters lead elsewhere. Some that would be split by where letters lead may be left.
pub(crate) fn split_by_hashes(
    alloc: Global,
    automaton: &Reader,
    partition: &Partition,
) -> Result<Partition, NoMemory>
    requires partition { IsPartition automaton.now partition.now.classes partition.now.members }
    ensures partition { IfOk result (λ made. IsPartition automaton.now made.classes made.members) }
    ensures more { IfOk result (λ made. length partition.now.members ≤ length made.members) }
{
    // The states tell that it is an automaton.
    let _ = automaton.states();
    let classes = partition.classes.slice();
    let hashes = hashes(alloc, automaton.store(), classes)?;
    let marks = hash_marks(alloc, automaton, classes, hashes.slice())?;
    let finer = split(alloc, partition, marks.slice())?;
    Ok(finer)
}
