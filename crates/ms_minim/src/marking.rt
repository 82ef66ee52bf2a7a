ghost use Rattle.std.specs.Prelude.{◌≡◌, length, slice_get, Some, IfOk, OnOk};
ghost use Rattle.ms_arena.specs.Target.{Extends};
ghost use Rattle.ms_diagram.specs.Numbering.{IsNumbering, Numbers};
ghost use Rattle.ms_minim.specs.inner.Image.{AreImages};
ghost use Rattle.ms_minim.specs.inner.Partition.{AreMarks, AreSignMarks};
ghost use Rattle.ms_minim.specs.inner.Marks.{mark_of_sign, pair_of};
ghost use Rattle.ms_minim.specs.inner.Origin.{AreOrigins};

use crate::images::{Images, image};
use crate::origins::Origins;
use crate::reading::Reader;
use ms_arena::Ref;
use ms_diagram::Pairs;
use ms_list::{List, NoMemory, push};
use ms_logic_words::Sign;
use std::alloc::Global;

/// The number of a pair.
pub(crate) fn number(known: &mut Pairs, left: u32, right: u32) -> Result<u32, NoMemory>
    ensures number { IfOk result (λ number. slice_get known.new number ≡ Some (left, right)) }
    ensures numbers { OnOk result (Numbers known.old known.new (left, right)) }
    ensures numbering { IsNumbering known.new }
{
    if known.len() == u32::MAX {
        return Err(NoMemory);
    }
    known.number(left, right)
}

/// The number of a reference.
pub(crate) fn mark(known: &mut Pairs, reference: Ref) -> Result<u32, NoMemory>
    ensures number { IfOk result (λ number. slice_get known.new number ≡ Some (pair_of reference)) }
    ensures extends { OnOk result (Extends known.old known.new) }
    ensures numbering { IsNumbering known.new }
{
    match reference {
        Ref::Leaf(value) => number(known, 0, value),
        Ref::Inner(place) => number(known, 1, place),
    }
}

/// A number for each state: equal numbers where letters lead to equal classes.
pub(crate) fn marks(
    alloc: Global,
    automaton: &Reader,
    origins: &Origins,
    images: &Images,
    classes: &[u32],
) -> Result<List<u32>, NoMemory>
    requires origins { AreOrigins automaton.now origins.now }
    requires images { AreImages automaton.now.nodes classes.now origins.now.nodes.items images.now }
    requires classes { length classes.now ≡ length automaton.now.states }
    ensures { IfOk result (AreMarks automaton.now classes.now) }
{
    let mut known = Pairs::new(alloc);
    let mut made = List::new(alloc);
    // The length tells that these are a numbering.
    let _ = known.len();
    for state in 0..automaton.states() {
        let root = automaton.next_ref(state);
        let reference = image(&images.list, classes, root);
        let found = mark(&mut known, reference)?;
        push(&mut made, found)?;
    }
    Ok(made)
}

fn mark_of_sign(sign: Sign) -> u32
    ensures { result ≡ mark_of_sign sign }
{
    match sign {
        Sign::Yes => 0,
        Sign::No => 1,
        Sign::Undefined => 2,
        Sign::Outside => 3,
    }
}

/// A number for each state: equal numbers where the signs are equal.
pub(crate) fn sign_marks(alloc: Global, automaton: &Reader) -> Result<List<u32>, NoMemory>
    ensures { IfOk result (AreSignMarks automaton.now) }
{
    let mut made = List::new(alloc);
    for state in 0..automaton.states() {
        push(&mut made, mark_of_sign(automaton.sign(state)))?;
    }
    Ok(made)
}
