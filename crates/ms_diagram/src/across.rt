ghost use Rattle.std.specs.Prelude.{◌≡◌, ◌<◌, ◌≤◌, ◌⊎◌, ℕ, slice_index, true, false, MatchOption};
ghost use Rattle.ms_arena.specs.declared.node.Ref.TheVariants.{Leaf};
ghost use Rattle.ms_arena.specs.Diagram.{IsOrdered};
ghost use Rattle.ms_arena.specs.Halves.{IsInner};
ghost use Rattle.ms_arena.specs.Reach.{IsTested};
ghost use Rattle.ms_arena.specs.Target.{Extends};
ghost use Rattle.ms_diagram.specs.Across.{IsHalf, IsOn};

use crate::halves::LEAF_LEVEL;
use crate::notes::Notes;
use crate::pairs::Pairs;
use crate::sides::{Renamed, Sides};
use crate::store::Store;
use crate::walk::{Visit, Walk};
use ms_arena::Ref;
use ms_list::StepFault;

impl Renamed<'_> {
    // The variable that is read for the one that the diagram tests first, or the level of a leaf.
    fn level(&self, reference: Ref) -> u64
        requires { IsOn self.now reference }
        ensures least { (tested : ℕ) → IsTested self.now.nodes reference tested → result ≤ slice_index self.now.map tested }
        ensures inner { IsInner reference → result < 4294967296 }
        ensures most { result ≤ 4294967296 }
    {
        match reference {
            Ref::Leaf(_) => LEAF_LEVEL,
            Ref::Inner(place) => u64::from(self.map[self.store.node(place).var as usize]),
        }
    }

    // What is left of the diagram where the bit of the variable is 0, and where it is 1.
    fn halves(&self, reference: Ref, var: u32) -> (Ref, Ref)
        requires on { IsOn self.now reference }
        requires from { (tested : ℕ) → IsTested self.now.nodes reference tested → var ≤ slice_index self.now.map tested }
        ensures low { IsHalf self.now var false reference result.0 }
        ensures high { IsHalf self.now var true reference result.1 }
        ensures ordered { IsOrdered self.now.nodes }
    {
        // The length tells that the nodes are those of a store.
        let _ = self.store.len();
        let Ref::Inner(place) = reference else {
            return (reference, reference);
        };
        let node = self.store.node(place);
        if self.map[node.var as usize] == var {
            (node.low, node.high)
        } else {
            (reference, reference)
        }
    }
}

// The first variable of two diagrams, with the halves of both.
#[derive(Clone, Copy)]
struct Branch {
    var: u32,
    low: (Ref, Ref),
    high: (Ref, Ref),
}

// The numbers of two leaves.
fn two_leaves(item: (Ref, Ref)) -> Option<(u32, u32)>
    ensures { MatchOption result (IsInner item.0 ⊎ IsInner item.1) (λ leaves. (item.0 ≡ Leaf leaves.0) × (item.1 ≡ Leaf leaves.1)) }
{
    match item {
        (Ref::Leaf(left), Ref::Leaf(right)) => Some((left, right)),
        (Ref::Inner(_), _) => None,
        (_, Ref::Inner(_)) => None,
    }
}

impl Sides<'_> {
    ghost use Rattle.ms_diagram.specs.Across.{AreOn, IsBranchAcross};

    // Two diagrams that are not both leaves, at the first variable of the two.
    fn branch(&self, f: Ref, g: Ref) -> Branch
        requires on { AreOn self.now (f, g) }
        requires inner { IsInner f ⊎ IsInner g }
        ensures { IsBranchAcross self.now (f, g) result.var result.low result.high }
    {
        let var = self.left.level(f).min(self.right.level(g)) as u32;
        let (low_f, high_f) = self.left.halves(f, var);
        let (low_g, high_g) = self.right.halves(g, var);
        Branch {
            var,
            low: (low_f, low_g),
            high: (high_f, high_g),
        }
    }
}

// Pairs of leaves of two stores get numbers.
#[derive(Drop)]
struct Crossing<'a> {
    sides: &'a Sides<'a>,
    pairs: &'a mut Pairs,
}

impl Walk for Crossing<'_> {
    ghost use Rattle.ms_diagram.specs.inner.Crossing.{crossing, crossing_laws};

    type Item = (Ref, Ref);

    type Key = (Ref, Ref);

    ghost rules = { crossing (λ s. s.sides.now) (λ s. s.pairs.now) (λ s. s.pairs.ghost_name) };

    ghost laws = { crossing_laws (λ s. s.sides.now) (λ s. s.pairs.now) (λ s. s.pairs.ghost_name) };

    fn visit<T: Notes<(Ref, Ref)>>(
        &mut self,
        store: &Store,
        item: (Ref, Ref),
        notes: &mut T,
    ) -> Result<Visit<(Ref, Ref), (Ref, Ref)>, StepFault> {
        if let Some((left, right)) = two_leaves(item) {
            let made = store.pair_leaf(left, right, self.pairs)?;
            return Ok(Visit::Made(made));
        }
        // The notes are asked before the nodes are read, which lie anywhere.
        if let Some(made) = notes.ask(&item) {
            return Ok(Visit::Made(made));
        }
        let Branch { var, low, high } = self.sides.branch(item.0, item.1);
        Ok(Visit::Split {
            key: item,
            var,
            low,
            high,
        })
    }
}

impl Store {
    ghost use Rattle.ms_diagram.specs.Across.{AreOn, HasLeavesAcross, IsPairedAcross, LacksAcross, NumberAcross};
    ghost use Rattle.ms_diagram.specs.Growth.{Builds};
    ghost use Rattle.ms_diagram.specs.Numbering.{AddsOnly, IsNumbering};
    ghost use Rattle.ms_diagram.specs.Store.{IsStore};
    ghost use Rattle.ms_diagram.specs.Table.{EachEntry};

    // The function that has at each bits the number of the pair of the leaves of two diagrams of other stores, over notes of
    // what is done.
    pub(crate) fn cross<T: Notes<(Ref, Ref)>>(
        &mut self,
        sides: &Sides,
        roots: (Ref, Ref),
        pairs: &mut Pairs,
        notes: &mut T,
    ) -> Result<Ref, StepFault>
        requires store { IsStore self.old.nodes self.old.limit }
        requires numbering { IsNumbering pairs.old }
        requires on { AreOn sides.now roots }
        requires table { EachEntry (IsPairedAcross sides.now pairs.old self.old.nodes) (T.entries notes.old) }
        ensures builds { Builds self.old self.new (NumberAcross sides.now pairs.new roots) (LacksAcross sides.now pairs.new roots) result }
        ensures pairs { Extends pairs.old pairs.new }
        ensures added { AddsOnly (HasLeavesAcross sides.now roots) pairs.old pairs.new }
        ensures table { EachEntry (IsPairedAcross sides.now pairs.new self.new.nodes) (T.entries notes.new) }
    {
        let mut crossing = Crossing { sides, pairs };
        self.walk(&mut crossing, roots, notes)
    }
}
