ghost use Rattle.std.specs.Prelude.{◌≡◌, ◌⊎◌, length, IfOk};
ghost use Rattle.ms_arena.specs.Diagram.{IsValid};
ghost use Rattle.ms_arena.specs.Target.{Extends};
ghost use Rattle.ms_arena.specs.Halves.{IsInner};

use crate::notes::Notes;
use crate::pairs::Pairs;
use crate::store::Store;
use crate::walk::{Visit, Walk};
use ms_arena::Ref;
use ms_list::StepFault;

// Two diagrams at one place: two leaves, or the first variable of the two with their halves.
#[derive(Clone, Copy)]
pub(crate) enum PairSplit {
    Leaves(u32, u32),
    Branch {
        var: u32,
        low: (Ref, Ref),
        high: (Ref, Ref),
    },
}

impl Walk for Pairs {
    ghost use Rattle.ms_diagram.specs.inner.Applying.{applying, applying_laws};

    type Item = (Ref, Ref);

    type Key = (Ref, Ref);

    ghost rules = { applying };

    ghost laws = { applying_laws };

    fn visit<T: Notes<(Ref, Ref)>>(
        &mut self,
        store: &Store,
        item: (Ref, Ref),
        notes: &mut T,
    ) -> Result<Visit<(Ref, Ref), (Ref, Ref)>, StepFault> {
        match store.split_pair(item.0, item.1) {
            PairSplit::Leaves(left, right) => {
                let made = store.pair_leaf(left, right, self)?;
                Ok(Visit::Made(made))
            }
            PairSplit::Branch { var, low, high } => {
                if let Some(made) = notes.ask(&item) {
                    return Ok(Visit::Made(made));
                }
                Ok(Visit::Split {
                    key: item,
                    var,
                    low,
                    high,
                })
            }
        }
    }
}

impl Store {
    ghost use Rattle.ms_diagram.specs.Apply.{HasLeaves, IsPaired, IsPairSplit, LacksPair, PairNumber};
    ghost use Rattle.ms_diagram.specs.Growth.{Builds, OnNodes};
    ghost use Rattle.ms_diagram.specs.Numbering.{AddsOnly, IsLeafOf, IsMissing, IsNumbering};
    ghost use Rattle.ms_diagram.specs.Store.{IsStore};
    ghost use Rattle.ms_diagram.specs.Table.{EachEntry};

    /// The function that has at each bits the number of the pair of the leaves of `f` and `g`. A pair that is new
    /// gets its number at first sight; no other gets one.
    pub fn apply(&mut self, f: Ref, g: Ref, pairs: &mut Pairs) -> Result<Ref, StepFault>
        requires valid_f { IsValid self.old.nodes f }
        requires valid_g { IsValid self.old.nodes g }
        ensures builds { Builds self.old self.new (PairNumber self.old.nodes pairs.new f g) (LacksPair self.old.nodes pairs.new f g) result }
        ensures pairs { Extends pairs.old pairs.new }
        ensures added { AddsOnly (HasLeaves self.old.nodes f g) pairs.old pairs.new }
    {
        // The lengths tell that the pairs are a numbering, and the nodes those of a store.
        let _ = pairs.len();
        let _ = self.len();
        let Ok(mut memo) = self.take_memo() else {
            return Err(StepFault::Memory);
        };
        let made = self.apply_at(f, g, pairs, &mut memo);
        self.put_memo(memo);
        made
    }

    // The same over notes of what is done.
    pub(crate) fn apply_at<T: Notes<(Ref, Ref)>>(
        &mut self,
        f: Ref,
        g: Ref,
        pairs: &mut Pairs,
        notes: &mut T,
    ) -> Result<Ref, StepFault>
        requires store { IsStore self.old.nodes self.old.limit }
        requires numbering { IsNumbering pairs.old }
        requires valid_f { IsValid self.old.nodes f }
        requires valid_g { IsValid self.old.nodes g }
        requires table { EachEntry (IsPaired self.old.nodes pairs.old) (T.entries notes.old) }
        ensures builds { Builds self.old self.new (PairNumber self.old.nodes pairs.new f g) (LacksPair self.old.nodes pairs.new f g) result }
        ensures pairs { Extends pairs.old pairs.new }
        ensures added { AddsOnly (HasLeaves self.old.nodes f g) pairs.old pairs.new }
        ensures numbering { IsNumbering pairs.new }
        ensures table { EachEntry (IsPaired self.new.nodes pairs.new) (T.entries notes.new) }
    {
        self.walk(pairs, (f, g), notes)
    }

    // The leaf with the number of the pair.
    pub(crate) fn pair_leaf(
        &self,
        left: u32,
        right: u32,
        pairs: &mut Pairs,
    ) -> Result<Ref, StepFault>
        ensures made { IfOk result (IsLeafOf pairs.new (left, right)) }
        ensures pairs { Extends pairs.old pairs.new }
        ensures added { AddsOnly (λ pair. pair ≡ (left, right)) pairs.old pairs.new }
        ensures numbering { IsNumbering pairs.new }
        ensures nodes { OnNodes result (λ limit. (limit ≡ self.now.limit)
            × (length pairs.new ≡ 4294967295) × IsMissing pairs.new (left, right)) }
    {
        if pairs.len() == u32::MAX {
            let Some(number) = pairs.find(left, right) else {
                return Err(StepFault::Nodes {
                    limit: self.limit(),
                });
            };
            return Ok(Ref::Leaf(number));
        }
        let Ok(number) = pairs.number(left, right) else {
            return Err(StepFault::Memory);
        };
        Ok(Ref::Leaf(number))
    }

    fn split_pair(&self, f: Ref, g: Ref) -> PairSplit
        requires valid_f { IsValid self.now.nodes f }
        requires valid_g { IsValid self.now.nodes g }
        ensures { IsPairSplit self.now.nodes f g result }
    {
        match (f, g) {
            (Ref::Leaf(left), Ref::Leaf(right)) => PairSplit::Leaves(left, right),
            (Ref::Inner(_), _) => self.branch_pair(f, g),
            (_, Ref::Inner(_)) => self.branch_pair(f, g),
        }
    }

    fn branch_pair(&self, f: Ref, g: Ref) -> PairSplit
        requires valid_f { IsValid self.now.nodes f }
        requires valid_g { IsValid self.now.nodes g }
        requires inner { IsInner f ⊎ IsInner g }
        ensures { IsPairSplit self.now.nodes f g result }
    {
        let var = self.level(f).min(self.level(g)) as u32;
        let (low_f, high_f) = self.halves(f, var);
        let (low_g, high_g) = self.halves(g, var);
        PairSplit::Branch {
            var,
            low: (low_f, low_g),
            high: (high_f, high_g),
        }
    }
}
