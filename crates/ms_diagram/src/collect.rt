ghost use Rattle.std.specs.Prelude.{◌≡◌, ◌⊎◌, IfOk, All};
ghost use Rattle.ms_arena.specs.Halves.{IsLeaf};
ghost use Rattle.ms_arena.specs.Target.{Extends};

use crate::list_table::ListTable;
use crate::notes::Notes;
use crate::projected::Projected;
use crate::root_list::RootList;
use crate::roots::{are_leaves, leaf_set};
use crate::sets::Sets;
use crate::store::Store;
use crate::walk::{Visit, Walk};
use ms_arena::Ref;
use ms_list::StepFault;

// Sets of leaves of another store get numbers, and the bit of the track is read at 0 and at 1.
#[derive(Drop)]
struct Collecting<'a> {
    view: &'a Projected<'a>,
    sets: &'a mut Sets,
}

impl Walk for Collecting<'_> {
    ghost use Rattle.ms_diagram.specs.inner.Collecting.{collecting, collecting_laws};
    ghost use Rattle.ms_diagram.specs.inner.Equal.{same_roots};

    type Item = RootList;

    type Key = RootList;

    ghost rules = { collecting (λ s. s.view.now) (λ s. s.sets.now) (λ s. s.sets.ghost_name) (λ list. list) };

    ghost laws = { collecting_laws (λ s. s.view.now) (λ s. s.sets.now) (λ s. s.sets.ghost_name) (λ list. list) same_roots };

    fn visit<T: Notes<RootList>>(
        &mut self,
        store: &Store,
        item: RootList,
        notes: &mut T,
    ) -> Result<Visit<RootList, RootList>, StepFault> {
        let view = self.view;
        let from = view.store;
        // The length tells that the nodes are those of a store.
        let _ = from.len();
        let list = item.roots.as_slice();
        if are_leaves(list) {
            let made = store.set_leaf(list, self.sets)?;
            return Ok(Visit::Made(made));
        }
        // The notes are asked before the nodes are read, which lie anywhere.
        if let Some(made) = notes.ask(&item) {
            return Ok(Visit::Made(made));
        }
        let var = from.first_variable(list);
        if var == view.track {
            let Ok(both) = from.both_halves(list, var) else {
                return Err(StepFault::Memory);
            };
            return Ok(Visit::Instead(both));
        }
        let Ok((low, high)) = from.half_sets(list, var) else {
            return Err(StepFault::Memory);
        };
        Ok(Visit::Split {
            key: item,
            var: view.map[var as usize],
            low,
            high,
        })
    }
}

impl Store {
    ghost use Rattle.ms_diagram.specs.Collect.{HasLeafSet, IsSetNumbering, IsSetOf, IsSetLeaf, IsSetMissing, LacksSet, SetNumber, leaf_values};
    ghost use Rattle.ms_diagram.specs.Growth.{Builds, OnNodes};
    ghost use Rattle.ms_diagram.specs.Numbering.{AddsOnly};
    ghost use Rattle.ms_diagram.specs.Projecting.{IsReadIn, KeepsOrder};
    ghost use Rattle.ms_diagram.specs.Store.{IsStore};
    ghost use Rattle.ms_diagram.specs.Table.{AreCollected};

    // The function that has at each bits the number of the set of the leaves that the roots have there, for both bits of the
    // track, over a table of what is done.
    pub(crate) fn collect_at(
        &mut self,
        view: &Projected,
        roots: Vec<Ref>,
        sets: &mut Sets,
        table: &mut ListTable,
    ) -> Result<Ref, StepFault>
        requires store { IsStore self.old.nodes self.old.limit }
        requires numbering { IsSetNumbering sets.old }
        requires order { KeepsOrder view.now }
        requires read { All (IsReadIn view.now) roots.items }
        requires table { AreCollected view.now sets.old self.old.nodes table.old }
        ensures builds { Builds self.old self.new (SetNumber view.now sets.new roots.items) (LacksSet view.now sets.new roots.items) result }
        ensures sets { Extends sets.old sets.new }
        ensures added { AddsOnly (HasLeafSet view.now roots.items) sets.old sets.new }
        ensures table { AreCollected view.now sets.new self.new.nodes table.new }
    {
        let mut collecting = Collecting { view, sets };
        self.walk(&mut collecting, RootList::new(roots), table)
    }

    // The leaf with the number of the set of the leaves among the roots.
    #[inline(never)]
    fn set_leaf(&self, roots: &[Ref], sets: &mut Sets) -> Result<Ref, StepFault>
        ensures made { IfOk result (IsSetLeaf sets.new (leaf_values roots.now)) }
        ensures sets { Extends sets.old sets.new }
        ensures added { AddsOnly (IsSetOf (leaf_values roots.now)) sets.old sets.new }
        ensures numbering { IsSetNumbering sets.new }
        ensures nodes { OnNodes result (λ limit. (limit ≡ self.now.limit) × IsSetMissing sets.new (leaf_values roots.now)) }
    {
        let _ = sets.len();
        let Ok(set) = leaf_set(self.alloc, roots) else {
            return Err(StepFault::Memory);
        };
        if sets.len() == u32::MAX {
            let Some(number) = sets.find(set.as_slice()) else {
                return Err(StepFault::Nodes {
                    limit: self.limit(),
                });
            };
            return Ok(Ref::Leaf(number));
        }
        let Ok(number) = sets.number(set) else {
            return Err(StepFault::Memory);
        };
        Ok(Ref::Leaf(number))
    }
}
