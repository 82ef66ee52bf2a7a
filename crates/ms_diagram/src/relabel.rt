ghost use Rattle.std.specs.Prelude.{IfOk};
ghost use Rattle.ms_arena.specs.Diagram.{IsValid};

use crate::notes::Notes;
use crate::places::PlaceTable;
use crate::store::Store;
use crate::walk::{Visit, Walk};
use ms_arena::Ref;
use ms_list::StepFault;

// Leaves are read in a map.
#[derive(Drop)]
struct Relabelling<'a> {
    map: &'a [u32],
}

impl Walk for Relabelling<'_> {
    ghost use Rattle.ms_diagram.specs.inner.Relabelling.{relabelling, relabelling_laws};

    type Item = Ref;

    type Key = u32;

    ghost rules = { relabelling (λ s. s.map.now) };

    ghost laws = { relabelling_laws (λ s. s.map.now) };

    fn visit<T: Notes<u32>>(
        &mut self,
        store: &Store,
        item: Ref,
        notes: &mut T,
    ) -> Result<Visit<Ref, u32>, StepFault> {
        match item {
            Ref::Leaf(value) => Ok(Visit::Made(Ref::Leaf(self.map[value as usize]))),
            Ref::Inner(place) => {
                if let Some(made) = notes.ask(&place) {
                    return Ok(Visit::Made(made));
                }
                let node = store.node(place);
                Ok(Visit::Split {
                    key: place,
                    var: node.var,
                    low: node.low,
                    high: node.high,
                })
            }
        }
    }
}

impl Store {
    ghost use Rattle.ms_diagram.specs.Growth.{Builds};
    ghost use Rattle.ms_diagram.specs.Relabel.{CoversLeaves, IsRelabelled, MappedLeaf};
    ghost use Rattle.ms_diagram.specs.Store.{IsStore};
    ghost use Rattle.ms_diagram.specs.Table.{EachEntry};

    /// The function that has at each bits what the map has for the leaf of `root`.
    pub fn relabel(&mut self, root: Ref, map: &[u32]) -> Result<Ref, StepFault>
        requires valid { IsValid self.old.nodes root }
        requires covers { CoversLeaves self.old.nodes map.now root }
        ensures { Builds self.old self.new (MappedLeaf self.old.nodes map.now root) ⊥ result }
    {
        let mut table = PlaceTable::new(self.alloc);
        self.relabel_at(root, map, &mut table)
    }

    // The same for an end of `root`, over a table of what is done.
    pub(crate) fn relabel_at(
        &mut self,
        root: Ref,
        map: &[u32],
        table: &mut PlaceTable,
    ) -> Result<Ref, StepFault>
        requires store { IsStore self.old.nodes self.old.limit }
        requires valid { IsValid self.old.nodes root }
        requires covers { CoversLeaves self.old.nodes map.now root }
        requires table { EachEntry (IsRelabelled self.old.nodes map.now) table.old }
        ensures builds { Builds self.old self.new (MappedLeaf self.old.nodes map.now root) ⊥ result }
        ensures table { EachEntry (IsRelabelled self.new.nodes map.now) table.new }
    {
        let mut relabelling = Relabelling { map };
        self.walk(&mut relabelling, root, table)
    }
}
