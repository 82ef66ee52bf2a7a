ghost use Rattle.ms_arena.specs.Diagram.{IsValid};

use crate::notes::Notes;
use crate::places::PlaceTable;
use crate::store::Store;
use crate::walk::{Visit, Walk};
use ms_arena::Ref;
use ms_list::StepFault;

// Nodes are read in another store, and their variables in a map.
#[derive(Drop)]
struct Bringing<'a> {
    from: &'a Store,
    map: &'a [u32],
}

impl Walk for Bringing<'_> {
    ghost use Rattle.ms_diagram.specs.inner.Bringing.{bringing, bringing_laws};

    type Item = Ref;

    type Key = u32;

    ghost rules = { bringing (λ s. s.from.now.nodes) (λ s. s.map.now) };

    ghost laws = { bringing_laws (λ s. s.from.now.nodes) (λ s. s.map.now) };

    fn visit<T: Notes<u32>>(
        &mut self,
        _store: &Store,
        item: Ref,
        notes: &mut T,
    ) -> Result<Visit<Ref, u32>, StepFault> {
        match item {
            Ref::Leaf(value) => Ok(Visit::Made(Ref::Leaf(value))),
            Ref::Inner(place) => {
                if let Some(made) = notes.ask(&place) {
                    return Ok(Visit::Made(made));
                }
                let node = self.from.node(place);
                Ok(Visit::Split {
                    key: place,
                    var: self.map[node.var as usize],
                    low: node.low,
                    high: node.high,
                })
            }
        }
    }
}

impl Store {
    ghost use Rattle.ms_diagram.specs.Bring.{IsBrought, RenamedLeaf, Renames};
    ghost use Rattle.ms_diagram.specs.Growth.{Builds};
    ghost use Rattle.ms_diagram.specs.Store.{IsStore};
    ghost use Rattle.ms_diagram.specs.Table.{EachEntry};

    /// The function that `root` has in another store, with variable `map[i]` read in place of variable `i`.
    pub fn bring(&mut self, from: &Store, root: Ref, map: &[u32]) -> Result<Ref, StepFault>
        requires valid { IsValid from.now.nodes root }
        requires renames { Renames from.now.nodes map.now root }
        ensures { Builds self.old self.new (RenamedLeaf from.now.nodes map.now root) ⊥ result }
    {
        let mut table = PlaceTable::new(self.alloc);
        self.bring_at(from, root, map, &mut table)
    }

    // The same for an end of `root`, over a table of what is done.
    pub(crate) fn bring_at(
        &mut self,
        from: &Store,
        root: Ref,
        map: &[u32],
        table: &mut PlaceTable,
    ) -> Result<Ref, StepFault>
        requires store { IsStore self.old.nodes self.old.limit }
        requires valid { IsValid from.now.nodes root }
        requires renames { Renames from.now.nodes map.now root }
        requires table { EachEntry (IsBrought from.now.nodes map.now self.old.nodes) table.old }
        ensures builds { Builds self.old self.new (RenamedLeaf from.now.nodes map.now root) ⊥ result }
        ensures table { EachEntry (IsBrought from.now.nodes map.now self.new.nodes) table.new }
    {
        let mut bringing = Bringing { from, map };
        self.walk(&mut bringing, root, table)
    }
}
