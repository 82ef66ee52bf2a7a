ghost use Rattle.std.specs.Prelude.{All};
ghost use Rattle.ms_arena.specs.Diagram.{IsValid};
ghost use Rattle.ms_arena.specs.Target.{Extends};

use crate::list_table::ListTable;
use crate::pair_table::PairTable;
use crate::pairs::Pairs;
use crate::places::PlaceTable;
use crate::projected::Projected;
use crate::sets::Sets;
use crate::sides::Sides;
use crate::store::Store;
use ms_arena::Ref;
use ms_list::StepFault;

impl Store {
    ghost use Rattle.ms_diagram.specs.Across.{AreOn, HasLeavesAcross, LacksAcross, NumberAcross};
    ghost use Rattle.ms_diagram.specs.Apply.{HasLeaves, LacksPair, PairNumber};
    ghost use Rattle.ms_diagram.specs.Bring.{RenamedLeaf, Renames};
    ghost use Rattle.ms_diagram.specs.Collect.{HasLeafSet, LacksSet, SetNumber};
    ghost use Rattle.ms_diagram.specs.Growth.{Builds};
    ghost use Rattle.ms_diagram.specs.Numbering.{AddsOnly};
    ghost use Rattle.ms_diagram.specs.Projecting.{IsReadIn, KeepsOrder};
    ghost use Rattle.ms_diagram.specs.Relabel.{CoversLeaves, MappedLeaf};
    ghost use Rattle.ms_diagram.specs.Table.{AreBrought, AreCollected, ArePaired, ArePairedAcross, AreRelabelled};

    /// What `apply` gives, over what earlier calls have noted for these pairs.
    pub fn apply_with(
        &mut self,
        f: Ref,
        g: Ref,
        pairs: &mut Pairs,
        table: &mut PairTable,
    ) -> Result<Ref, StepFault>
        requires valid_f { IsValid self.old.nodes f }
        requires valid_g { IsValid self.old.nodes g }
        requires table { ArePaired self.old.nodes pairs.old table.old }
        ensures builds { Builds self.old self.new (PairNumber self.old.nodes pairs.new f g) (LacksPair self.old.nodes pairs.new f g) result }
        ensures pairs { Extends pairs.old pairs.new }
        ensures added { AddsOnly (HasLeaves self.old.nodes f g) pairs.old pairs.new }
        ensures table { ArePaired self.new.nodes pairs.new table.new }
    {
        // The lengths tell that the pairs are a numbering, and the nodes those of a store.
        let _ = pairs.len();
        let _ = self.len();
        self.apply_at(f, g, pairs, table)
    }

    /// What `apply_with` gives for two diagrams of other stores, none of whose nodes come into this one: the function that
    /// has at each bits the number of the pair of their leaves, over what earlier calls have noted for these stores. A pair
    /// that is new gets its number at first sight; no other gets one.
    pub fn apply_across(
        &mut self,
        sides: &Sides,
        roots: (Ref, Ref),
        pairs: &mut Pairs,
        table: &mut PairTable,
    ) -> Result<Ref, StepFault>
        requires on { AreOn sides.now roots }
        requires table { ArePairedAcross sides.now pairs.old self.old.nodes table.old }
        ensures builds { Builds self.old self.new (NumberAcross sides.now pairs.new roots) (LacksAcross sides.now pairs.new roots) result }
        ensures pairs { Extends pairs.old pairs.new }
        ensures added { AddsOnly (HasLeavesAcross sides.now roots) pairs.old pairs.new }
        ensures table { ArePairedAcross sides.now pairs.new self.new.nodes table.new }
    {
        // The lengths tell that the pairs are a numbering, and the nodes those of a store.
        let _ = pairs.len();
        let _ = self.len();
        self.cross(sides, roots, pairs, table)
    }

    /// The function that has at each bits the number of the set of the leaves that several diagrams of another store have there,
    /// for both bits of the track, over what earlier calls have noted for this store and these sets. None of its nodes come into
    /// this one. A set that is new gets its number at first sight; no other gets one.
    pub fn collect(
        &mut self,
        view: &Projected,
        roots: &[Ref],
        sets: &mut Sets,
        table: &mut ListTable,
    ) -> Result<Ref, StepFault>
        requires order { KeepsOrder view.now }
        requires read { All (IsReadIn view.now) roots.now }
        requires table { AreCollected view.now sets.old self.old.nodes table.old }
        ensures builds { Builds self.old self.new (SetNumber view.now sets.new roots.now) (LacksSet view.now sets.new roots.now) result }
        ensures sets { Extends sets.old sets.new }
        ensures added { AddsOnly (HasLeafSet view.now roots.now) sets.old sets.new }
        ensures table { AreCollected view.now sets.new self.new.nodes table.new }
    {
        // The lengths tell that the sets are a numbering, and the nodes those of a store.
        let _ = sets.len();
        let _ = self.len();
        let Ok(list) = Vec::from_slice(self.alloc, roots) else {
            return Err(StepFault::Memory);
        };
        self.collect_at(view, list, sets, table)
    }

    /// What `bring` gives, over what earlier calls have noted for this map.
    pub fn bring_with(
        &mut self,
        from: &Store,
        root: Ref,
        map: &[u32],
        table: &mut PlaceTable,
    ) -> Result<Ref, StepFault>
        requires valid { IsValid from.now.nodes root }
        requires renames { Renames from.now.nodes map.now root }
        requires table { AreBrought from.now.nodes map.now self.old.nodes table.old }
        ensures builds { Builds self.old self.new (RenamedLeaf from.now.nodes map.now root) ⊥ result }
        ensures table { AreBrought from.now.nodes map.now self.new.nodes table.new }
    {
        let _ = self.len();
        self.bring_at(from, root, map, table)
    }

    /// What `relabel` gives, over what earlier calls have noted for this map.
    pub fn relabel_with(
        &mut self,
        root: Ref,
        map: &[u32],
        table: &mut PlaceTable,
    ) -> Result<Ref, StepFault>
        requires valid { IsValid self.old.nodes root }
        requires covers { CoversLeaves self.old.nodes map.now root }
        requires table { AreRelabelled self.old.nodes map.now table.old }
        ensures builds { Builds self.old self.new (MappedLeaf self.old.nodes map.now root) ⊥ result }
        ensures table { AreRelabelled self.new.nodes map.now table.new }
    {
        let _ = self.len();
        self.relabel_at(root, map, table)
    }
}
