//! Which automata are kept, at a small graph, worked out by hand. Each function has an empty body, and its contract is the
//! table of its examples.

ghost use Rattle.std.specs.Prelude.{[], ◌∷◌};
ghost use Rattle.ms_dag.specs.inner.Examples.{chain};
ghost use Rattle.ms_build.specs.Built.{IsUsedFrom};
ghost use Rattle.ms_build.specs.inner.Examples.{between_alone};
ghost use Rattle.ms_build.specs.inner.Uses.{AreLastUses};

/// What is used from a number on. In x < y & y < z, node 0 is the child of node 1, and node 1 is the root's.
pub fn worked_uses()
    ensures child { IsUsedFrom chain between_alone 1 0 }
    ensures behind_its_last_use { ¬ IsUsedFrom chain between_alone 2 0 }
    ensures root { IsUsedFrom chain between_alone 2 1 }
    ensures no_node { ¬ IsUsedFrom chain between_alone 0 2 }
{}

/// The node that uses each for the last time, or none where it is used to the end.
pub fn worked_last_uses()
    ensures least { AreLastUses chain between_alone (1 ∷ 4294967295 ∷ []) }
    ensures later { AreLastUses chain between_alone (7 ∷ 4294967295 ∷ []) }
    ensures too_early { ¬ AreLastUses chain between_alone (0 ∷ 4294967295 ∷ []) }
    ensures root_let_go { ¬ AreLastUses chain between_alone (1 ∷ 1 ∷ []) }
    ensures too_short { ¬ AreLastUses chain between_alone (1 ∷ []) }
{}
