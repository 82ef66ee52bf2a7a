//! How many starts lead apart that a store of diagrams needs. Each function has an empty body, and its contract states its law.

ghost use Rattle.ms_arena.specs.declared.node.Ref.{Ref};
ghost use Rattle.ms_arena.specs.Diagram.{Bits};
ghost use Rattle.ms_logic_starts.specs.NeededApart.{NeededLeadApart, NeededLeaveApart};
ghost use Rattle.std.specs.Prelude.{ℕ};

use crate::counts::Items;

/// Starts that lead to references. Two are alike where they lead to the same.
pub trait Leading: Items {
    /// Which reference a start leads to.
    ghost LeadsTo: { Self → Ref → Type 0 };
}

/// Starts that leave functions from bits to numbers.
pub trait Leaving {
    /// Which starts there are.
    ghost IsStart: { Self → Type 0 };

    /// What a start leaves.
    ghost leaves: { Self → Bits → ℕ };
}

/// As many starts lead apart as a reduced store has new nodes, and numbers at leaves, to each of which some start leads.
pub fn law_of_needed<T: Leading>()
    ensures apart { NeededLeadApart T.Items.IsItem T.Items.AreAlike T.LeadsTo }
{}

/// As many leave different functions, where each of these has the function that some start leaves.
pub fn law_of_left<T: Leaving>()
    ensures apart { NeededLeaveApart T.leaves T.IsStart }
{}
