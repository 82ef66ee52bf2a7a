ghost use Rattle.ms_dag.specs.Imports.{ImportsBelow};
ghost use Rattle.ms_logic_core.specs.Calls.{Calls, filled};
ghost use Rattle.ms_logic_core.specs.CoreForm.{core_form_of, imported};
ghost use Rattle.std.specs.Prelude.{◌≡◌, ◌↔◌, ◌<◌, ◌≤◌, ℕ, List, IfOk, IsTrue};

use ms_list::{Boxed, NoMemory};
use ms_logic_core::Core;
use std::alloc::Global;

/// What the imports of core formulas stand for.
pub trait Bodies {
    /// What each import stands for, by its number and its variables.
    ghost calls: { Self → Calls };

    /// How many imports stand for themselves: those of the source, which come first.
    ghost own_imports: { Self → ℕ };

    /// What is known of it.
    ghost IsReady: { Self → Type 0 };

    /// Whether an import is one of the source, which stands for itself.
    fn is_import(&self, import: u32) -> bool
        ensures own { IsTrue result ↔ (import < own_imports self.now) }
        ensures itself { IsTrue result → (xs : List ℕ) → calls self.now import xs ≡ imported import xs };

    /// What another import stands for at these variables: a core formula, each import of which has a smaller number and stands for
    /// what it stands for.
    fn body(&self, alloc: Global, import: u32, variables: &[u32]) -> Result<Boxed<Core>, NoMemory>
        requires ready { IsReady self.now }
        requires call { own_imports self.now ≤ import }
        ensures stands { IfOk result (λ core. filled (calls self.now) (core_form_of core) ≡ calls self.now import variables.now) }
        ensures below { IfOk result (λ core. ImportsBelow import (core_form_of core)) };
}
