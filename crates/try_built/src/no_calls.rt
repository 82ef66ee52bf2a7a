use ms_dag::Bodies;
use ms_list::{Boxed, NoMemory, on_heap};
use ms_logic_core::Core;
use std::alloc::Global;

/// The calls of a source that has none: what would be called is true.
#[derive(Clone, Copy)]
pub struct NoCalls;

impl Bodies for NoCalls {
    ghost use Rattle.std.specs.Prelude.{ℕ};
    ghost use Rattle.try_built.specs.Inclusions.{true_calls};

    ghost calls = { λ self. true_calls };

    ghost own_imports = { λ self. 0 };

    ghost IsReady = { λ self. Unit {0} };

    fn is_import(&self, _import: u32) -> bool {
        false
    }

    fn body(
        &self,
        alloc: Global,
        _import: u32,
        _variables: &[u32],
    ) -> Result<Boxed<Core>, NoMemory> {
        on_heap(alloc, Core::True)
    }
}
