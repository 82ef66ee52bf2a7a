ghost use Rattle.ms_build_source.specs.CallsOfSources.{source_calls};
ghost use Rattle.ms_lower.specs.Callees.{IsTablesOf};
ghost use Rattle.ms_names_rules.specs.Numbers.{IsWellNumbered};
ghost use Rattle.std.specs.Prelude.{◌≡◌, IfOk, length};

use ms_dag::Bodies;
use ms_list::{Boxed, NoMemory};
use ms_logic::Checked;
use ms_logic_core::Core;
use ms_lower::{Tables, lower_call};
use std::alloc::Global;

/// What the calls of a checked source stand for.
#[derive(Clone, Copy)]
pub struct SourceCalls<'a> {
    checked: &'a Checked,
    tables: Tables<'a>,
}

impl<'a> SourceCalls<'a> {
    /// The calls of a source.
    pub fn of(alloc: Global, checked: &'a Checked) -> Result<SourceCalls<'a>, NoMemory>
        ensures checked { IfOk result (λ calls. calls.checked.now ≡ checked.now) }
        ensures tables { IfOk result (λ calls. IsTablesOf checked.now calls.tables) }
    {
        let tables = Tables::of(alloc, checked)?;
        Ok(SourceCalls { checked, tables })
    }
}

impl Bodies for SourceCalls<'_> {
    ghost calls = { λ self. source_calls self.checked.now };

    ghost own_imports = { λ self. length self.checked.now.imports };

    ghost IsReady = { λ self. IsTablesOf self.checked.now self.tables × IsWellNumbered self.checked.now };

    fn is_import(&self, import: u32) -> bool {
        (import as usize) < self.checked.imports.len()
    }

    fn body(
        &self,
        _alloc: Global,
        import: u32,
        variables: &[u32],
    ) -> Result<Boxed<Core>, NoMemory> {
        let imports = self.checked.imports.len();
        lower_call(&self.tables, (import as usize - imports) as u32, variables)
    }
}
