ghost use Rattle.ms_logic_core.specs.CoreForm.{core_form_of};
ghost use Rattle.ms_logic_core.specs.Spread.{restriction_before};
ghost use Rattle.ms_logic.specs.View.{formula_of, restriction};
ghost use Rattle.ms_lower.specs.Callees.{callees_in};
ghost use Rattle.ms_lower.specs.Numbering.{numbering_of, renumbered};
ghost use Rattle.ms_lower.specs.inner.Scope.{names_in};
ghost use Rattle.std.specs.Option.{option_map};
ghost use Rattle.std.specs.Prelude.{◌≡◌, ◌++◌, [], map, OnOk};

use crate::formulas::formula;
use crate::relations::restricted;
use crate::scope::Scope;
use crate::tables::Tables;
use ms_list::{List, NoMemory, push};
use ms_logic::Formula;
use ms_logic_core::Core;

/// Appends `restrict` of a restriction, where there is one.
pub fn push_restriction(
    tables: &Tables,
    scope: &mut Scope,
    cores: &mut List<Core>,
    domain: &Option<Formula>,
    free: u64,
) -> Result<(), NoMemory>
    ensures cores { OnOk result (map core_form_of cores.new ≡ map core_form_of cores.old ++ map (renumbered (numbering_of tables.now))
        (restriction_before (callees_in tables.now) (restriction (option_map formula_of domain.now)) (names_in scope.old) free [])) }
    ensures scope { OnOk result (scope.new ≡ scope.old) }
{
    match domain {
        None => Ok(()),
        Some(domain) => {
            let core = formula(tables, scope, domain, free)?;
            push(cores, restricted(tables.alloc, core)?.into_inner())?;
            Ok(())
        }
    }
}
