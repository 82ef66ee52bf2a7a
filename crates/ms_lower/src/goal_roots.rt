ghost use Rattle.ms_logic_core.specs.CoreForm.{core_form_of};
ghost use Rattle.ms_logic_core.specs.Spread.{own_names};
ghost use Rattle.ms_logic.specs.View.{formula_of};
ghost use Rattle.ms_lower.specs.Callees.{spread_in};
ghost use Rattle.ms_lower.specs.NumberedRoots.{main_over, renumbered_root, root_of};
ghost use Rattle.std.specs.Option.{is_some};
ghost use Rattle.std.specs.Prelude.{◌≡◌, [], ◌∷◌, filter, length, map, IfOk};

use crate::formulas::formula;
use crate::made::MadeList;
use crate::main_root::{global_restrictions, over_globals};
use crate::scope::Scope;
use crate::tables::Tables;
use ms_list::{List, NoMemory, push};
use ms_logic::{Formula, Global, Placed};
use ms_logic_core::{Core, Root};

// A formula alone.
fn one_formula(tables: &Tables, source: &Formula, free: u64) -> MadeList
    ensures { IfOk result (λ cores. map core_form_of cores ≡ spread_in tables.now (formula_of source.now) own_names free ∷ []) }
{
    let mut scope = Scope::new(tables.alloc);
    let mut cores = List::new(tables.alloc);
    let core = formula(tables, &mut scope, source, free)?;
    push(&mut cores, core.into_inner())?;
    Ok(cores)
}

// The root of a goal: its formula alone, under the restrictions of the globals.
fn goal_root(tables: &Tables, globals: &[Global], goal: &Placed) -> Result<Root, NoMemory>
    requires globals { length globals.now ≡ tables.now.globals }
    requires kept { tables.now.kept ≡ tables.now.globals }
    ensures { IfOk result (λ root. root_of root ≡ renumbered_root tables.now (main_over tables.now globals.now (goal.now ∷ []))) }
{
    let free = u64::from(tables.globals);
    let front = global_restrictions(tables, globals, free)?;
    let later = one_formula(tables, &goal.formula, free)?;
    over_globals(tables, front, later)
}

/// The roots of the goals, which have a title, in order.
pub fn goal_roots(
    tables: &Tables,
    globals: &[Global],
    formulas: &[Placed],
) -> Result<List<Root>, NoMemory>
    requires globals { length globals.now ≡ tables.now.globals }
    requires kept { tables.now.kept ≡ tables.now.globals }
    ensures { IfOk result (λ roots. map root_of roots ≡ map (renumbered_root tables.now)
        (map (λ goal. main_over tables.now globals.now (goal ∷ [])) (filter (λ placed. is_some placed.title) formulas.now))) }
{
    let mut roots = List::new(tables.alloc);
    for placed in formulas {
        if placed.title.is_some() {
            push(&mut roots, goal_root(tables, globals, placed)?)?;
        }
    }
    Ok(roots)
}
