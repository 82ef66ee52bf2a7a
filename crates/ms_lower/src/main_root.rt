ghost use Rattle.ms_logic_core.specs.CoreForm.{core_form_of};
ghost use Rattle.ms_logic_core.specs.Spread.{own_names, restrictions_of, spread_each};
ghost use Rattle.ms_logic.specs.View.{formula_of, forms, globals_from};
ghost use Rattle.ms_lower.specs.Callees.{callees_in};
ghost use Rattle.ms_lower.specs.NumberedRoots.{main_over, renumbered_root, root_of, root_of_forms};
ghost use Rattle.ms_lower.specs.Numbering.{numbering_of, renumbered};
ghost use Rattle.std.specs.List.{range_with_len};
ghost use Rattle.std.specs.Option.{is_none};
ghost use Rattle.std.specs.Prelude.{◌≡◌, ◌++◌, filter, length, map, IfOk};

use crate::exports::joined;
use crate::formulas::formula;
use crate::made::MadeList;
use crate::relations::conjunction;
use crate::restriction::push_restriction;
use crate::scope::Scope;
use crate::tables::Tables;
use ms_list::{List, NoMemory, push};
use ms_logic::{Global, Placed};
use ms_logic_core::{Core, Root};

/// `restrict` of each restriction of the globals.
pub fn global_restrictions(tables: &Tables, globals: &[Global], free: u64) -> MadeList
    ensures { IfOk result (λ cores. map core_form_of cores ≡ map (renumbered (numbering_of tables.now))
        (restrictions_of (callees_in tables.now) (globals_from 0 globals.now) own_names free)) }
{
    let mut scope = Scope::new(tables.alloc);
    let mut cores = List::new(tables.alloc);
    for global in globals {
        push_restriction(tables, &mut scope, &mut cores, &global.domain, free)?;
    }
    Ok(cores)
}

// A formula declaration has no title.
fn is_declared(placed: &Placed) -> bool
    ensures { result ≡ is_none placed.now.title }
{
    placed.title.is_none()
}

/// The formulas of the formula declarations.
pub fn declared_formulas(tables: &Tables, formulas: &[Placed], free: u64) -> MadeList
    ensures { IfOk result (λ cores. map core_form_of cores ≡ map (renumbered (numbering_of tables.now))
        (spread_each (callees_in tables.now)
        (forms (map (λ placed. formula_of placed.formula) (filter (λ placed. is_none placed.title) formulas.now))) own_names free)) }
{
    let mut scope = Scope::new(tables.alloc);
    let mut cores = List::new(tables.alloc);
    for placed in formulas {
        if is_declared(placed) {
            let core = formula(tables, &mut scope, &placed.formula, free)?;
            push(&mut cores, core.into_inner())?;
        }
    }
    Ok(cores)
}

fn first_numbers(tables: &Tables, count: u32) -> Result<List<u32>, NoMemory>
    ensures { IfOk result (λ numbers. numbers ≡ range_with_len 0 count) }
{
    let mut numbers = List::new(tables.alloc);
    for number in 0..count {
        push(&mut numbers, number)?;
    }
    Ok(numbers)
}

/// The root of the conjunction of some formulas, over the globals.
pub fn over_globals(tables: &Tables, front: List<Core>, later: List<Core>) -> Result<Root, NoMemory>
    ensures { IfOk result (λ root. root_of root
        ≡ root_of_forms tables.now.globals (map core_form_of front ++ map core_form_of later)) }
{
    let core = conjunction(tables.alloc, joined(front, later)?)?;
    Ok(Root {
        variables: first_numbers(tables, tables.globals)?,
        core: core.into_inner(),
    })
}

/// The main root, of the formula declarations under the restrictions of the globals.
pub fn main_root(tables: &Tables, globals: &[Global], formulas: &[Placed]) -> Result<Root, NoMemory>
    requires globals { length globals.now ≡ tables.now.globals }
    requires kept { tables.now.kept ≡ tables.now.globals }
    ensures { IfOk result (λ root. root_of root ≡ renumbered_root tables.now
        (main_over tables.now globals.now (filter (λ placed. is_none placed.title) formulas.now))) }
{
    let free = u64::from(tables.globals);
    let front = global_restrictions(tables, globals, free)?;
    let later = declared_formulas(tables, formulas, free)?;
    over_globals(tables, front, later)
}
