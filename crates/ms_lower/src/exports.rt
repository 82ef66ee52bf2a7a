ghost use Rattle.ms_logic.specs.View.{formula_of, forms};
ghost use Rattle.ms_lower.specs.NumberedRoots.{above_all, renumbered_root, root_of, root_over, roots_among, roots_in, seen_over, variables_of_export, with_orders};
ghost use Rattle.ms_lower.specs.Numbering.{number_at};
ghost use Rattle.std.specs.Prelude.{◌≡◌, ◌++◌, [], map, slice_get, IfOk, OnOk};

use crate::formulas::formula;
use crate::scope::{Named, Scope};
use crate::tables::{Tables, number};
use ms_list::{List, NoMemory, push};
use ms_logic::{ExportUse, Formula};
use ms_logic_core::Root;

/// The items of both lists.
pub fn joined<T: Drop>(front: List<T>, later: List<T>) -> Result<List<T>, NoMemory>
    ensures { IfOk result (λ all. all ≡ front ++ later) }
{
    let mut all = front;
    for item in later.into_vec() {
        push(&mut all, item)?;
    }
    Ok(all)
}

// The variables of an export, of which there are none where no export has the number.
fn variables_at(exports: &[ExportUse], export: u32) -> &[u32]
    ensures { result.now ≡ variables_of_export (slice_get exports.now export) }
{
    match exports.get(export as usize) {
        None => &[],
        Some(used) => used.variables.slice(),
    }
}

// The numbers of variables in the answer, where some are seen.
fn numbers_of(tables: &Tables, seen: &Scope, variables: &[u32]) -> Result<List<u32>, NoMemory>
    ensures { IfOk result (λ numbers. numbers
        ≡ map (λ v. number_at tables.now.kept tables.now.globals v.order v.name) (with_orders (seen_over [] seen.now) variables.now)) }
{
    let mut numbers = List::new(tables.alloc);
    for variable in variables {
        let order = seen.order_of(*variable);
        push(&mut numbers, number(tables, order, u64::from(*variable))?)?;
    }
    Ok(numbers)
}

// The least number above those of some variables.
fn first_above(variables: &[u32]) -> u64
    ensures { result ≡ above_all variables.now }
{
    let mut first = 0;
    for variable in variables {
        first = first.max(u64::from(*variable) + 1);
    }
    first
}

// The root of a formula over some variables, which are seen with their orders.
fn export_root(
    tables: &Tables,
    seen: &Scope,
    source: &Formula,
    variables: &[u32],
) -> Result<Root, NoMemory>
    ensures { IfOk result (λ root. root_of root ≡ renumbered_root tables.now
        (root_over tables.now (formula_of source.now) (with_orders (seen_over [] seen.now) variables.now))) }
{
    let free = first_above(variables);
    let Ok(first) = u32::try_from(free) else {
        return Err(NoMemory);
    };
    let own = Tables {
        kept: tables.globals.min(first),
        ..*tables
    };
    let numbers = numbers_of(&own, seen, variables)?;
    let mut scope = Scope::new(tables.alloc);
    let core = formula(&own, &mut scope, source, free)?;
    Ok(Root {
        variables: numbers,
        core: core.into_inner(),
    })
}

/// The roots of the exports in a formula, where some variables are seen.
#[cycle(exports)]
pub fn roots(
    tables: &Tables,
    exports: &[ExportUse],
    seen: &mut Scope,
    source: &Formula,
) -> Result<List<Root>, NoMemory>
    ensures roots { IfOk result (λ roots. map root_of roots ≡ map (renumbered_root tables.now)
        (roots_in tables.now exports.now (seen_over [] seen.old) (formula_of source.now))) }
    ensures seen { OnOk result (seen.new ≡ seen.old) }
{
    match source {
        Formula::Not(body) | Formula::Restrict(body) => roots(tables, exports, seen, body.get()),
        Formula::And(operands) | Formula::Or(operands) => {
            roots_of_each(tables, exports, seen, operands.slice())
        }
        Formula::Implies(left, right) | Formula::Iff(left, right) => {
            let left = roots(tables, exports, seen, left.get())?;
            let right = roots(tables, exports, seen, right.get())?;
            joined(left, right)
        }
        Formula::Bind(_, order, variable, _, body) => {
            let outer = seen.len();
            let named = Named {
                order: *order,
                variable: *variable,
                name: 0,
            };
            seen.enter(named)?;
            let inside = roots(tables, exports, seen, body.get())?;
            seen.leave(outer);
            Ok(inside)
        }
        Formula::Export(export, body) => {
            let mut all = List::new(tables.alloc);
            push(
                &mut all,
                export_root(tables, seen, body.get(), variables_at(exports, *export))?,
            )?;
            let inside = roots(tables, exports, seen, body.get())?;
            joined(all, inside)
        }
        Formula::True
        | Formula::False
        | Formula::Var(_)
        | Formula::Compare(_, _, _)
        | Formula::CompareSets(_, _, _)
        | Formula::Member(_, _, _)
        | Formula::IsEmpty(_)
        | Formula::Let(_, _)
        | Formula::Call(_, _)
        | Formula::Import(_)
        | Formula::Domain(_, _) => Ok(List::new(tables.alloc)),
    }
}

#[cycle(exports)]
fn roots_of_each(
    tables: &Tables,
    exports: &[ExportUse],
    seen: &mut Scope,
    operands: &[Formula],
) -> Result<List<Root>, NoMemory>
    ensures roots { IfOk result (λ roots. map root_of roots ≡ map (renumbered_root tables.now)
        (roots_among tables.now exports.now (seen_over [] seen.old) (forms (map formula_of operands.now)))) }
    ensures seen { OnOk result (seen.new ≡ seen.old) }
{
    let mut all = List::new(tables.alloc);
    for operand in operands {
        let inside = roots(tables, exports, seen, operand)?;
        all = joined(all, inside)?;
    }
    Ok(all)
}
