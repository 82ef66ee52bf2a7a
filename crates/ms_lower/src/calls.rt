ghost use Rattle.ms_logic_core.specs.CoreForm.{core_form_of};
ghost use Rattle.ms_lower.specs.Callees.{callees_in};
ghost use Rattle.ms_lower.specs.Numbering.{number_at, numbering_of, renumbered};
ghost use Rattle.ms_lower.specs.inner.Scope.{names_in};
ghost use Rattle.std.specs.Prelude.{◌≡◌, ◌+◌, length, map, IfOk};

use crate::made::Made;
use crate::relations::{constant, restricted};
use crate::scope::Scope;
use crate::tables::{Tables, number};
use ms_list::{Boxed, List, NoMemory, on_heap, push};
use ms_logic::{Order, Param};
use ms_logic_core::Core;

// The numbers in the answer of the variables that some parameters stand for.
fn numbers_of(tables: &Tables, scope: &Scope, params: &[Param]) -> Result<List<u32>, NoMemory>
    ensures { IfOk result (λ numbers. numbers
        ≡ map (λ p. number_at tables.now.kept tables.now.globals p.order (names_in scope.now p.order p.variable)) params.now) }
{
    let mut numbers = List::new(tables.alloc);
    for param in params {
        let name = scope.name_of(param.order, param.variable);
        push(&mut numbers, number(tables, param.order, name)?)?;
    }
    Ok(numbers)
}

// The number of a call, behind the imports of the source.
fn number_of_call(tables: &Tables, predicate: u32) -> Result<u32, NoMemory>
    ensures { IfOk result (λ number. number ≡ length tables.now.imports.now + predicate) }
{
    let number = tables.imports.len().saturating_add(predicate as usize);
    u32::try_from(number).map_err(|_| NoMemory)
}

/// A call of a predicate, as an import behind those of the source, of the variables that the parameters stand for and of the
/// first number that is free.
pub fn call(tables: &Tables, scope: &Scope, predicate: u32, free: u64) -> Made
    ensures { IfOk result (λ core. core_form_of core ≡ renumbered (numbering_of tables.now)
        ((callees_in tables.now).body predicate (names_in scope.now) free)) }
{
    let Some(known) = tables.predicate(predicate) else {
        return restricted(tables.alloc, constant(tables.alloc, false)?);
    };
    let mut numbers = numbers_of(tables, scope, known.params.slice())?;
    push(&mut numbers, number(tables, Order::Zero, free)?)?;
    let call = Core::Import(number_of_call(tables, predicate)?, numbers);
    Ok(on_heap(tables.alloc, call)?)
}
