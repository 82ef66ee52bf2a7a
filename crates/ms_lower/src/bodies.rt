ghost use Rattle.ms_logic_core.specs.CoreForm.{core_form_of};
ghost use Rattle.ms_logic_core.specs.Spread.{own_names, restrictions_of};
ghost use Rattle.ms_logic.specs.View.{declaration_of};
ghost use Rattle.ms_lower.specs.Bodies.{called_in, named_at, one_named};
ghost use Rattle.ms_lower.specs.Callees.{callees_in};
ghost use Rattle.ms_lower.specs.Calling.{free_at, spread_number_of};
ghost use Rattle.ms_lower.specs.Numbering.{numbering_of, renumbered};
ghost use Rattle.ms_lower.specs.inner.Scope.{names_in};
ghost use Rattle.std.specs.Prelude.{◌≡◌, map, IfOk, OnOk};

use crate::formulas::formula;
use crate::made::MadeList;
use crate::relations::{conjunction, constant, restricted};
use crate::restriction::push_restriction;
use crate::scope::{Named, Scope, enter_named};
use crate::tables::Tables;
use ms_list::{Boxed, List, NoMemory, push};
use ms_logic::Param;
use ms_logic_core::Core;
use std::alloc::Global;

// The number in the spread of a variable of the answer.
fn spread_number(globals: u32, number: u32) -> u64
    ensures { result ≡ spread_number_of globals number }
{
    if number < globals {
        u64::from(number)
    } else {
        u64::from(globals) + u64::from((number - globals) / 3)
    }
}

fn one_named(globals: u32, param: &Param, variable: u32) -> Named
    ensures { result ≡ one_named globals param.now variable }
{
    Named {
        order: param.order,
        variable: param.variable,
        name: spread_number(globals, variable),
    }
}

// The parameters with the numbers in the spread of these variables.
fn named_at(
    alloc: Global,
    globals: u32,
    params: &[Param],
    variables: &[u32],
) -> Result<List<Named>, NoMemory>
    ensures { IfOk result (λ named. named ≡ named_at globals params.now variables.now) }
{
    let mut named = List::new(alloc);
    for i in 0..params.len().min(variables.len()) {
        push(&mut named, one_named(globals, &params[i], variables[i]))?;
    }
    Ok(named)
}

// The first number that is free in a call.
fn free_at(globals: u32, params: &[Param], variables: &[u32]) -> u64
    ensures { result ≡ free_at globals (map declaration_of params.now) variables.now }
{
    if params.len() < variables.len() {
        u64::from(globals).max(spread_number(globals, variables[params.len()]))
    } else {
        u64::from(globals)
    }
}

// `restrict` of each restriction of the parameters.
fn restrictions(tables: &Tables, scope: &mut Scope, params: &[Param], free: u64) -> MadeList
    ensures cores { IfOk result (λ cores. map core_form_of cores ≡ map (renumbered (numbering_of tables.now))
        (restrictions_of (callees_in tables.now) (map declaration_of params.now) (names_in scope.old) free)) }
    ensures scope { OnOk result (scope.new ≡ scope.old) }
{
    let mut cores = List::new(tables.alloc);
    for param in params {
        push_restriction(tables, scope, &mut cores, &param.domain, free)?;
    }
    Ok(cores)
}

/// What a call of a predicate becomes at these variables of the answer: its restrictions and its body, in which calls stand as
/// imports.
pub fn lower_call(
    tables: &Tables,
    predicate: u32,
    variables: &[u32],
) -> Result<Boxed<Core>, NoMemory>
    ensures { IfOk result (λ core. core_form_of core ≡ called_in tables.now predicate variables.now) }
{
    let Some(known) = tables.predicate(predicate) else {
        return restricted(tables.alloc, constant(tables.alloc, false)?);
    };
    let params = known.params.slice();
    let before = tables.before(predicate);
    let mut scope = Scope::new(tables.alloc);
    let named = named_at(tables.alloc, tables.globals, params, variables)?;
    enter_named(&mut scope, named.slice())?;
    let free = free_at(tables.globals, params, variables);
    let mut cores = restrictions(&before, &mut scope, params, free)?;
    let body = formula(&before, &mut scope, &known.body, free)?;
    if cores.is_empty() {
        return Ok(body);
    }
    push(&mut cores, body.into_inner())?;
    conjunction(tables.alloc, cores)
}
