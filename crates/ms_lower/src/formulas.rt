ghost use Rattle.ms_logic_core.specs.CoreForm.{core_form_of, core_restriction};
ghost use Rattle.ms_logic_core.specs.Spread.{numbers_and_sets, spread_each, spread_restriction, truth_values};
ghost use Rattle.ms_logic.specs.Tree.{call, quantified, where_let};
ghost use Rattle.ms_logic.specs.View.{argument_of, binding_of, formula_of, forms, restriction};
ghost use Rattle.ms_logic.specs.View.{arguments as arguments_of};
ghost use Rattle.ms_lower.specs.Callees.{callees_in, spread_in};
ghost use Rattle.ms_lower.specs.inner.Given.{Enters, Inner, IsTruth, below_all, values_of, variables_of};
ghost use Rattle.ms_lower.specs.Numbering.{numbering_of, renumbered, renumbered_in};
ghost use Rattle.ms_lower.specs.inner.Scope.{names_in};
ghost use Rattle.std.specs.Option.{option_map};
ghost use Rattle.std.specs.Prelude.{◌≡◌, length, map, take, IfOk, OnOk};

use crate::arguments::Arguments;
use crate::calls::call;
use crate::cores::{Bound, implies, not, quantify, relation, with_room};
use crate::defined::{Defined, fresh};
use crate::given::{Entered, number_arguments, over_all, with_value};
use crate::made::{Made, MadeList};
use crate::pairs::{comparison, emptiness, membership, set_comparison};
use crate::relations::{conjunction, constant, disjunction, import, restricted, same};
use crate::scope::{Named, Scope, enter_named};
use crate::tables::{Tables, number};
use crate::truths::{default_names, known_truth, truth_variable};
use ms_list::{Boxed, List, NoMemory, push};
use ms_logic::{Arg, Binding, Formula, Order, Quant};
use ms_logic_core::{Basic, Core};
use std::alloc::Global;

/// The core formula of a formula. From a number on all are free in the spread. It calls itself once for each level, so the
/// depth of a source is looked at before.
#[cycle(formulas)]
pub fn formula(tables: &Tables, scope: &mut Scope, source: &Formula, free: u64) -> Made
    ensures core { IfOk result (λ core. core_form_of core ≡ spread_in tables.now (formula_of source.now) (names_in scope.old) free) }
    ensures scope { OnOk result (scope.new ≡ scope.old) }
{
    let alloc = tables.alloc;
    match source {
        Formula::True => constant(alloc, true),
        Formula::False => constant(alloc, false),
        Formula::Var(variable) => {
            let name = scope.name_of(Order::Zero, *variable);
            relation(alloc, Basic::Truth(number(tables, Order::Zero, name)?))
        }
        Formula::Not(body) => not(alloc, formula(tables, scope, body.get(), free)?),
        Formula::And(operands) => conjunction(alloc, each(tables, scope, operands.slice(), free)?),
        Formula::Or(operands) => disjunction(alloc, each(tables, scope, operands.slice(), free)?),
        Formula::Implies(left, right) => {
            let left = formula(tables, scope, left.get(), free)?;
            let right = formula(tables, scope, right.get(), free)?;
            implies(alloc, left, right)
        }
        Formula::Iff(left, right) => {
            let left = formula(tables, scope, left.get(), free)?;
            let right = formula(tables, scope, right.get(), free)?;
            same(alloc, left, right)
        }
        Formula::Compare(rel, left, right) => {
            comparison(tables, scope, *rel, (left, right), free)
        }
        Formula::CompareSets(rel, left, right) => {
            set_comparison(tables, scope, *rel, (left, right), free)
        }
        Formula::Member(positive, number, set) => {
            membership(tables, scope, *positive, (number, set), free)
        }
        Formula::IsEmpty(set) => emptiness(tables, scope, set, free),
        Formula::Bind(quant, order, variable, domain, body) => {
            let named = Named {
                order: *order,
                variable: *variable,
                name: free,
            };
            let binder = Binder {
                quant: *quant,
                named,
            };
            bind(tables, scope, binder, domain, body.get())
        }
        Formula::Let(bindings, body) => {
            where_let(tables, scope, bindings.slice(), body.get(), free)
        }
        Formula::Call(predicate, arguments) => {
            call_with(tables, scope, *predicate, arguments.slice(), free)
        }
        Formula::Restrict(body) => restricted(alloc, formula(tables, scope, body.get(), free)?),
        Formula::Import(index) => import(tables, scope, *index),
        Formula::Export(_, body) => formula(tables, scope, body.get(), free),
        Formula::Domain(predicate, variable) => {
            default(tables, scope, *predicate, *variable, free)
        }
    }
}

#[cycle(formulas)]
fn each(tables: &Tables, scope: &mut Scope, operands: &[Formula], free: u64) -> MadeList
    ensures cores { IfOk result (λ cores. map core_form_of cores ≡ map (renumbered (numbering_of tables.now))
        (spread_each (callees_in tables.now) (forms (map formula_of operands.now)) (names_in scope.old) free)) }
    ensures scope { OnOk result (scope.new ≡ scope.old) }
{
    let mut cores = with_room(tables.alloc, operands.len())?;
    for operand in operands {
        let core = formula(tables, scope, operand, free)?;
        push(&mut cores, core.into_inner())?;
    }
    Ok(cores)
}

#[cycle(formulas)]
fn domain_of(
    tables: &Tables,
    scope: &mut Scope,
    domain: &Option<Boxed<Formula>>,
    free: u64,
) -> Result<Option<Boxed<Core>>, NoMemory>
    ensures core { IfOk result (λ core. core_restriction (option_map core_form_of core) ≡ renumbered_in (numbering_of tables.now)
        (spread_restriction (callees_in tables.now) (restriction (option_map formula_of domain.now)) (names_in scope.old) free)) }
    ensures scope { OnOk result (scope.new ≡ scope.old) }
{
    match domain {
        None => Ok(None),
        Some(source) => Ok(Some(formula(tables, scope, source.get(), free)?)),
    }
}

/// A quantifier, and its variable with its number in the spread.
#[derive(Clone, Copy)]
struct Binder {
    quant: Quant,
    named: Named,
}

#[cycle(formulas)]
#[inline(never)]
fn bind(
    tables: &Tables,
    scope: &mut Scope,
    binder: Binder,
    domain: &Option<Boxed<Formula>>,
    body: &Formula,
) -> Made
    ensures core { IfOk result (λ core. core_form_of core ≡ spread_in tables.now
        (quantified binder.quant binder.named.order binder.named.variable (restriction (option_map formula_of domain.now)) (formula_of body.now))
        (names_in scope.old) binder.named.name) }
    ensures scope { OnOk result (scope.new ≡ scope.old) }
{
    let Binder { quant, named } = binder;
    let bound = Bound {
        quant,
        order: named.order,
        number: number(tables, named.order, named.name)?,
    };
    let outer = scope.len();
    scope.enter(named)?;
    let domain = domain_of(tables, scope, domain, named.name + 1)?;
    let body = formula(tables, scope, body, named.name + 1)?;
    scope.leave(outer);
    quantify(tables.alloc, bound, domain, body)
}

#[cycle(formulas)]
#[inline(never)]
fn where_let(
    tables: &Tables,
    scope: &mut Scope,
    bindings: &[Binding],
    body: &Formula,
    free: u64,
) -> Made
    ensures core { IfOk result (λ core. core_form_of core ≡ spread_in tables.now
        (where_let (map (λ b. b.0) (map binding_of bindings.now)) (arguments_of (map (λ b. b.1) (map binding_of bindings.now))) (formula_of body.now))
        (names_in scope.old) free) }
    ensures scope { OnOk result (scope.new ≡ scope.old) }
{
    let arguments = Arguments::Let(bindings);
    let outer = scope.len();
    let values = enter_arguments(tables, scope, &arguments, free)?;
    let body = formula(tables, scope, body, values.next)?;
    scope.leave(outer);
    over_values(tables.alloc, values, body)
}

// A call, over its arguments.
#[cycle(formulas)]
#[inline(never)]
fn call_with(tables: &Tables, scope: &mut Scope, predicate: u32, given: &[Arg], free: u64) -> Made
    ensures core { IfOk result (λ core. core_form_of core ≡ spread_in tables.now
        (call predicate (arguments_of (map argument_of given.now))) (names_in scope.old) free) }
    ensures scope { OnOk result (scope.new ≡ scope.old) }
{
    let arguments = Arguments::Call(tables.params(predicate), given);
    let outer = scope.len();
    let values = enter_arguments(tables, scope, &arguments, free)?;
    let body = call(tables, scope, predicate, values.next)?;
    scope.leave(outer);
    over_values(tables.alloc, values, body)
}

// A default restriction at a variable.
#[cycle(formulas)]
fn default(tables: &Tables, scope: &mut Scope, predicate: u32, variable: u32, free: u64) -> Made
    ensures core { IfOk result (λ core. core_form_of core ≡ renumbered (numbering_of tables.now)
        ((callees_in tables.now).default predicate variable (names_in scope.old) free)) }
    ensures scope { OnOk result (scope.new ≡ scope.old) }
{
    let known = match tables.predicate(predicate) {
        None => return restricted(tables.alloc, constant(tables.alloc, false)?),
        Some(known) => known,
    };
    let named = default_names(tables.alloc, scope, known.params.slice(), variable)?;
    let outer = scope.len();
    enter_named(scope, named.slice())?;
    let before = tables.before(predicate);
    let core = formula(&before, scope, &known.body, free)?;
    scope.leave(outer);
    Ok(core)
}

// The variable that a truth value is, and nothing for a number or a set.
#[cycle(formulas)]
fn truth(
    tables: &Tables,
    scope: &mut Scope,
    value: &Arg,
    free: u64,
) -> Result<Option<Defined>, NoMemory>
    ensures value { IfOk result (IsTruth (numbering_of tables.now) (callees_in tables.now) (argument_of value.now) (names_in scope.old) free) }
    ensures scope { OnOk result (scope.new ≡ scope.old) }
{
    let Arg::Zero(source) = value else {
        return Ok(None);
    };
    match truth_variable(source) {
        Some(variable) => {
            let known = known_truth(tables, scope.name_of(Order::Zero, variable), free)?;
            Ok(Some(known))
        }
        None => {
            let own = number(tables, Order::Zero, free)?;
            let core = formula(tables, scope, source, free + 1)?;
            Ok(Some(fresh(Order::Zero, free, own, core)))
        }
    }
}

#[cycle(formulas)]
fn truth_arguments(
    tables: &Tables,
    scope: &mut Scope,
    arguments: &Arguments,
    free: u64,
) -> Result<Entered, NoMemory>
    ensures value { IfOk result (Enters (numbering_of tables.now)
        (truth_values (callees_in tables.now) (variables_of arguments.now) (arguments_of (values_of arguments.now)) (names_in scope.old)) free) }
    ensures scope { OnOk result (scope.new ≡ scope.old) }
{
    let mut entered = Entered::none(tables.alloc, free);
    for i in 0..arguments.len() {
        let value = truth(tables, scope, arguments.value(i), entered.next)?;
        entered = with_value(entered, arguments.variable(i), value)?;
    }
    Ok(entered)
}

/// The values of the arguments of a call or a `let`: numbers and sets, and then truth values.
#[derive(Drop)]
pub struct Values {
    pub numbers: Entered,
    pub truths: Entered,
    pub next: u64,
}

// The arguments are read, and then stand for their variables.
#[cycle(formulas)]
fn enter_arguments(
    tables: &Tables,
    scope: &mut Scope,
    arguments: &Arguments,
    free: u64,
) -> Result<Values, NoMemory>
    ensures values { (Said : Inner) → IfOk result (λ values. renumbered (numbering_of tables.now)
        (numbers_and_sets (variables_of arguments.now) (arguments_of (values_of arguments.now)) (names_in scope.old) (names_in scope.old) free
        (λ inner free. truth_values (callees_in tables.now) (variables_of arguments.now) (arguments_of (values_of arguments.now)) (names_in scope.old) inner free Said))
        ≡ below_all values.numbers.defined (below_all values.truths.defined (renumbered (numbering_of tables.now) (Said (names_in scope.new) values.next)))) }
    ensures kept { OnOk result (take (length scope.old) scope.new ≡ scope.old) }
{
    let numbers = number_arguments(tables, scope, arguments, free)?;
    let truths = truth_arguments(tables, scope, arguments, numbers.next)?;
    enter_named(scope, numbers.named.slice())?;
    enter_named(scope, truths.named.slice())?;
    let next = truths.next;
    Ok(Values {
        numbers,
        truths,
        next,
    })
}

// A formula below the binders of these values.
fn over_values(alloc: Global, values: Values, body: Boxed<Core>) -> Made
    ensures { IfOk result (λ core. core_form_of core
        ≡ below_all values.numbers.defined (below_all values.truths.defined (core_form_of body))) }
{
    let Values {
        numbers,
        truths,
        ..
    } = values;
    let Entered { defined, .. } = truths;
    let body = over_all(alloc, defined, body)?;
    let Entered { defined, .. } = numbers;
    over_all(alloc, defined, body)
}
