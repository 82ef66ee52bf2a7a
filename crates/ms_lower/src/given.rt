ghost use Rattle.ms_logic_core.specs.CoreForm.{core_form_of};
ghost use Rattle.ms_logic_core.specs.Spread.{numbers_and_sets};
ghost use Rattle.ms_logic.specs.View.{argument_of};
ghost use Rattle.ms_logic.specs.View.{arguments as arguments_of};
ghost use Rattle.ms_lower.specs.inner.Given.{Enters, IsNumberOrSet, below_all, below_given, below_truth, entered_with, named_by, nothing_entered, values_of, variables_of};
ghost use Rattle.ms_lower.specs.Numbering.{numbering_of};
ghost use Rattle.ms_lower.specs.inner.Scope.{names_in};
ghost use Rattle.std.specs.Option.{option_map};
ghost use Rattle.std.specs.Prelude.{◌≡◌, ◌++◌, IfOk, OnOk};

use crate::arguments::Arguments;
use crate::cores::{Bound, and, quantify, relation};
use crate::defined::{Defined, over};
use crate::made::Made;
use crate::relations::{restricted, same};
use crate::scope::{Named, Scope};
use crate::tables::Tables;
use crate::terms::{define_number, define_set};
use ms_list::{Boxed, List, NoMemory, push};
use ms_logic::{Arg, Order, Quant};
use ms_logic_core::{Basic, Core};
use std::alloc::Global;

/// The variables that some values are, and the variables that get a value. From a number on all are free in the spread.
#[derive(Drop)]
pub struct Entered {
    pub defined: List<Defined>,
    pub named: List<Named>,
    pub next: u64,
}

impl Entered {
    /// No values.
    pub fn none(alloc: Global, next: u64) -> Entered
        ensures { result ≡ nothing_entered next }
    {
        Entered {
            defined: List::new(alloc),
            named: List::new(alloc),
            next,
        }
    }
}

// Appends the variable that gets a value, if there is one.
fn push_named(
    named: &mut List<Named>,
    variable: Option<u32>,
    made: &Defined,
) -> Result<(), NoMemory>
    ensures { OnOk result (named.new ≡ named.old ++ named_by variable made.now) }
{
    match variable {
        None => Ok(()),
        Some(variable) => {
            let one = Named {
                order: made.order,
                variable,
                name: made.name,
            };
            push(named, one)
        }
    }
}

/// With one value more, if there is one.
pub fn with_value(
    before: Entered,
    variable: Option<u32>,
    value: Option<Defined>,
) -> Result<Entered, NoMemory>
    ensures { IfOk result (λ entered. entered ≡ entered_with before variable value) }
{
    match value {
        None => Ok(before),
        Some(made) => {
            let next = made.next;
            let mut named = before.named;
            push_named(&mut named, variable, &made)?;
            let mut defined = before.defined;
            push(&mut defined, made)?;
            Ok(Entered {
                defined,
                named,
                next,
            })
        }
    }
}

// A formula below the binder of a truth value, if that is new.
fn over_truth(
    alloc: Global,
    number: u32,
    definition: Option<Boxed<Core>>,
    body: Boxed<Core>,
) -> Made
    ensures { IfOk result (λ core. core_form_of core ≡ below_truth number (option_map core_form_of definition) (core_form_of body)) }
{
    match definition {
        None => Ok(body),
        Some(definition) => {
            let value = relation(alloc, Basic::Truth(number))?;
            let is_value = restricted(alloc, same(alloc, value, definition)?)?;
            let body = and(alloc, is_value, body)?;
            let bound = Bound {
                quant: Quant::Ex,
                order: Order::Zero,
                number,
            };
            Ok(quantify(alloc, bound, None, body)?)
        }
    }
}

/// A formula below the binder of a value, if that is new.
fn over_given(alloc: Global, defined: Defined, body: Boxed<Core>) -> Made
    ensures { IfOk result (λ core. core_form_of core ≡ below_given defined (core_form_of body)) }
{
    match defined.order {
        Order::Zero => {
            let Defined {
                number,
                definition,
                ..
            } = defined;
            over_truth(alloc, number, definition, body)
        }
        Order::One => over(alloc, defined, body),
        Order::Two => over(alloc, defined, body),
    }
}

/// A formula below the binders of some values, the first outermost.
pub fn over_all(alloc: Global, defined: List<Defined>, body: Boxed<Core>) -> Made
    ensures { IfOk result (λ core. core_form_of core ≡ below_all defined (core_form_of body)) }
{
    let mut outer = defined.into_vec();
    let mut core = body;
    while let Some(last) = outer.pop() {
        core = over_given(alloc, last, core)?;
    }
    Ok(core)
}

/// The variable that a number or a set is, and nothing for a truth value.
pub fn number_or_set(
    tables: &Tables,
    scope: &Scope,
    value: &Arg,
    free: u64,
) -> Result<Option<Defined>, NoMemory>
    ensures { IfOk result (IsNumberOrSet (numbering_of tables.now) (argument_of value.now) (names_in scope.now) free) }
{
    match value {
        Arg::Zero(_) => Ok(None),
        Arg::One(term) => {
            let made = define_number(tables, scope, term, free)?;
            Ok(Some(made))
        }
        Arg::Two(set) => {
            let made = define_set(tables, scope, set, free)?;
            Ok(Some(made))
        }
    }
}

/// The numbers and sets among some arguments.
pub fn number_arguments(
    tables: &Tables,
    scope: &Scope,
    arguments: &Arguments,
    free: u64,
) -> Result<Entered, NoMemory>
    ensures { IfOk result (Enters (numbering_of tables.now)
        (numbers_and_sets (variables_of arguments.now) (arguments_of (values_of arguments.now)) (names_in scope.now)) free) }
{
    let mut entered = Entered::none(tables.alloc, free);
    for i in 0..arguments.len() {
        let value = number_or_set(tables, scope, arguments.value(i), entered.next)?;
        entered = with_value(entered, arguments.variable(i), value)?;
    }
    Ok(entered)
}
