//! What an expression became, if it is of an order.

ghost use Rattle.ms_logic.specs.Tree as tree;
ghost use Rattle.ms_logic.specs.View.{argument_of, formula_of, set_term_of, term_of};
ghost use Rattle.ms_names_rules.specs.Typed.{formula_in, number_in, of_order, set_in};
ghost use Rattle.std.specs.Option.{option_and_then, option_map};
ghost use Rattle.std.specs.Prelude.{◌≡◌};

use ms_logic::{Arg, Formula, Order, Term1, Term2};

/// The formula that an expression became, if it is one.
#[inline(never)]
pub fn formula_in(value: Option<Arg>) -> Option<Formula>
    ensures { option_map formula_of result ≡ formula_in (option_map argument_of value) }
{
    match value {
        None => None,
        Some(Arg::Zero(formula)) => Some(formula),
        Some(Arg::One(_)) => None,
        Some(Arg::Two(_)) => None,
    }
}

pub(crate) fn number_in(value: Option<Arg>) -> Option<Term1>
    ensures { option_map term_of result ≡ number_in (option_map argument_of value) }
{
    match value {
        None => None,
        Some(Arg::Zero(_)) => None,
        Some(Arg::One(number)) => Some(number),
        Some(Arg::Two(_)) => None,
    }
}

pub(crate) fn set_in(value: Option<Arg>) -> Option<Term2>
    ensures { option_map set_term_of result ≡ set_in (option_map argument_of value) }
{
    match value {
        None => None,
        Some(Arg::Zero(_)) => None,
        Some(Arg::One(_)) => None,
        Some(Arg::Two(set)) => Some(set),
    }
}

fn of_formula(formula: Option<Formula>) -> Option<Arg>
    ensures { option_map argument_of result ≡ option_map (λ f. tree.truth_argument f) (option_map formula_of formula) }
{
    let formula = formula?;
    Some(Arg::Zero(formula))
}

fn of_number(number: Option<Term1>) -> Option<Arg>
    ensures { option_map argument_of result ≡ option_map (λ t. tree.number_argument t) (option_map term_of number) }
{
    let number = number?;
    Some(Arg::One(number))
}

fn of_set(set: Option<Term2>) -> Option<Arg>
    ensures { option_map argument_of result ≡ option_map (λ s. tree.set_argument s) (option_map set_term_of set) }
{
    let set = set?;
    Some(Arg::Two(set))
}

/// What an expression became, if it is of this order.
pub(crate) fn in_order(order: Order, value: Option<Arg>) -> Option<Arg>
    ensures { option_map argument_of result ≡ option_and_then (of_order order) (option_map argument_of value) }
{
    match order {
        Order::Zero => of_formula(formula_in(value)),
        Order::One => of_number(number_in(value)),
        Order::Two => of_set(set_in(value)),
    }
}
