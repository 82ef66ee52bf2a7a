//! What names and calls become.

ghost use Rattle.ms_logic.specs.Tree as tree;
ghost use Rattle.ms_logic.specs.View.{argument_of};
ghost use Rattle.ms_names_rules.specs.inner.Lists.{arguments_of};
ghost use Rattle.ms_names_rules.specs.Typed.{both, variable_argument, argument_for};
ghost use Rattle.std.specs.Option.{option_map};
ghost use Rattle.std.specs.Prelude.{◌≡◌, ◌∷◌, ◌++◌, [], map, slice_get, IfOk};

use crate::order::in_order;
use crate::parts::one_more;
use ms_list::{List, NoMemory};
use ms_logic::{Arg, Formula, Order, Term1, Term2};

/// A variable by itself.
#[inline(never)]
pub fn variable(x: u32, order: Order) -> Arg
    ensures { argument_of result ≡ variable_argument x order }
{
    match order {
        Order::Zero => Arg::Zero(Formula::Var(x)),
        Order::One => Arg::One(Term1::Var(x)),
        Order::Two => Arg::Two(Term2::Var(x)),
    }
}

/// The order of the parameter with this index, if there is one.
#[inline(never)]
pub fn parameter_at(parameters: &[Order], i: usize) -> Option<Order>
    ensures { result ≡ slice_get parameters.now i }
{
    if i < parameters.len() {
        Some(parameters[i])
    } else {
        None
    }
}

// What an argument became, if there is a parameter of its order.
fn argument_for(order: Option<Order>, value: Option<Arg>) -> Option<Arg>
    ensures { option_map argument_of result ≡ argument_for order (option_map argument_of value) }
{
    match order {
        None => None,
        Some(order) => in_order(order, value),
    }
}

/// An argument behind those before it, if all are of their parameters' orders.
#[inline(never)]
pub fn more_arguments(
    made: Option<List<Arg>>,
    order: Option<Order>,
    value: Option<Arg>,
) -> Result<Option<List<Arg>>, NoMemory>
    ensures { IfOk result (λ list. option_map (map argument_of) list
        ≡ both (λ front a. front ++ a ∷ []) (option_map (map argument_of) made) (argument_for order (option_map argument_of value))) }
{
    one_more(made, argument_for(order, value))
}

/// A call of the predicate with a number, if each of its arguments is there.
#[inline(never)]
pub fn call(number: u32, arguments: Option<List<Arg>>) -> Option<Arg>
    ensures { option_map argument_of result ≡ option_map (λ given. tree.truth_argument (tree.call number given)) (option_map arguments_of arguments) }
{
    let arguments = arguments?;
    Some(Arg::Zero(Formula::Call(number, arguments)))
}
