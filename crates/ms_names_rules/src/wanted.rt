ghost use Rattle.ms_names_rules.specs.Order.{fits, is_order, wanted_by, wanted_on_the_left, wanted_on_the_right};
ghost use Rattle.std.specs.Prelude.{◌≡◌};

use ms_logic::{Order, Rel};

/// The order that a place wants.
#[derive(Clone, Copy, PartialEq, Eq)]
pub enum Wanted {
    Exactly(Order),
    NumberOrSet,
    /// Any, as in brackets, or as an argument of a name that has no parameter for it.
    Anything,
}

fn same_order(a: Order, b: Order) -> bool
    ensures { result ≡ is_order a b }
{
    match (a, b) {
        (Order::Zero, Order::Zero) => true,
        (Order::One, Order::One) => true,
        (Order::Two, Order::Two) => true,
        _ => false,
    }
}

impl Wanted {
    /// Whether an expression of this order may stand here. One without an order may.
    pub fn fits(self, order: Option<Order>) -> bool
        ensures { result ≡ fits self order }
    {
        match (self, order) {
            (_, None) => true,
            (Wanted::Exactly(wanted), Some(given)) => same_order(wanted, given),
            (Wanted::NumberOrSet, Some(Order::Zero)) => false,
            (Wanted::NumberOrSet, Some(_)) => true,
            (Wanted::Anything, Some(_)) => true,
        }
    }

    /// On the left of a relation.
    pub fn on_the_left(rel: Rel) -> Wanted
        ensures { result ≡ wanted_on_the_left rel }
    {
        match rel {
            Rel::Equal | Rel::Differs => Wanted::NumberOrSet,
            Rel::Sub => Wanted::Exactly(Order::Two),
            _ => Wanted::Exactly(Order::One),
        }
    }

    /// On the right of a relation, by the order of its left side.
    pub fn on_the_right(rel: Rel, left: Option<Order>) -> Wanted
        ensures { result ≡ wanted_on_the_right rel left }
    {
        match (rel, left) {
            (Rel::Equal | Rel::Differs, None) => Wanted::NumberOrSet,
            (Rel::Equal | Rel::Differs, Some(order)) => Wanted::Exactly(order),
            (Rel::Member | Rel::NotMember | Rel::Sub, _) => Wanted::Exactly(Order::Two),
            (_, _) => Wanted::Exactly(Order::One),
        }
    }

    /// In the place of an argument, by the order of its parameter.
    pub fn by_parameter(order: Option<Order>) -> Wanted
        ensures { result ≡ wanted_by order }
    {
        match order {
            None => Wanted::Anything,
            Some(order) => Wanted::Exactly(order),
        }
    }
}
