ghost use Rattle.ms_names_rules.specs.Order.{order_of_meaning};
ghost use Rattle.std.specs.Prelude.{◌≡◌};

use ms_list::List;
use ms_logic::Order;

/// What a name stands for.
#[derive(Drop)]
pub enum Meaning {
    /// A variable: its number and its order.
    Variable(u32, Order),
    /// A constant: its value.
    Constant(u64),
    /// A predicate or a macro: its number and the orders of its parameters.
    Predicate(u32, List<Order>),
}

impl Meaning {
    /// The order of the name by itself.
    pub fn order(&self) -> Order
        ensures { result ≡ order_of_meaning self.now }
    {
        match self {
            Meaning::Variable(_, order) => *order,
            Meaning::Constant(_) => Order::One,
            Meaning::Predicate(_, _) => Order::Zero,
        }
    }
}

/// What an expression reads: the variable with a number, or what the predicate or default restriction with a number reads.
#[derive(Clone, Copy, PartialEq, Eq)]
pub enum Reading {
    Variable(u32),
    Predicate(u32),
}
