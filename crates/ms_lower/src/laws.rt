//! Laws of the definitions. The function has an empty body, and its contract states its laws.

ghost use Rattle.ms_lower.specs.NumberLaws.{NumbersHaveOrders, NumbersKeepRoots, NumbersKeepScopes};

/// The numbers of the answer are other numbers of the same variables, each with one order.
pub fn laws_of_numbers()
    ensures keep_roots { NumbersKeepRoots }
    ensures keep_scopes { NumbersKeepScopes }
    ensures have_orders { NumbersHaveOrders }
{}
