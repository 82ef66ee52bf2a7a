ghost use Rattle.ms_logic_core.specs.Spread.{is_order};
ghost use Rattle.ms_lower.specs.NumberedRoots.{order_seen, seen_over};
ghost use Rattle.ms_lower.specs.inner.Scope.{all_named, names_in};
ghost use Rattle.std.specs.Prelude.{◌≡◌, ◌++◌, ◌∷◌, [], ◌==◌, ◌&&◌, length, take, OnOk};

use ms_list::NoMemory;
use ms_logic::Order;
use std::alloc::Global;
use std::marker::Model;

/// A variable of the source, and the number that it has in the spread.
#[derive(Clone, Copy)]
pub struct Named {
    pub order: Order,
    pub variable: u32,
    pub name: u64,
}

fn same_order(one: Order, other: Order) -> bool
    ensures { result ≡ is_order one other }
{
    match (one, other) {
        (Order::Zero, Order::Zero) | (Order::One, Order::One) | (Order::Two, Order::Two) => true,
        _ => false,
    }
}

impl Named {
    fn stands_for(&self, order: Order, variable: u32) -> bool
        ensures { result ≡ (is_order self.now.order order && (variable == self.now.variable)) }
    {
        same_order(self.order, order) && variable == self.variable
    }
}

/// The variables in scope that have a number of their own in the spread, inner ones behind outer ones. A variable that stands
/// there twice goes by the later one.
#[derive(Drop)]
pub struct Scope {
    variables: Vec<Named>,
}

impl Model for Scope {
    ghost use Rattle.ms_lower.specs.declared.scope.Named.{Named as Variable};
    ghost use Rattle.std.specs.Prelude.{List};

    ghost Value = { List Variable };

    ghost view = { λ scope. scope.variables.items };
}

impl Scope {
    /// No variables.
    pub fn new(alloc: Global) -> Scope
        ensures { result ≡ [] }
    {
        Scope {
            variables: Vec::new(alloc),
        }
    }

    /// The number in the spread of a variable of the source.
    pub fn name_of(&self, order: Order, variable: u32) -> u64
        ensures { result ≡ names_in self.now order variable }
    {
        let mut i = self.variables.len();
        while i > 0 {
            i -= 1;
            let named = self.variables[i];
            if named.stands_for(order, variable) {
                return named.name;
            }
        }
        u64::from(variable)
    }

    /// The order of a variable.
    pub fn order_of(&self, variable: u32) -> Order
        ensures { result ≡ order_seen (seen_over [] self.now) variable }
    {
        let mut i = self.variables.len();
        while i > 0 {
            i -= 1;
            let named = self.variables[i];
            if variable == named.variable {
                return named.order;
            }
        }
        Order::Zero
    }

    /// How many variables are in scope.
    pub fn len(&self) -> usize
        ensures { result ≡ length self.now }
    {
        self.variables.len()
    }

    /// One more variable.
    pub fn enter(&mut self, named: Named) -> Result<(), NoMemory>
        ensures { OnOk result (self.new ≡ self.old ++ named ∷ []) }
    {
        match self.variables.push(named) {
            Ok(()) => Ok(()),
            Err(_) => Err(NoMemory),
        }
    }

    /// The first so many variables.
    pub fn leave(&mut self, count: usize)
        ensures { self.new ≡ take count self.old }
    {
        self.variables.truncate(count)
    }
}

fn enter_one(scope: &mut Scope, named: &Named) -> Result<(), NoMemory>
    ensures { OnOk result (scope.new ≡ scope.old ++ named.now ∷ []) }
{
    scope.enter(*named)
}

/// Enters some variables, the first over the later ones.
pub fn enter_named(scope: &mut Scope, named: &[Named]) -> Result<(), NoMemory>
    ensures names { OnOk result (names_in scope.new ≡ all_named named.now (names_in scope.old)) }
    ensures kept { OnOk result (take (length scope.old) scope.new ≡ scope.old) }
{
    let mut i = named.len();
    while i > 0 {
        i -= 1;
        enter_one(scope, &named[i])?;
    }
    Ok(())
}
