ghost use Rattle.ms_names_rules.specs.Declarations.{next_predicate, orders_of_bounds};
ghost use Rattle.ms_names_rules.specs.Scope.{with_default};
ghost use Rattle.ms_parse_grammar.specs.View.{variables_of};
ghost use Rattle.ms_names_scopes.specs.inner.Declaration.{named, read_through};
ghost use Rattle.std.specs.Prelude.{◌≡◌, IfOk, OnOk};

use crate::checker::Checker;
use crate::name::small;
use ms_list::{List, Name, NoMemory, push};
use ms_logic::{Bound, Order};
use ms_names_rules::Meaning;
use std::alloc::Global;
use std::mem;

// The orders of the parameters of a list.
fn orders_of(alloc: Global, bounds: &[Bound]) -> Result<List<Order>, NoMemory>
    ensures { IfOk result (λ orders. orders ≡ orders_of_bounds (variables_of bounds.now)) }
{
    let mut orders = List::new(alloc);
    for bound in bounds {
        push(&mut orders, bound.order)?;
    }
    Ok(orders)
}

impl Checker {
    /// Notes what a predicate, a macro or a default restriction reads, and gives its number.
    pub fn note_predicate(&mut self) -> Result<u32, NoMemory>
        ensures state { OnOk result (self.new ≡ read_through self.old) }
        ensures number { IfOk result (λ number. number ≡ next_predicate self.old.scope) }
    {
        let number = small(self.predicates.len())?;
        let reads = mem::replace(&mut self.reads, List::new(self.alloc));
        match self.predicates.push(reads) {
            Ok(()) => Ok(number),
            Err(_) => Err(NoMemory),
        }
    }

    /// Notes what a predicate or a macro with these parameters reads, and declares its name.
    pub fn name_predicate(&mut self, name: &Name, bounds: &[Bound]) -> Result<(), NoMemory>
        ensures { OnOk result (self.new ≡ named self.old name.now (orders_of_bounds (variables_of bounds.now))) }
    {
        let number = self.note_predicate()?;
        let orders = orders_of(self.alloc, bounds)?;
        self.bind(name, Meaning::Predicate(number, orders))?;
        Ok(())
    }

    /// Another default restriction for an order.
    pub fn set_default(&mut self, order: Order, number: u32)
        ensures { self.new ≡ record self.old { scope = with_default order number self.old.scope } }
    {
        match order {
            Order::Zero => {}
            Order::One => self.default_of_numbers = Some(number),
            Order::Two => self.default_of_sets = Some(number),
        }
    }
}
