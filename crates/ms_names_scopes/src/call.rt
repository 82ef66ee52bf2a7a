ghost use Rattle.ms_names_rules.specs.Order.{parameters_of};
ghost use Rattle.ms_names_rules.specs.Reads.{readings_of_call};
ghost use Rattle.ms_names_rules.specs.Rules.{faults_of_call};
ghost use Rattle.ms_names_rules.specs.Scope.{meaning_of};
ghost use Rattle.ms_names_scopes.specs.inner.Found.{noted};
ghost use Rattle.std.specs.Prelude.{◌≡◌, ◌+◌, take, IfOk, OnOk};

use crate::checker::Checker;
use crate::name::small;
use ms_list::{At, List, Name, NoMemory, push};
use ms_logic::Order;
use ms_names_rules::Meaning;
use std::alloc::Global;

fn copy_orders(alloc: Global, orders: &[Order]) -> Result<List<Order>, NoMemory>
    ensures { IfOk result (λ made. made ≡ orders.now) }
{
    let mut made = List::new(alloc);
    for order in orders {
        push(&mut made, *order)?;
    }
    Ok(made)
}

// The first orders, at most so many.
fn first_orders(alloc: Global, orders: &[Order], most: usize) -> Result<List<Order>, NoMemory>
    ensures { IfOk result (λ made. made ≡ take most orders.now) }
{
    if most < orders.len() {
        copy_orders(alloc, &orders[..most])
    } else {
        copy_orders(alloc, orders)
    }
}

impl Checker {
    // The orders of the first parameters of a name that is called, at most so many.
    fn parameters(&self, name: &Name, most: usize) -> Result<List<Order>, NoMemory>
        ensures { IfOk result (λ parameters. parameters ≡ take most (parameters_of (meaning_of self.now.scope name.now))) }
    {
        match self.meaning(name) {
            None => Ok(List::new(self.alloc)),
            Some(Meaning::Variable(_, _)) => Ok(List::new(self.alloc)),
            Some(Meaning::Constant(_)) => Ok(List::new(self.alloc)),
            Some(Meaning::Predicate(_, parameters)) => {
                first_orders(self.alloc, parameters.slice(), most)
            }
        }
    }

    /// Begins a call with a number of arguments: what is wrong with its name, what it reads, and the orders of its parameters, of which
    /// no more than one beyond the arguments are copied.
    #[inline(never)]
    pub fn begin_call(&mut self, at: At, name: &Name, given: usize) -> Result<List<Order>, NoMemory>
        ensures state { OnOk result (self.new ≡ noted self.old
            (faults_of_call at name.now given (meaning_of self.old.scope name.now))
            (readings_of_call (meaning_of self.old.scope name.now))) }
        ensures parameters { IfOk result (λ parameters. parameters ≡ take (given + 1) (parameters_of (meaning_of self.old.scope name.now))) }
    {
        let count = small(given)?;
        let Some(most) = given.checked_add(1) else {
            return Err(NoMemory);
        };
        self.check_call(at, name, count)?;
        self.parameters(name, most)
    }
}
