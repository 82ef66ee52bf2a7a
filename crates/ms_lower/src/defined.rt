ghost use Rattle.ms_logic_core.specs.CoreForm.{core_form_of};
ghost use Rattle.ms_lower.specs.inner.Defined.{below, new_definition};
ghost use Rattle.std.specs.Prelude.{◌≡◌, ◌<◌, ◌^◌, IfOk};

use crate::cores::{Bound, quantify};
use crate::made::Made;
use ms_list::{Boxed, NoMemory};
use ms_logic::{Order, Quant};
use ms_logic_core::Core;
use std::alloc::Global;

/// The variable that a term is: its order, and its number in the spread and in the answer. If it is new, it has the restriction
/// that it is the term. From another number on all are free in the spread.
#[derive(Drop)]
pub struct Defined {
    pub order: Order,
    pub name: u64,
    pub number: u32,
    pub next: u64,
    pub definition: Option<Boxed<Core>>,
}

/// A new variable with its restriction.
pub fn fresh(order: Order, name: u64, number: u32, definition: Boxed<Core>) -> Defined
    requires { name < 2 ^ 32 }
    ensures { result ≡ new_definition order name number definition }
{
    Defined {
        order,
        name,
        number,
        next: name + 1,
        definition: Some(definition),
    }
}

/// A formula below the binder of the variable, if that is new.
pub fn over(alloc: Global, defined: Defined, body: Boxed<Core>) -> Made
    ensures { IfOk result (λ core. core_form_of core ≡ below defined (core_form_of body)) }
{
    let Defined {
        order,
        number,
        definition,
        ..
    } = defined;
    match definition {
        None => Ok(body),
        Some(definition) => {
            let bound = Bound {
                quant: Quant::Ex,
                order,
                number,
            };
            Ok(quantify(alloc, bound, Some(definition), body)?)
        }
    }
}
