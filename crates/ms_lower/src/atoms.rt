ghost use Rattle.ms_logic_core.specs.CoreForm.{basic, core_form_of};
ghost use Rattle.ms_logic_core.specs.Spread.{is_minus, is_only_member, is_whole};
ghost use Rattle.ms_lower.specs.inner.Defined.{below, IsDefined, number_binder};
ghost use Rattle.ms_lower.specs.Numbering.{numbering_of};
ghost use Rattle.ms_logic_core.specs.Spread.{the_variable};
ghost use Rattle.std.specs.Prelude.{◌≡◌, IfOk};

use crate::cores::{Bound, and, implies, not, or, quantify, relation};
use crate::defined::{Defined, over};
use crate::made::Made;
use crate::tables::{Tables, number};
use ms_list::{Boxed, NoMemory};
use ms_logic::{Order, Quant};
use ms_logic_core::{Basic, Core};
use std::alloc::Global;

fn number_bound(quant: Quant, number: u32) -> Bound
    ensures { result ≡ number_binder quant number }
{
    Bound {
        quant,
        order: Order::One,
        number,
    }
}

/// `x` is `y - by`, where `z` is a new number.
pub fn minus(alloc: Global, y: u32, by: u64, z: u32, x: u32) -> Made
    ensures { IfOk result (λ core. core_form_of core ≡ is_minus y by z x) }
{
    let some = number_bound(Quant::Ex, z);
    let reached = quantify(alloc, some, None, relation(alloc, Basic::Plus(x, z, by))?)?;
    let below = not(alloc, reached)?;
    let zero = relation(alloc, Basic::Number(y, 0))?;
    let stopped = and(alloc, zero, below)?;
    let moved = relation(alloc, Basic::Plus(x, y, by))?;
    or(alloc, moved, stopped)
}

/// `x` is the one member of `y`, where `z` is a new number.
pub fn only_member(alloc: Global, y: u32, z: u32, x: u32) -> Made
    ensures { IfOk result (λ core. core_form_of core ≡ is_only_member y z x) }
{
    let member = relation(alloc, Basic::Member(z, y))?;
    let same = relation(alloc, Basic::Plus(z, x, 0))?;
    let each = implies(alloc, member, same)?;
    let all = quantify(alloc, number_bound(Quant::All, z), None, each)?;
    let one = relation(alloc, Basic::Member(x, y))?;
    and(alloc, one, all)
}

/// Each number is a member of `y`, where `z` is a new number.
pub fn whole(alloc: Global, z: u32, y: u32) -> Made
    ensures { IfOk result (λ core. core_form_of core ≡ is_whole z y) }
{
    let member = relation(alloc, Basic::Member(z, y))?;
    quantify(alloc, number_bound(Quant::All, z), None, member)
}

/// A basic relation of a variable that a term is.
pub fn of_one(alloc: Global, one: Defined, relates: Basic) -> Made
    ensures { IfOk result (λ core. core_form_of core ≡ below one (basic relates)) }
{
    let body = relation(alloc, relates)?;
    over(alloc, one, body)
}

/// A basic relation of the variables that two terms are.
pub fn of_two(alloc: Global, one: Defined, other: Defined, relates: Basic) -> Made
    ensures { IfOk result (λ core. core_form_of core ≡ below one (below other (basic relates))) }
{
    let body = of_one(alloc, other, relates)?;
    over(alloc, one, body)
}

/// A variable in scope.
pub fn known(tables: &Tables, order: Order, name: u64, free: u64) -> Result<Defined, NoMemory>
    ensures { IfOk result (IsDefined (numbering_of tables.now) order (the_variable name) free) }
{
    Ok(Defined {
        order,
        name,
        number: number(tables, order, name)?,
        next: free,
        definition: None,
    })
}
