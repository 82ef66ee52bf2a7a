//! What a formula says of the sets for the names in scope. The variables from `x` on are free.

ghost use Rattle.ms_logic.specs.Tree.{Form};
ghost use Rattle.ms_logic.specs.View.{formula_of};
ghost use Rattle.ms_presburger.specs.Sets.{Scope, compared, set_form, summands_of};
ghost use Rattle.ms_presburger.specs.Tree.{extent, extent_of_all};
ghost use Rattle.ms_presburger.specs.View.{arithmetic_of, arithmetics};
ghost use Rattle.ms_presburger.specs.inner.Scopes.{AreAllFactorsSmall, AreFactorsSmall, IsAsIn, IsFactorSmall, variable_in, wrapped};
ghost use Rattle.ms_logic.specs.Lists.{Each};
ghost use Rattle.ms_translation.specs.Made.{Gives};
ghost use Rattle.std.specs.Prelude.{◌≡◌, ◌+◌, ◌*◌, ◌<◌, ◌≤◌, ◌^◌, length, map, IfOk, OnOk};

use crate::linear::{Linear, Part};
use crate::scope::{Bindings, bind, unbind};
use crate::summands::summands;
use crate::sums::compared;
use ms_list::{List, push};
use ms_logic::{Formula, Order, Quant, Rel};
use ms_translation::{
    Made, MadeList, and_then, bound, conjunction, disjunction, equivalence, implication, negation,
};
use std::alloc::Global;

/// The relation of two sums.
#[inline(never)]
fn relation(alloc: Global, bindings: &Bindings, x: u32, rel: Rel, sides: (&[Part], &[Part])) -> Made
    requires room { x + 136 < 2 ^ 32 }
    requires few { length sides.0.now ≤ 67108864 }
    requires few_too { length sides.1.now ≤ 67108864 }
    ensures made { (scope : Scope) → IsAsIn scope bindings.now →
        Gives result (compared rel (summands_of scope sides.entry.0.now) (summands_of scope sides.entry.1.now) x) }
    ensures small { OnOk result (Each IsFactorSmall sides.entry.0.now × Each IsFactorSmall sides.entry.1.now) }
{
    let left = summands(alloc, bindings, sides.0)?;
    let right = summands(alloc, bindings, sides.1)?;
    compared(alloc, rel, left.slice(), right.slice(), x)
}

/// Sets bound around the body, from `x` on.
#[inline(never)]
fn wrapped(alloc: Global, quant: Quant, count: u32, x: u32, body: Made) -> Made
    requires { x + 2 * count < 2 ^ 32 }
    ensures { (f : Form) → Gives body f → Gives result (wrapped quant count x f) }
{
    let mut made = body;
    let mut left = count;
    while left > 0 {
        left -= 1;
        made = bound(alloc, quant, Order::Two, x + 2 * left, made);
    }
    made
}

/// What a formula says of the sets for the names in scope.
#[cycle(formulas)]
pub(crate) fn formula_at(alloc: Global, bindings: &mut Bindings, x: u32, formula: &Linear) -> Made
    requires room { x + 2 * extent (arithmetic_of formula.now) + 136 < 2 ^ 32 }
    requires few { extent (arithmetic_of formula.now) ≤ 67108864 }
    ensures made { (scope : Scope) → IsAsIn scope bindings.old → Gives result (set_form (arithmetic_of formula.now) scope x) }
    ensures kept { OnOk result (IsAsIn (variable_in bindings.old) bindings.new) }
    ensures small { OnOk result (AreFactorsSmall (arithmetic_of formula.now)) }
{
    match formula {
        Linear::True => Ok(Formula::True),
        Linear::False => Ok(Formula::False),
        Linear::Compare(rel, left, right) => {
            relation(alloc, bindings, x, *rel, (left.slice(), right.slice()))
        }
        Linear::Paren(body) => formula_at(alloc, bindings, x, body.get()),
        Linear::Not(body) => negation(alloc, formula_at(alloc, bindings, x, body.get())),
        Linear::And(operands) => conjunction(formulas_at(alloc, bindings, x, operands.slice())),
        Linear::Or(operands) => disjunction(formulas_at(alloc, bindings, x, operands.slice())),
        Linear::Implies(left, right) => {
            let left = formula_at(alloc, bindings, x, left.get());
            implication(alloc, left, formula_at(alloc, bindings, x, right.get()))
        }
        Linear::Iff(left, right) => {
            let left = formula_at(alloc, bindings, x, left.get());
            equivalence(alloc, left, formula_at(alloc, bindings, x, right.get()))
        }
        Linear::Bind(quant, names, body) => {
            let count = names.len() as u32;
            let hidden = bind(alloc, bindings, x, names.slice())?;
            let body = formula_at(alloc, bindings, x + 2 * count, body.get());
            let unbound = unbind(alloc, bindings, names.slice(), hidden.slice());
            wrapped(alloc, *quant, count, x, and_then(body, unbound))
        }
    }
}

/// The same for each formula of a list.
#[cycle(formulas)]
fn formulas_at(alloc: Global, bindings: &mut Bindings, x: u32, operands: &[Linear]) -> MadeList
    requires room { x + 2 * extent_of_all (arithmetics (map arithmetic_of operands.now)) + 136 < 2 ^ 32 }
    requires few { extent_of_all (arithmetics (map arithmetic_of operands.now)) ≤ 67108864 }
    ensures made { (scope : Scope) → IsAsIn scope bindings.old →
        IfOk result (λ made. map formula_of made ≡ map (λ operand. set_form (arithmetic_of operand) scope x) operands.now) }
    ensures kept { OnOk result (IsAsIn (variable_in bindings.old) bindings.new) }
    ensures small { OnOk result (AreAllFactorsSmall (arithmetics (map arithmetic_of operands.now))) }
{
    let mut made = List::new(alloc);
    for operand in operands {
        push(&mut made, formula_at(alloc, bindings, x, operand)?)?;
    }
    Ok(made)
}
