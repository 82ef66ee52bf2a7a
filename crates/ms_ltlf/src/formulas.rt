ghost use Rattle.ms_logic.specs.View.{formula_of};
ghost use Rattle.ms_ltlf.specs.Tree.{depth, depth_of_all};
ghost use Rattle.ms_ltlf.specs.View.{temporal_of, temporals};
ghost use Rattle.ms_ltlf.specs.Strings.{string_form};
ghost use Rattle.ms_translation.specs.Made.{Gives};
ghost use Rattle.std.specs.Prelude.{◌≡◌, ◌+◌, ◌*◌, ◌<◌, ◌^◌, map, IfOk};

use crate::operators::{always, eventually, next, release, until, weak_next};
use crate::trace::Ltl;
use ms_list::{List, push};
use ms_logic::Formula;
use ms_translation::{
    Made, MadeList, conjunction, disjunction, equivalence, implication, is_in, negation,
};
use std::alloc::Global;

/// What a formula says of the position for which the variable `x` stands.
#[cycle(formulas)]
pub(crate) fn formula_at(alloc: Global, formula: &Ltl, x: u32) -> Made
    requires { x + 2 * depth (temporal_of formula.now) < 2 ^ 32 }
    ensures { Gives result (string_form (temporal_of formula.now) x) }
{
    match formula {
        Ltl::True => Ok(Formula::True),
        Ltl::False => Ok(Formula::False),
        Ltl::Prop(proposition) => Ok(is_in(x, *proposition)),
        Ltl::Paren(body) => formula_at(alloc, body.get(), x),
        Ltl::Not(body) => negation(alloc, formula_at(alloc, body.get(), x)),
        Ltl::Next(body) => next(alloc, x, formula_at(alloc, body.get(), x + 1)),
        Ltl::WeakNext(body) => weak_next(alloc, x, formula_at(alloc, body.get(), x + 1)),
        Ltl::Eventually(body) => eventually(alloc, x, formula_at(alloc, body.get(), x + 1)),
        Ltl::Always(body) => always(alloc, x, formula_at(alloc, body.get(), x + 1)),
        Ltl::And(operands) => conjunction(formulas_at(alloc, operands.slice(), x)),
        Ltl::Or(operands) => disjunction(formulas_at(alloc, operands.slice(), x)),
        Ltl::Implies(left, right) => {
            let left = formula_at(alloc, left.get(), x);
            implication(alloc, left, formula_at(alloc, right.get(), x))
        }
        Ltl::Iff(left, right) => {
            let left = formula_at(alloc, left.get(), x);
            equivalence(alloc, left, formula_at(alloc, right.get(), x))
        }
        Ltl::Until(left, right) => {
            let left = formula_at(alloc, left.get(), x + 2);
            until(alloc, x, left, formula_at(alloc, right.get(), x + 1))
        }
        Ltl::Release(left, right) => {
            let left = formula_at(alloc, left.get(), x + 2);
            release(alloc, x, left, formula_at(alloc, right.get(), x + 1))
        }
    }
}

/// The same for each formula of a list.
#[cycle(formulas)]
fn formulas_at(alloc: Global, operands: &[Ltl], x: u32) -> MadeList
    requires { x + 2 * depth_of_all (temporals (map temporal_of operands.now)) < 2 ^ 32 }
    ensures { IfOk result (λ made. map formula_of made ≡ map (λ operand. string_form (temporal_of operand) x) operands.now) }
{
    let mut made = List::new(alloc);
    for operand in operands {
        push(&mut made, formula_at(alloc, operand, x)?)?;
    }
    Ok(made)
}
