//! What connectives and exports become.

ghost use Rattle.ms_logic.specs.Tree as tree;
ghost use Rattle.ms_logic.specs.View.{argument_of, formula_of};
ghost use Rattle.ms_names_rules.specs.inner.Lists.{forms_of};
ghost use Rattle.ms_names_rules.specs.Typed.{both, formula_in, formula_of_one, formula_behind};
ghost use Rattle.std.specs.Option.{option_map};
ghost use Rattle.std.specs.Prelude.{◌≡◌, IfOk};

use crate::order::formula_in;
use crate::parts::{both_boxed, boxed, one_more};
use ms_list::{List, NoMemory};
use ms_logic::{Arg, Formula};
use std::alloc::Global;

#[inline(never)]
pub fn negation(alloc: Global, body: Option<Arg>) -> Result<Option<Arg>, NoMemory>
    ensures { IfOk result (λ made. option_map argument_of made ≡ formula_of_one (λ f. tree.negation f) (option_map argument_of body)) }
{
    let body = boxed(alloc, formula_in(body))?;
    Ok(body.map(|body| Arg::Zero(Formula::Not(body))))
}

#[inline(never)]
pub fn restriction(alloc: Global, body: Option<Arg>) -> Result<Option<Arg>, NoMemory>
    ensures { IfOk result (λ made. option_map argument_of made ≡ formula_of_one (λ f. tree.restrict f) (option_map argument_of body)) }
{
    let body = boxed(alloc, formula_in(body))?;
    Ok(body.map(|body| Arg::Zero(Formula::Restrict(body))))
}

#[inline(never)]
pub fn implication(
    alloc: Global,
    left: Option<Arg>,
    right: Option<Arg>,
) -> Result<Option<Arg>, NoMemory>
    ensures { IfOk result (λ made. option_map argument_of made ≡ both (λ f g. tree.truth_argument (tree.implication f g)) (formula_in (option_map argument_of left)) (formula_in (option_map argument_of right))) }
{
    let sides = both_boxed(alloc, formula_in(left), formula_in(right))?;
    Ok(sides.map(|(left, right)| Arg::Zero(Formula::Implies(left, right))))
}

#[inline(never)]
pub fn equivalence(
    alloc: Global,
    left: Option<Arg>,
    right: Option<Arg>,
) -> Result<Option<Arg>, NoMemory>
    ensures { IfOk result (λ made. option_map argument_of made ≡ both (λ f g. tree.truth_argument (tree.equivalence f g)) (formula_in (option_map argument_of left)) (formula_in (option_map argument_of right))) }
{
    let sides = both_boxed(alloc, formula_in(left), formula_in(right))?;
    Ok(sides.map(|(left, right)| Arg::Zero(Formula::Iff(left, right))))
}

#[inline(never)]
pub fn conjunction(operands: Option<List<Formula>>) -> Option<Arg>
    ensures { option_map argument_of result ≡ option_map (λ fs. tree.truth_argument (tree.conjunction fs)) (option_map forms_of operands) }
{
    let operands = operands?;
    Some(Arg::Zero(Formula::And(operands)))
}

#[inline(never)]
pub fn disjunction(operands: Option<List<Formula>>) -> Option<Arg>
    ensures { option_map argument_of result ≡ option_map (λ fs. tree.truth_argument (tree.disjunction fs)) (option_map forms_of operands) }
{
    let operands = operands?;
    Some(Arg::Zero(Formula::Or(operands)))
}

/// A formula behind those before it, if all are formulas.
#[inline(never)]
pub fn more_formulas(
    made: Option<List<Formula>>,
    value: Option<Arg>,
) -> Result<Option<List<Formula>>, NoMemory>
    ensures { IfOk result (λ list. option_map forms_of list ≡ both formula_behind (option_map forms_of made) (formula_in (option_map argument_of value))) }
{
    one_more(made, formula_in(value))
}

/// An export with its number, by what its formula became.
#[inline(never)]
pub fn exported(alloc: Global, number: u32, body: Option<Arg>) -> Result<Option<Arg>, NoMemory>
    ensures { IfOk result (λ value. option_map argument_of value ≡ formula_of_one (λ f. tree.exported number f) (option_map argument_of body)) }
{
    let body = boxed(alloc, formula_in(body))?;
    Ok(body.map(|body| Arg::Zero(Formula::Export(number, body))))
}
