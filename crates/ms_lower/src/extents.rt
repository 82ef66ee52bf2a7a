ghost use Rattle.ms_logic_core.specs.Size.{extent_of_argument, extent_of_number, extent_of_set, extent_under, extents_of_arguments, extents_of_each, extents_of_restriction};
ghost use Rattle.ms_logic.specs.View.{argument_of, binding_of, formula_of, forms, restriction, set_term_of, term_of};
ghost use Rattle.ms_logic.specs.View.{arguments as arguments_of};
ghost use Rattle.ms_lower.specs.Counted.{counted, deepest};
ghost use Rattle.ms_lower.specs.inner.Extents.{AreExtents, known_extents};
ghost use Rattle.std.specs.Option.{option_map};
ghost use Rattle.std.specs.Prelude.{◌≡◌, ◌∷◌, [], ◌≤◌, map};

use crate::called::Extents;
use crate::counted::{Counted, NO_PARTS, above, both};
use crate::term_extents::{count_number, count_set};
use ms_list::Boxed;
use ms_logic::{Arg, Binding, Formula, Term1, Term2};

/// The size and the depth of a formula, where each call counts with the body of its predicate; or none where it is deeper
/// than a limit.
#[cycle(formulas)]
pub fn count_formula(known: &Extents, formula: &Formula, limit: u32) -> Option<Counted>
    requires known { AreExtents known.now }
    requires limit { limit ≤ deepest }
    ensures { result ≡ counted limit (extent_under (known_extents known.now) (formula_of formula.now) ∷ []) }
{
    let below = limit.checked_sub(1)?;
    match formula {
        Formula::True | Formula::False | Formula::Var(_) | Formula::Import(_) => {
            above(Some(NO_PARTS))
        }
        Formula::Not(body) | Formula::Restrict(body) | Formula::Export(_, body) => {
            above(count_formula(known, body.get(), below))
        }
        Formula::And(operands) | Formula::Or(operands) => {
            above(count_each(known, operands.slice(), below))
        }
        Formula::Implies(left, right) | Formula::Iff(left, right) => {
            let left = count_formula(known, left.get(), below);
            above(both(left, count_formula(known, right.get(), below)))
        }
        Formula::Compare(_, left, right) => above(count_numbers(left, right, below)),
        Formula::CompareSets(_, left, right) => above(count_sets(left, right, below)),
        Formula::Member(_, number, set) => above(count_member(number, set, below)),
        Formula::IsEmpty(set) => above(count_set(set, below)),
        Formula::Bind(_, _, _, domain, body) => {
            let domain = count_restriction(known, domain, below);
            above(both(domain, count_formula(known, body.get(), below)))
        }
        Formula::Let(bindings, body) => {
            let right_sides = count_bindings(known, bindings.slice(), below);
            above(both(right_sides, count_formula(known, body.get(), below)))
        }
        Formula::Call(predicate, arguments) => {
            let given = count_arguments(known, arguments.slice(), below);
            above(both(given, known.called(*predicate, below)))
        }
        Formula::Domain(predicate, _) => known.default(*predicate, limit),
    }
}

fn count_numbers(left: &Term1, right: &Term1, limit: u32) -> Option<Counted>
    ensures { result ≡ counted limit (extent_of_number (term_of left.now) ∷ extent_of_number (term_of right.now) ∷ []) }
{
    both(count_number(left, limit), count_number(right, limit))
}

fn count_sets(left: &Term2, right: &Term2, limit: u32) -> Option<Counted>
    ensures { result ≡ counted limit (extent_of_set (set_term_of left.now) ∷ extent_of_set (set_term_of right.now) ∷ []) }
{
    both(count_set(left, limit), count_set(right, limit))
}

fn count_member(number: &Term1, set: &Term2, limit: u32) -> Option<Counted>
    ensures { result ≡ counted limit (extent_of_number (term_of number.now) ∷ extent_of_set (set_term_of set.now) ∷ []) }
{
    both(count_number(number, limit), count_set(set, limit))
}

#[cycle(formulas)]
fn count_each(known: &Extents, operands: &[Formula], limit: u32) -> Option<Counted>
    requires known { AreExtents known.now }
    requires limit { limit ≤ deepest }
    ensures { result ≡ counted limit (extents_of_each (known_extents known.now) (forms (map formula_of operands.now))) }
{
    let mut counted = Some(NO_PARTS);
    for operand in operands {
        let one = count_formula(known, operand, limit)?;
        counted = both(counted, Some(one));
    }
    counted
}

/// The size and the depth of a restriction, if there is one.
#[cycle(formulas)]
pub fn count_restriction(
    known: &Extents,
    domain: &Option<Boxed<Formula>>,
    limit: u32,
) -> Option<Counted>
    requires known { AreExtents known.now }
    requires limit { limit ≤ deepest }
    ensures { result ≡ counted limit
        (extents_of_restriction (known_extents known.now) (restriction (option_map formula_of domain.now))) }
{
    match domain {
        None => Some(NO_PARTS),
        Some(formula) => count_formula(known, formula.get(), limit),
    }
}

#[cycle(formulas)]
fn count_argument(known: &Extents, argument: &Arg, limit: u32) -> Option<Counted>
    requires known { AreExtents known.now }
    requires limit { limit ≤ deepest }
    ensures { result ≡ counted limit (extent_of_argument (known_extents known.now) (argument_of argument.now) ∷ []) }
{
    match argument {
        Arg::Zero(formula) => count_formula(known, formula, limit),
        Arg::One(term) => count_number(term, limit),
        Arg::Two(set) => count_set(set, limit),
    }
}

#[cycle(formulas)]
fn count_arguments(known: &Extents, arguments: &[Arg], limit: u32) -> Option<Counted>
    requires known { AreExtents known.now }
    requires limit { limit ≤ deepest }
    ensures { result ≡ counted limit
        (extents_of_arguments (known_extents known.now) (arguments_of (map argument_of arguments.now))) }
{
    let mut counted = Some(NO_PARTS);
    for argument in arguments {
        let one = count_argument(known, argument, limit)?;
        counted = both(counted, Some(one));
    }
    counted
}

#[cycle(formulas)]
fn count_bindings(known: &Extents, bindings: &[Binding], limit: u32) -> Option<Counted>
    requires known { AreExtents known.now }
    requires limit { limit ≤ deepest }
    ensures { result ≡ counted limit
        (extents_of_arguments (known_extents known.now) (arguments_of (map (λ b. b.1) (map binding_of bindings.now)))) }
{
    let mut counted = Some(NO_PARTS);
    for binding in bindings {
        let one = count_argument(known, &binding.value, limit)?;
        counted = both(counted, Some(one));
    }
    counted
}
