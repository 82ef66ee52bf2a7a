ghost use Rattle.std.specs.Prelude.{◌≡◌, ◌≤◌, ◌⊎◌, [], length, All as Each, IfOk};
ghost use Rattle.std.specs.List.Sorted.{IsStrictlyIncreasing};
ghost use Rattle.ms_dfa_explore.specs.Explored.{OnRefused};
ghost use Rattle.ms_logic_words.specs.Residual.{HaveEqualSigns, IsLeast};
ghost use Rattle.ms_build.specs.Built.{AreBuiltFor, AreReadSomewhere, AreReadable, IsLimit, IsManyOf, IsNegationOf, IsPairOf, IsReadSomewhere, IsRestrictionOf, IsThere, IsWithin, op_of};
ghost use Rattle.ms_build.specs.Short.{ManyLacks, PairLacks};

use crate::children::{brought, least};
use crate::plan::{Many, Plan};
use ms_basic::constant;
use ms_dag::Child;
use ms_dfa::Automaton;
use ms_list::{List, NoMemory, StepFault};
use ms_product::{Op, combine, negate, restrict_to};

/// The connective of two children.
pub(crate) fn pair(
    plan: &Plan,
    built: &[Automaton],
    left: &Child,
    right: &Child,
    op: Op,
) -> Result<Automaton, StepFault>
    requires limit { IsLimit plan.now.limit }
    requires built { AreBuiltFor plan.now built.now }
    requires left { IsThere plan.now (length built.now) left.now.node }
    requires right { IsThere plan.now (length built.now) right.now.node }
    requires read { AreReadSomewhere plan.now left.now right.now }
    requires left_rises { IsStrictlyIncreasing left.now.map }
    requires right_rises { IsStrictlyIncreasing right.now.map }
    ensures pair { IfOk result (IsPairOf plan.now op left.now right.now) }
    ensures within { IfOk result (IsWithin plan.now.limit) }
    ensures nodes { OnRefused result (λ refused. PairLacks plan.now op left.now right.now) }
{
    let Ok(one) = brought(plan, built, left) else {
        return Err(StepFault::Memory);
    };
    let Ok(other) = brought(plan, built, right) else {
        return Err(StepFault::Memory);
    };
    // The states tell that these are automata.
    let _ = one.states();
    let _ = other.states();
    combine(plan.alloc, &one, &other, op, plan.limit)
}

/// The negation of a child.
pub(crate) fn negation(
    plan: &Plan,
    built: &[Automaton],
    child: &Child,
) -> Result<Automaton, StepFault>
    requires limit { IsLimit plan.now.limit }
    requires built { AreBuiltFor plan.now built.now }
    requires there { IsThere plan.now (length built.now) child.now.node }
    requires read { IsReadSomewhere plan.now child.now }
    requires rising { IsStrictlyIncreasing child.now.map }
    ensures negation { IfOk result (IsNegationOf plan.now child.now) }
    ensures within { IfOk result (IsWithin plan.now.limit) }
    ensures nodes { OnRefused result (λ refused. ⊥) }
{
    let Ok(part) = brought(plan, built, child) else {
        return Err(StepFault::Memory);
    };
    // The states tell that it is an automaton.
    let _ = part.states();
    match negate(plan.alloc, &part) {
        Ok(made) => Ok(made),
        Err(_) => Err(StepFault::Memory),
    }
}

/// A child as a restriction.
pub(crate) fn restriction(
    plan: &Plan,
    built: &[Automaton],
    child: &Child,
) -> Result<Automaton, StepFault>
    requires limit { IsLimit plan.now.limit }
    requires built { AreBuiltFor plan.now built.now }
    requires there { IsThere plan.now (length built.now) child.now.node }
    requires read { IsReadSomewhere plan.now child.now }
    requires rising { IsStrictlyIncreasing child.now.map }
    ensures restriction { IfOk result (IsRestrictionOf plan.now child.now) }
    ensures within { IfOk result (IsWithin plan.now.limit) }
    ensures nodes { OnRefused result (λ refused. ⊥) }
{
    let Ok(part) = brought(plan, built, child) else {
        return Err(StepFault::Memory);
    };
    // The states tell that it is an automaton.
    let _ = part.states();
    match restrict_to(plan.alloc, &part) {
        Ok(made) => Ok(made),
        Err(_) => Err(StepFault::Memory),
    }
}

/// The connective of two that is behind one of many.
fn op_of(many: Many) -> Op
    ensures { result ≡ op_of many }
{
    match many {
        Many::All => Op::And,
        Many::Any => Op::Or,
    }
}

/// The connective of no children: a conjunction of none holds, and a disjunction does not.
fn none(plan: &Plan, many: Many) -> Result<Automaton, NoMemory>
    ensures many { IfOk result (IsManyOf plan.now many []) }
    ensures few { IfOk result (IsWithin 16) }
{
    let holds = match many {
        Many::All => true,
        Many::Any => false,
    };
    constant(plan.alloc, holds, plan.mode)
}

/// The connective of the first children, of which there are so many, with fewest states. A child alone has fewest states as it
/// is.
fn of_first(plan: &Plan, made: Automaton, count: usize) -> Result<Automaton, NoMemory>
    requires limit { IsLimit plan.now.limit }
    requires within { IsWithin plan.now.limit made }
    ensures same { IfOk result (λ few. count ≡ 1 → few ≡ made) }
    ensures mode { IfOk result (λ few. few.mode ≡ made.mode) }
    ensures variables { IfOk result (λ few. few.variables ≡ made.variables) }
    ensures signs { IfOk result (HaveEqualSigns made) }
    ensures least { IfOk result (λ few. ¬ (count ≡ 1) → IsLeast few) }
{
    if count == 1 {
        return Ok(made);
    }
    least(plan, &made)
}

/// The connective of these children, of which there are some, from the left. That of the first ones has fewest states.
fn some(
    plan: &Plan,
    built: &[Automaton],
    children: &List<Child>,
    many: Many,
) -> Result<Automaton, StepFault>
    requires limit { IsLimit plan.now.limit }
    requires built { AreBuiltFor plan.now built.now }
    requires some { 1 ≤ length children.now }
    requires readable { AreReadable plan.now built.now children.now }
    requires rising { Each (λ child. IsStrictlyIncreasing child.map) children.now }
    ensures many { IfOk result (IsManyOf plan.now many children.now) }
    ensures within { IfOk result (IsWithin plan.now.limit) }
    ensures nodes { OnRefused result (λ refused. ManyLacks plan.now many children.now) }
{
    let Ok(mut made) = brought(plan, built, children.get(0)) else {
        return Err(StepFault::Memory);
    };
    for place in 1..children.len() {
        let Ok(next) = brought(plan, built, children.get(place)) else {
            return Err(StepFault::Memory);
        };
        let Ok(first) = of_first(plan, made, place) else {
            return Err(StepFault::Memory);
        };
        // The states tell that these are automata.
        let _ = first.states();
        let _ = next.states();
        made = combine(plan.alloc, &first, &next, op_of(many), plan.limit)?;
    }
    Ok(made)
}

/// The connective of these children.
pub(crate) fn many(
    plan: &Plan,
    built: &[Automaton],
    children: &List<Child>,
    many: Many,
) -> Result<Automaton, StepFault>
    requires limit { IsLimit plan.now.limit }
    requires built { AreBuiltFor plan.now built.now }
    requires readable { AreReadable plan.now built.now children.now }
    requires rising { Each (λ child. IsStrictlyIncreasing child.map) children.now }
    ensures many { IfOk result (IsManyOf plan.now many children.now) }
    ensures within { IfOk result (λ made. IsWithin plan.now.limit made ⊎ IsWithin 16 made) }
    ensures nodes { OnRefused result (λ refused. ManyLacks plan.now many children.now) }
{
    if !children.is_empty() {
        return some(plan, built, children, many);
    }
    match none(plan, many) {
        Ok(made) => Ok(made),
        Err(NoMemory) => Err(StepFault::Memory),
    }
}
