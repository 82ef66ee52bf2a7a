//! Formulas from their parts, where these were made. Those that a translation calls at each level of a formula are not inlined
//! there, so that a level takes little stack.

ghost use Rattle.ms_logic.specs.Tree.{Form, conjunction, disjunction, equivalence, implication, negation, quantified, restrict, unrestricted};
ghost use Rattle.ms_logic.specs.View.{forms};
ghost use Rattle.ms_translation.specs.Made.{GiveAll, Gives};
ghost use Rattle.ms_translation.specs.Parts.{three, two};
ghost use Rattle.std.specs.Prelude.{◌∷◌, ◌++◌, [], IsOk, OnOk, List as Sequence};

use crate::made::{Made, MadeList, both, heaped};
use ms_list::{List, push};
use ms_logic::{Formula, Order, Quant};
use std::alloc::Global;

/// `~body`
#[inline(never)]
pub fn negation(alloc: Global, body: Made) -> Made
    ensures { (f : Form) → Gives body f → Gives result (negation f) }
{
    Ok(Formula::Not(heaped(alloc, body)?))
}

/// `restrict (body)`
pub fn restriction(alloc: Global, body: Made) -> Made
    ensures { (f : Form) → Gives body f → Gives result (restrict f) }
{
    Ok(Formula::Restrict(heaped(alloc, body)?))
}

/// `left => right`
#[inline(never)]
pub fn implication(alloc: Global, left: Made, right: Made) -> Made
    ensures { (f g : Form) → Gives left f → Gives right g → Gives result (implication f g) }
{
    let (left, right) = both(heaped(alloc, left), heaped(alloc, right))?;
    Ok(Formula::Implies(left, right))
}

/// `left <=> right`
#[inline(never)]
pub fn equivalence(alloc: Global, left: Made, right: Made) -> Made
    ensures { (f g : Form) → Gives left f → Gives right g → Gives result (equivalence f g) }
{
    let (left, right) = both(heaped(alloc, left), heaped(alloc, right))?;
    Ok(Formula::Iff(left, right))
}

/// The variable `x` bound with no restriction.
pub fn bound(alloc: Global, quant: Quant, order: Order, x: u32, body: Made) -> Made
    ensures { (f : Form) → Gives body f → Gives result (quantified quant order x unrestricted f) }
{
    let body = heaped(alloc, body)?;
    Ok(Formula::Bind(quant, order, x, None, body))
}

/// The conjunction of the operands.
#[inline(never)]
pub fn conjunction(operands: MadeList) -> Made
    ensures { (fs : Sequence Form) → GiveAll operands fs → Gives result (conjunction (forms fs)) }
{
    Ok(Formula::And(operands?))
}

/// The disjunction of the operands.
#[inline(never)]
pub fn disjunction(operands: MadeList) -> Made
    ensures { (fs : Sequence Form) → GiveAll operands fs → Gives result (disjunction (forms fs)) }
{
    Ok(Formula::Or(operands?))
}

/// The operands with one more behind them.
fn with(operands: MadeList, last: Made) -> MadeList
    ensures given { (fs : Sequence Form) (f : Form) → GiveAll operands fs → Gives last f → GiveAll result (fs ++ f ∷ []) }
    ensures made { OnOk result (IsOk last) }
{
    let (mut operands, last) = both(operands, last)?;
    push(&mut operands, last)?;
    Ok(operands)
}

/// One formula as a list.
pub fn single(alloc: Global, only: Made) -> MadeList
    ensures given { (f : Form) → Gives only f → GiveAll result (f ∷ []) }
    ensures made { OnOk result (IsOk only) }
{
    with(Ok(List::new(alloc)), only)
}

/// Two formulas as a list.
pub fn pair(alloc: Global, one: Made, other: Made) -> MadeList
    ensures { (f g : Form) → Gives one f → Gives other g → GiveAll result (f ∷ g ∷ []) }
{
    with(with(Ok(List::new(alloc)), one), other)
}

/// `one & other`
pub fn both_hold(alloc: Global, one: Made, other: Made) -> Made
    ensures { (f g : Form) → Gives one f → Gives other g → Gives result (conjunction (two f g)) }
{
    conjunction(pair(alloc, one, other))
}

/// `one & other & third`
pub fn all_hold(alloc: Global, one: Made, other: Made, third: Made) -> Made
    ensures { (f g h : Form) → Gives one f → Gives other g → Gives third h → Gives result (conjunction (three f g h)) }
{
    conjunction(with(pair(alloc, one, other), third))
}

/// `one | other`
pub fn either_holds(alloc: Global, one: Made, other: Made) -> Made
    ensures { (f g : Form) → Gives one f → Gives other g → Gives result (disjunction (two f g)) }
{
    disjunction(pair(alloc, one, other))
}

/// `one | other | third`
pub fn some_hold(alloc: Global, one: Made, other: Made, third: Made) -> Made
    ensures { (f g h : Form) → Gives one f → Gives other g → Gives third h → Gives result (disjunction (three f g h)) }
{
    disjunction(with(pair(alloc, one, other), third))
}
