ghost use Rattle.ms_logic_core.specs.CoreForm.{basic, core_form_of, core_restriction, implication, negation, quantified};
ghost use Rattle.ms_logic_core.specs.Spread.{both_of, either_of, is_minus, is_only_member, is_whole};
ghost use Rattle.std.specs.Option.{option_map};
ghost use Rattle.std.specs.Prelude.{◌≡◌, ◌∷◌, [], IfOk};

use crate::made::Made;
use ms_list::{Boxed, List, NoMemory, on_heap, push};
use ms_logic::{Order, Quant};
use ms_logic_core::{Basic, Core};
use std::alloc::Global;

/// A basic relation.
pub fn relation(alloc: Global, relation: Basic) -> Made
    ensures { IfOk result (λ core. core_form_of core ≡ basic relation) }
{
    let core = Core::Basic(relation);
    Ok(on_heap(alloc, core)?)
}

/// `~`
pub fn not(alloc: Global, body: Boxed<Core>) -> Made
    ensures { IfOk result (λ core. core_form_of core ≡ negation (core_form_of body)) }
{
    let core = Core::Not(body);
    Ok(on_heap(alloc, core)?)
}

/// `=>`
pub fn implies(alloc: Global, left: Boxed<Core>, right: Boxed<Core>) -> Made
    ensures { IfOk result (λ core. core_form_of core ≡ implication (core_form_of left) (core_form_of right)) }
{
    let core = Core::Implies(left, right);
    Ok(on_heap(alloc, core)?)
}

/// A list with nothing in it, which has room for so many items.
pub fn with_room<T>(alloc: Global, count: usize) -> Result<List<T>, NoMemory>
    ensures { IfOk result (λ list. list ≡ []) }
{
    match Vec::with_capacity(alloc, count) {
        Ok(items) => Ok(List::from(items)),
        Err(_) => Err(NoMemory),
    }
}

fn two<T: Drop>(alloc: Global, first: Boxed<T>, second: Boxed<T>) -> Result<List<T>, NoMemory>
    ensures { IfOk result (λ list. list ≡ first ∷ second ∷ []) }
{
    let mut list = with_room(alloc, 2)?;
    push(&mut list, first.into_inner())?;
    push(&mut list, second.into_inner())?;
    Ok(list)
}

/// `&` of two formulas.
pub fn and(alloc: Global, left: Boxed<Core>, right: Boxed<Core>) -> Made
    ensures { IfOk result (λ core. core_form_of core ≡ both_of (core_form_of left) (core_form_of right)) }
{
    let core = Core::And(two(alloc, left, right)?);
    Ok(on_heap(alloc, core)?)
}

/// `|` of two formulas.
pub fn or(alloc: Global, left: Boxed<Core>, right: Boxed<Core>) -> Made
    ensures { IfOk result (λ core. core_form_of core ≡ either_of (core_form_of left) (core_form_of right)) }
{
    let core = Core::Or(two(alloc, left, right)?);
    Ok(on_heap(alloc, core)?)
}

/// A variable of an order with a number.
#[derive(Clone, Copy)]
pub struct Bound {
    pub quant: Quant,
    pub order: Order,
    pub number: u32,
}

/// A quantifier.
pub fn quantify(alloc: Global, bound: Bound, domain: Option<Boxed<Core>>, body: Boxed<Core>) -> Made
    ensures { IfOk result (λ core. core_form_of core
        ≡ quantified bound.quant bound.order bound.number (core_restriction (option_map core_form_of domain)) (core_form_of body)) }
{
    let core = Core::Bind(bound.quant, bound.order, bound.number, domain, body);
    Ok(on_heap(alloc, core)?)
}
