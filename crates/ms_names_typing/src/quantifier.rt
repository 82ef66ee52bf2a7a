//! What quantifiers over lists of variables become, and `let`.

ghost use Rattle.ms_logic.specs.Tree as tree;
ghost use Rattle.ms_logic.specs.View.{argument_of, binding_of, declaration_of, formula_of};
ghost use Rattle.ms_names_rules.specs.inner.Binder.{quantified_over, restricted_variable, sides_of};
ghost use Rattle.ms_names_rules.specs.Typed.{both, formula_in, of_order, typed_restriction};
ghost use Rattle.std.specs.Option.{option_and_then, option_map};
ghost use Rattle.std.specs.Prelude.{◌≡◌, ◌∷◌, ◌++◌, [], map, IfOk};

use crate::order::{formula_in, in_order};
use crate::parts::{boxed, one_more};
use ms_list::{List, NoMemory, on_heap};
use ms_logic::{Arg, Binding, Formula, Order, Param, Quant};
use std::alloc::Global;

/// A variable by what its restriction became.
#[inline(never)]
pub fn restricted(x: u32, order: Order, value: Option<Arg>) -> Option<Param>
    ensures { option_map declaration_of result ≡ option_map (restricted_variable x order) (typed_restriction (option_map argument_of value)) }
{
    let formula = formula_in(value)?;
    Some(Param {
        order,
        variable: x,
        domain: Some(formula),
    })
}

/// A variable behind those before it, if all restrictions are formulas.
#[inline(never)]
pub fn more_params(
    made: Option<Vec<Param>>,
    param: Option<Param>,
) -> Result<Option<Vec<Param>>, NoMemory>
    ensures { IfOk result (λ list. option_map (λ ps. map declaration_of ps.items) list
        ≡ both (λ front v. front ++ v ∷ []) (option_map (λ ps. map declaration_of ps.items) made) (option_map declaration_of param)) }
{
    let Some(mut list) = made else {
        return Ok(None);
    };
    let Some(param) = param else {
        return Ok(None);
    };
    match list.push(param) {
        Ok(()) => Ok(Some(list)),
        Err(_) => Err(NoMemory),
    }
}

fn quantifier(alloc: Global, quant: Quant, param: Param, body: Formula) -> Result<Formula, NoMemory>
    ensures { IfOk result (λ made. formula_of made ≡ quantified_over quant (declaration_of param ∷ []) (formula_of body)) }
{
    let Param {
        order,
        variable,
        domain,
    } = param;
    let domain = boxed(alloc, domain)?;
    Ok(Formula::Bind(quant, order, variable, domain, on_heap(alloc, body)?))
}

fn quantifiers(
    alloc: Global,
    quant: Quant,
    params: Vec<Param>,
    body: Formula,
) -> Result<Formula, NoMemory>
    ensures { IfOk result (λ made. formula_of made ≡ quantified_over quant (map declaration_of params.items) (formula_of body)) }
{
    let mut outer = params;
    let mut made = body;
    while let Some(param) = outer.pop() {
        made = quantifier(alloc, quant, param, made)?;
    }
    Ok(made)
}

/// The quantifiers of a list of variables, the first outermost, by what the restrictions and the body became.
#[inline(never)]
pub fn quantified(
    alloc: Global,
    quant: Quant,
    params: Option<Vec<Param>>,
    body: Option<Arg>,
) -> Result<Option<Arg>, NoMemory>
    ensures { IfOk result (λ value. option_map argument_of value
        ≡ option_map (λ f. tree.truth_argument f) (both (quantified_over quant) (option_map (λ ps. map declaration_of ps.items) params) (formula_in (option_map argument_of body)))) }
{
    let Some(params) = params else {
        return Ok(None);
    };
    let Some(body) = formula_in(body) else {
        return Ok(None);
    };
    Ok(Some(Arg::Zero(quantifiers(alloc, quant, params, body)?)))
}

/// A name of a `let` behind those before it, if all right sides are of the order.
#[inline(never)]
pub fn more_bindings(
    made: Option<List<Binding>>,
    x: u32,
    order: Order,
    value: Option<Arg>,
) -> Result<Option<List<Binding>>, NoMemory>
    ensures { IfOk result (λ list. option_map (map binding_of) list
        ≡ both (λ front a. front ++ (x, a) ∷ []) (option_map (map binding_of) made) (option_and_then (of_order order) (option_map argument_of value))) }
{
    let binding = in_order(order, value).map(|value| Binding { variable: x, value });
    one_more(made, binding)
}

/// A `let`, by what its right sides and its body became.
#[inline(never)]
pub fn where_let(
    alloc: Global,
    bindings: Option<List<Binding>>,
    body: Option<Arg>,
) -> Result<Option<Arg>, NoMemory>
    ensures { IfOk result (λ value. option_map argument_of value
        ≡ both (λ sides f. tree.truth_argument (tree.where_let sides.0 sides.1 f)) (option_map sides_of bindings) (formula_in (option_map argument_of body))) }
{
    let Some(bindings) = bindings else {
        return Ok(None);
    };
    let Some(body) = formula_in(body) else {
        return Ok(None);
    };
    Ok(Some(Arg::Zero(Formula::Let(bindings, on_heap(alloc, body)?))))
}
