//! What numbers and sets become that are put together of others.

ghost use Rattle.ms_logic.specs.Tree as tree;
ghost use Rattle.ms_logic.specs.View.{argument_of};
ghost use Rattle.ms_names_rules.specs.inner.Lists.{terms_of};
ghost use Rattle.ms_names_rules.specs.Typed.{both, number_in, number_of_set, set_in, moved, typed_shift, number_behind};
ghost use Rattle.std.specs.Option.{option_map};
ghost use Rattle.std.specs.Prelude.{◌≡◌, IfOk};

use crate::order::{number_in, set_in};
use crate::parts::{both_boxed, boxed, one_more};
use ms_list::{List, NoMemory, on_heap};
use ms_logic::{Arg, Term1, Term2};
use std::alloc::Global;

#[inline(never)]
pub fn minimum(alloc: Global, body: Option<Arg>) -> Result<Option<Arg>, NoMemory>
    ensures { IfOk result (λ made. option_map argument_of made ≡ number_of_set (λ s. tree.minimum s) (option_map argument_of body)) }
{
    let body = boxed(alloc, set_in(body))?;
    Ok(body.map(|body| Arg::One(Term1::Min(body))))
}

#[inline(never)]
pub fn maximum(alloc: Global, body: Option<Arg>) -> Result<Option<Arg>, NoMemory>
    ensures { IfOk result (λ made. option_map argument_of made ≡ number_of_set (λ s. tree.maximum s) (option_map argument_of body)) }
{
    let body = boxed(alloc, set_in(body))?;
    Ok(body.map(|body| Arg::One(Term1::Max(body))))
}

#[inline(never)]
pub fn union(alloc: Global, left: Option<Arg>, right: Option<Arg>) -> Result<Option<Arg>, NoMemory>
    ensures { IfOk result (λ made. option_map argument_of made ≡ both (λ s t. tree.set_argument (tree.union s t)) (set_in (option_map argument_of left)) (set_in (option_map argument_of right))) }
{
    let sides = both_boxed(alloc, set_in(left), set_in(right))?;
    Ok(sides.map(|(left, right)| Arg::Two(Term2::Union(left, right))))
}

#[inline(never)]
pub fn intersection(
    alloc: Global,
    left: Option<Arg>,
    right: Option<Arg>,
) -> Result<Option<Arg>, NoMemory>
    ensures { IfOk result (λ made. option_map argument_of made ≡ both (λ s t. tree.set_argument (tree.intersection s t)) (set_in (option_map argument_of left)) (set_in (option_map argument_of right))) }
{
    let sides = both_boxed(alloc, set_in(left), set_in(right))?;
    Ok(sides.map(|(left, right)| Arg::Two(Term2::Inter(left, right))))
}

#[inline(never)]
pub fn difference(
    alloc: Global,
    left: Option<Arg>,
    right: Option<Arg>,
) -> Result<Option<Arg>, NoMemory>
    ensures { IfOk result (λ made. option_map argument_of made ≡ both (λ s t. tree.set_argument (tree.difference s t)) (set_in (option_map argument_of left)) (set_in (option_map argument_of right))) }
{
    let sides = both_boxed(alloc, set_in(left), set_in(right))?;
    Ok(sides.map(|(left, right)| Arg::Two(Term2::Minus(left, right))))
}

/// A number behind those before it, if all are numbers.
#[inline(never)]
pub fn more_numbers(
    made: Option<List<Term1>>,
    value: Option<Arg>,
) -> Result<Option<List<Term1>>, NoMemory>
    ensures { IfOk result (λ list. option_map terms_of list ≡ both number_behind (option_map terms_of made) (number_in (option_map argument_of value))) }
{
    one_more(made, number_in(value))
}

#[inline(never)]
pub fn literal(elements: Option<List<Term1>>) -> Option<Arg>
    ensures { option_map argument_of result ≡ option_map (λ ts. tree.set_argument (tree.literal ts)) (option_map terms_of elements) }
{
    let elements = elements?;
    Some(Arg::Two(Term2::Literal(elements)))
}

/// The set of the places of the one bits of a constant, if it has a value.
#[inline(never)]
pub fn pconst(value: Option<u64>) -> Option<Arg>
    ensures { option_map argument_of result ≡ option_map (λ n. tree.set_argument (tree.pconst n)) value }
{
    let value = value?;
    Some(Arg::Two(Term2::Pconst(value)))
}

// A number or a set, moved up or down.
fn moved(alloc: Global, minus: bool, by: u64, body: Arg) -> Result<Option<Arg>, NoMemory>
    ensures { IfOk result (λ made. option_map argument_of made ≡ moved minus by (argument_of body)) }
{
    match body {
        Arg::Zero(_) => Ok(None),
        Arg::One(number) => {
            let number = on_heap(alloc, number)?;
            if minus {
                Ok(Some(Arg::One(Term1::Minus(number, by))))
            } else {
                Ok(Some(Arg::One(Term1::Plus(number, by))))
            }
        }
        Arg::Two(set) => {
            let set = on_heap(alloc, set)?;
            if minus {
                Ok(Some(Arg::Two(Term2::Down(set, by))))
            } else {
                Ok(Some(Arg::Two(Term2::Up(set, by))))
            }
        }
    }
}

#[inline(never)]
pub fn shift(
    alloc: Global,
    minus: bool,
    by: Option<u64>,
    body: Option<Arg>,
) -> Result<Option<Arg>, NoMemory>
    ensures { IfOk result (λ made. option_map argument_of made ≡ typed_shift minus by (option_map argument_of body)) }
{
    let Some(by) = by else {
        return Ok(None);
    };
    let Some(body) = body else {
        return Ok(None);
    };
    moved(alloc, minus, by, body)
}
