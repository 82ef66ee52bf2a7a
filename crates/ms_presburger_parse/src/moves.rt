//! What single symbols do within the innermost formula.

ghost use Rattle.std.specs.Prelude.{◌≡◌, IsUtf8, IfOk};
ghost use Rattle.ms_presburger.specs.Tree.{depth};
ghost use Rattle.ms_presburger.specs.View.{arithmetic_of};
ghost use Rattle.ms_presburger_parse.specs.Grammar.{compares};
ghost use Rattle.ms_presburger_parse.specs.inner.Machine.{operand, times, with_comma, with_leaf, with_name, with_number, with_plus, with_quantifier, with_relation};
ghost use Rattle.ms_presburger_parse.specs.inner.States.{HasOperand, MovesTo, place_of, side_of};

use crate::frame::Operand;
use crate::place::{Place, Side};
use ms_list::{List, Name, NoMemory, push};
use ms_logic::{Quant, Rel};
use ms_parse_stack::Stop;
use ms_presburger::{Linear, Part};
use std::alloc::Global;
use std::str;

pub fn with_number(alloc: Global, place: Place, number: u64) -> Result<Place, Stop>
    ensures { MovesTo (with_number number (place_of place)) result }
{
    match place {
        Place::Wanted => {
            let before = List::new(alloc);
            Ok(Place::Added(Side::Left, before, Part::Number(number)))
        }
        Place::Adding(side, parts) => Ok(Place::Added(side, parts, Part::Number(number))),
        Place::Naming(..) => Err(Stop::Misplaced),
        Place::Named(..) => Err(Stop::Misplaced),
        Place::Added(..) => Err(Stop::Misplaced),
        Place::Holding(_) => Err(Stop::Misplaced),
    }
}

/// A name behind the last part is multiplied with it, where it is a number.
fn times(side: Side, before: List<Part>, name: Name, last: Part) -> Result<Place, Stop>
    ensures { MovesTo (times (side_of side) before name last) result }
{
    match last {
        Part::Number(number) => Ok(Place::Added(side, before, Part::Times(number, name))),
        Part::Var(_) => Err(Stop::Misplaced),
        Part::Times(..) => Err(Stop::Misplaced),
    }
}

/// One more name behind a quantifier.
fn one_more(quant: Quant, names: List<Name>, name: Name) -> Result<Place, Stop>
    ensures { MovesTo (with_name name (place_of (Place.Naming quant names))) result }
{
    let mut names = names;
    push(&mut names, name)?;
    Ok(Place::Named(quant, names))
}

fn with_name(alloc: Global, place: Place, name: Name) -> Result<Place, Stop>
    ensures { MovesTo (with_name name (place_of place)) result }
{
    match place {
        Place::Wanted => {
            let before = List::new(alloc);
            Ok(Place::Added(Side::Left, before, Part::Var(name)))
        }
        Place::Naming(quant, names) => one_more(quant, names, name),
        Place::Adding(side, parts) => Ok(Place::Added(side, parts, Part::Var(name))),
        Place::Added(side, before, last) => times(side, before, name, last),
        Place::Named(..) => Err(Stop::Misplaced),
        Place::Holding(_) => Err(Stop::Misplaced),
    }
}

fn name_of(alloc: Global, slice: &[u8]) -> Result<Name, NoMemory>
    requires { IsUtf8 slice.now }
    ensures { IfOk result (λ made. made ≡ slice.now) }
{
    let Ok(text) = str::from_utf8(slice) else {
        unreachable!()
    };
    match Name::new(alloc, text) {
        Ok(name) => Ok(name),
        Err(_) => Err(NoMemory),
    }
}

/// The name with these bytes.
pub fn read_name(alloc: Global, place: Place, slice: &[u8]) -> Result<Place, Stop>
    requires { IsUtf8 slice.now }
    ensures { MovesTo (with_name slice.now (place_of place)) result }
{
    let name = name_of(alloc, slice)?;
    with_name(alloc, place, name)
}

pub fn with_plus(place: Place) -> Result<Place, Stop>
    ensures { MovesTo (with_plus (place_of place)) result }
{
    match place {
        Place::Added(side, before, last) => {
            let mut parts = before;
            push(&mut parts, last)?;
            Ok(Place::Adding(side, parts))
        }
        Place::Wanted => Err(Stop::Misplaced),
        Place::Naming(..) => Err(Stop::Misplaced),
        Place::Named(..) => Err(Stop::Misplaced),
        Place::Adding(..) => Err(Stop::Misplaced),
        Place::Holding(_) => Err(Stop::Misplaced),
    }
}

/// A relation behind a left sum.
fn compare(
    alloc: Global,
    side: Side,
    before: List<Part>,
    last: Part,
    rel: Rel,
) -> Result<Place, Stop>
    ensures { MovesTo (with_relation rel (place_of (Place.Added side before last))) result }
{
    match side {
        Side::Left => {
            if !compares(rel) {
                return Err(Stop::Misplaced);
            }
            let mut left = before;
            push(&mut left, last)?;
            let parts = List::new(alloc);
            Ok(Place::Adding(Side::Right(rel, left), parts))
        }
        Side::Right(..) => Err(Stop::Misplaced),
    }
}

/// Whether a relation is one of numbers that can be written.
fn compares(rel: Rel) -> bool
    ensures { result ≡ compares rel }
{
    match rel {
        Rel::Equal => true,
        Rel::Differs => true,
        Rel::Less => true,
        Rel::AtMost => true,
        Rel::Greater => true,
        Rel::AtLeast => true,
        Rel::Member => false,
        Rel::NotMember => false,
        Rel::Sub => false,
    }
}

pub fn with_relation(alloc: Global, place: Place, rel: Rel) -> Result<Place, Stop>
    ensures { MovesTo (with_relation rel (place_of place)) result }
{
    match place {
        Place::Added(side, before, last) => compare(alloc, side, before, last, rel),
        Place::Wanted => Err(Stop::Misplaced),
        Place::Naming(..) => Err(Stop::Misplaced),
        Place::Named(..) => Err(Stop::Misplaced),
        Place::Adding(..) => Err(Stop::Misplaced),
        Place::Holding(_) => Err(Stop::Misplaced),
    }
}

pub fn with_quantifier(alloc: Global, place: Place, quant: Quant) -> Result<Place, Stop>
    ensures { MovesTo (with_quantifier quant (place_of place)) result }
{
    match place {
        Place::Wanted => {
            let names = List::new(alloc);
            Ok(Place::Naming(quant, names))
        }
        Place::Naming(..) => Err(Stop::Misplaced),
        Place::Named(..) => Err(Stop::Misplaced),
        Place::Adding(..) => Err(Stop::Misplaced),
        Place::Added(..) => Err(Stop::Misplaced),
        Place::Holding(_) => Err(Stop::Misplaced),
    }
}

pub fn with_comma(place: Place) -> Result<Place, Stop>
    ensures { MovesTo (with_comma (place_of place)) result }
{
    match place {
        Place::Named(quant, names) => Ok(Place::Naming(quant, names)),
        Place::Wanted => Err(Stop::Misplaced),
        Place::Naming(..) => Err(Stop::Misplaced),
        Place::Adding(..) => Err(Stop::Misplaced),
        Place::Added(..) => Err(Stop::Misplaced),
        Place::Holding(_) => Err(Stop::Misplaced),
    }
}

/// A formula of one symbol.
pub fn with_leaf(place: Place, formula: Linear) -> Result<Place, Stop>
    requires { depth (arithmetic_of formula) ≡ 1 }
    ensures { MovesTo (with_leaf (arithmetic_of formula) (place_of place)) result }
{
    match place {
        Place::Wanted => Ok(Place::Holding(Operand { formula, height: 1 })),
        Place::Naming(..) => Err(Stop::Misplaced),
        Place::Named(..) => Err(Stop::Misplaced),
        Place::Adding(..) => Err(Stop::Misplaced),
        Place::Added(..) => Err(Stop::Misplaced),
        Place::Holding(_) => Err(Stop::Misplaced),
    }
}

/// The comparison of two sums, where the right one is read.
fn comparison(side: Side, before: List<Part>, last: Part) -> Result<Operand, Stop>
    ensures { HasOperand (operand (place_of (Place.Added side before last))) result }
{
    match side {
        Side::Left => Err(Stop::Misplaced),
        Side::Right(rel, left) => {
            let mut right = before;
            push(&mut right, last)?;
            Ok(Operand {
                formula: Linear::Compare(rel, left, right),
                height: 2,
            })
        }
    }
}

/// The formula that has been read, if it may end here.
pub fn operand_of(place: Place) -> Result<Operand, Stop>
    ensures { HasOperand (operand (place_of place)) result }
{
    match place {
        Place::Holding(operand) => Ok(operand),
        Place::Added(side, before, last) => comparison(side, before, last),
        Place::Wanted => Err(Stop::Misplaced),
        Place::Naming(..) => Err(Stop::Misplaced),
        Place::Named(..) => Err(Stop::Misplaced),
        Place::Adding(..) => Err(Stop::Misplaced),
    }
}
