ghost use Rattle.std.specs.Prelude.{◌≡◌, ℕ, ◌<◌, All, IfOk, length, map};
ghost use Rattle.ms_product.specs.Pairing.{AreStates};
ghost use Rattle.ms_project.specs.Marks.{is_yes, marks_of, range_sign, empty_sign, sign_by, has_no_number, can_be_empty};
ghost use Rattle.ms_project.specs.Paired.{marks_of_pair, operands_for};
ghost use Rattle.ms_quotient.specs.Closure.{no_marks};
ghost use Rattle.ms_quotient.specs.Way.{union_along};
ghost use Rattle.ms_dfa.specs.Automaton.{variables_of};

use ms_dfa::{Automaton, Track};
use ms_diagram::{Pairs, Sets};
use ms_list::{List, NoMemory, push};
use ms_logic::{Mode, Order, Quant};
use ms_logic_words::Sign;
use ms_quotient::Marks;
use std::alloc::Global;

/// The marks of a word with these signs under the body and the domain.
fn marks_of(body: Sign, domain: Sign) -> Marks
    ensures { result ≡ marks_of body domain }
{
    let met = domain == Sign::Yes;
    Marks {
        yes: met && body == Sign::Yes,
        no: met && body == Sign::No,
        undefined: met && body == Sign::Undefined,
        encoding: body != Sign::Outside,
    }
}

/// The marks of all pairs of states.
pub(crate) fn marks_of_pairs(
    alloc: Global,
    body: &Automaton,
    domain: &Automaton,
    pairs: &Pairs,
) -> Result<List<Marks>, NoMemory>
    requires { AreStates (operands_for body.now domain.now) pairs.now }
    ensures { IfOk result (λ marks. marks ≡ map (marks_of_pair body.now domain.now) pairs.now) }
{
    let mut made = List::new(alloc);
    for number in 0..pairs.len() {
        let (left, right) = pairs.get(number);
        let marks = marks_of(body.sign(left), domain.sign(right));
        push(&mut made, marks)?;
    }
    Ok(made)
}

/// The marks of all members of a set.
fn marks_of_set(marks: &[Marks], set: &[u32]) -> Marks
    requires { All (λ member. member < length marks.now) set.now }
    ensures { result ≡ union_along marks.now set.now no_marks }
{
    let mut met = Marks::none();
    let mut left = set.len();
    while left > 0 {
        left -= 1;
        met = marks[set[left] as usize].with(met);
    }
    met
}

/// The marks of all sets.
pub(crate) fn marks_of_sets(
    alloc: Global,
    marks: &[Marks],
    sets: &Sets,
) -> Result<List<Marks>, NoMemory>
    requires { All (All (λ member. member < length marks.now)) sets.now }
    ensures { IfOk result (λ made. made ≡ map (λ set. union_along marks.now set no_marks) sets.now) }
{
    let mut made = List::new(alloc);
    for number in 0..sets.len() {
        let met = marks_of_set(marks, sets.get(number));
        push(&mut made, met)?;
    }
    Ok(made)
}

fn range_sign(quant: Quant, met: Marks) -> Sign
    ensures { result ≡ range_sign quant met }
{
    match quant {
        Quant::Ex => {
            if met.yes {
                Sign::Yes
            } else if met.no || !met.undefined {
                Sign::No
            } else {
                Sign::Undefined
            }
        }
        Quant::All => {
            if met.no {
                Sign::No
            } else if met.yes || !met.undefined {
                Sign::Yes
            } else {
                Sign::Undefined
            }
        }
    }
}

fn empty_sign(quant: Quant) -> Sign
    ensures { result ≡ empty_sign quant }
{
    match quant {
        Quant::Ex => Sign::No,
        Quant::All => Sign::Yes,
    }
}

/// The sign of a quantified body by the marks of all that is reached.
pub(crate) fn sign_by(quant: Quant, can_be_empty: bool, met: Marks) -> Sign
    ensures { result ≡ sign_by quant can_be_empty met }
{
    if met.encoding {
        range_sign(quant, met)
    } else if can_be_empty {
        empty_sign(quant)
    } else {
        Sign::Outside
    }
}

/// Whether no track is that of a number.
fn has_no_number(tracks: &[Track]) -> bool
    ensures { result ≡ has_no_number (variables_of tracks.now) }
{
    for track in tracks {
        if track.order == Order::One {
            return false;
        }
    }
    true
}

/// Whether an assignment of these tracks can leave no value to the bound variable: on the empty string.
pub(crate) fn can_be_empty(mode: Mode, tracks: &[Track]) -> bool
    ensures { result ≡ can_be_empty mode (variables_of tracks.now) }
{
    match mode {
        Mode::Ws1s => false,
        Mode::M2lStr => has_no_number(tracks),
    }
}
