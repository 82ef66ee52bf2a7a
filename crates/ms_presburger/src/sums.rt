//! Sums of summands, and their relations. Sets are bound at `x` and behind.

ghost use Rattle.ms_logic.specs.Tree.{Form, set_comparison, set_variable};
ghost use Rattle.ms_logic.specs.View.{set_term_of};
ghost use Rattle.ms_logic.specs.declared.mode.Rel.TheVariants.{Equal as Same};
ghost use Rattle.ms_presburger.specs.Sets.{compared, related, some_set, sum_is, term_of_summand};
ghost use Rattle.ms_translation.specs.Made.{Gives};
ghost use Rattle.std.specs.Prelude.{◌≡◌, ℕ, suc, ◌+◌, ◌*◌, ◌<◌, ◌≤◌, ◌^◌, length, IfOk};

use crate::digits::{adds, is_less};
use crate::summand::Summand;
use ms_list::{NoMemory, on_heap};
use ms_logic::{Formula, Order, Quant, Rel, Term2};
use ms_translation::{Made, both, heaped, negation};
use std::alloc::Global;

/// A summand as a set.
fn term(alloc: Global, summand: Summand) -> Result<Term2, NoMemory>
    ensures { IfOk result (λ made. set_term_of made ≡ term_of_summand summand) }
{
    match summand {
        Summand::Constant(n) => Ok(Term2::Pconst(n)),
        Summand::Shifted(x, j) => Ok(Term2::Up(on_heap(alloc, Term2::Var(x))?, j)),
    }
}

/// `y = summand`
fn is_term(alloc: Global, y: u32, summand: Summand) -> Made
    ensures { Gives result (set_comparison Same (set_variable y) (term_of_summand summand)) }
{
    let term = term(alloc, summand)?;
    Ok(Formula::CompareSets(Rel::Equal, Term2::Var(y), term))
}

/// `ex2 x where domain: body`
fn some_set(alloc: Global, x: u32, domain: Made, body: Made) -> Made
    ensures { (d f : Form) → Gives domain d → Gives body f → Gives result (some_set x d f) }
{
    let (domain, body) = both(heaped(alloc, domain), heaped(alloc, body))?;
    Ok(Formula::Bind(Quant::Ex, Order::Two, x, Some(domain), body))
}

/// `y` is the sum of the summands, which are at most 2 to the power of `levels`.
pub(crate) fn sum_is(alloc: Global, levels: u32, terms: &[Summand], y: u32, x: u32) -> Made
    requires few { length terms.now ≤ 2 ^ levels }
    requires room { x + 4 * levels + 4 < 2 ^ 32 }
    ensures { (limit : ℕ) → length terms.now ≤ suc limit → Gives result (sum_is limit terms.now y x) }
{
    if terms.is_empty() {
        return Ok(Formula::IsEmpty(Term2::Var(y)));
    }
    if terms.len() == 1 {
        return is_term(alloc, y, terms[0]);
    }
    let half = terms.len() / 2 + terms.len() % 2;
    let left = sum_is(alloc, levels - 1, &terms[..half], x, x + 2);
    let right = sum_is(alloc, levels - 1, &terms[half..], x + 2, x + 4);
    let sum = some_set(alloc, x + 2, right, adds(alloc, y, x, x + 2, x + 4));
    some_set(alloc, x, left, sum)
}

/// The relation of the numbers of two sets.
fn related(alloc: Global, rel: Rel, u: u32, v: u32, x: u32) -> Made
    requires { x + 3 < 2 ^ 32 }
    ensures { Gives result (related rel u v x) }
{
    match rel {
        Rel::Equal => Ok(Formula::CompareSets(Rel::Equal, Term2::Var(u), Term2::Var(v))),
        Rel::Differs => Ok(Formula::CompareSets(Rel::Differs, Term2::Var(u), Term2::Var(v))),
        Rel::Less => is_less(alloc, u, v, x),
        Rel::AtMost => negation(alloc, is_less(alloc, v, u, x)),
        Rel::Greater => is_less(alloc, v, u, x),
        Rel::AtLeast => negation(alloc, is_less(alloc, u, v, x)),
        Rel::Member => Ok(Formula::False),
        Rel::NotMember => Ok(Formula::False),
        Rel::Sub => Ok(Formula::False),
    }
}

/// The relation of two sums.
pub(crate) fn compared(alloc: Global, rel: Rel, left: &[Summand], right: &[Summand], x: u32) -> Made
    requires few { length left.now ≤ 2 ^ 32 }
    requires few_too { length right.now ≤ 2 ^ 32 }
    requires room { x + 136 < 2 ^ 32 }
    ensures { Gives result (compared rel left.now right.now x) }
{
    let one = sum_is(alloc, 32, left, x, x + 2);
    let other = sum_is(alloc, 32, right, x + 2, x + 4);
    let both = some_set(alloc, x + 2, other, related(alloc, rel, x, x + 2, x + 4));
    some_set(alloc, x, one, both)
}
