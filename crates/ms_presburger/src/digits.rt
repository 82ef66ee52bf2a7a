//! Sums and orders of numbers by their digits. A set is bound at `x`, and places at the numbers between those of sets.

ghost use Rattle.ms_logic.specs.Tree.{membership, number_variable, plus, set_variable};
ghost use Rattle.ms_presburger.specs.Sets.{adds, carry_follows, digit_adds, is_less, same_behind};
ghost use Rattle.ms_translation.specs.Made.{Gives};
ghost use Rattle.std.specs.Prelude.{◌+◌, ◌<◌, ◌^◌, true};

use ms_list::on_heap;
use ms_logic::{Formula, Order, Quant, Term1, Term2};
use ms_translation::{
    Made, all_hold, both_hold, bound, equivalence, implication, is_in, less, some_hold,
};
use std::alloc::Global;

/// At `p` the digit of `y` is that of `u` and `v` with the carry `x`.
fn digit_adds(alloc: Global, y: u32, u: u32, v: u32, x: u32) -> Made
    requires { x + 3 < 2 ^ 32 }
    ensures { Gives result (digit_adds (x + 3) y u v x) }
{
    let p = x + 3;
    let carried = equivalence(alloc, Ok(is_in(p, v)), Ok(is_in(p, x)));
    let sum = equivalence(alloc, Ok(is_in(p, u)), carried);
    equivalence(alloc, Ok(is_in(p, y)), sum)
}

/// `p + 1 in x`
fn next_in(alloc: Global, p: u32, x: u32) -> Made
    ensures { Gives result (membership true (plus (number_variable p) 1) (set_variable x)) }
{
    let next = Term1::Plus(on_heap(alloc, Term1::Var(p))?, 1);
    Ok(Formula::Member(true, next, Term2::Var(x)))
}

/// The carry behind `p` is there where two of the three digits at `p` are.
fn carry_follows(alloc: Global, u: u32, v: u32, x: u32) -> Made
    requires { x + 3 < 2 ^ 32 }
    ensures { Gives result (carry_follows (x + 3) u v x) }
{
    let p = x + 3;
    let both = both_hold(alloc, Ok(is_in(p, u)), Ok(is_in(p, v)));
    let left = both_hold(alloc, Ok(is_in(p, u)), Ok(is_in(p, x)));
    let right = both_hold(alloc, Ok(is_in(p, v)), Ok(is_in(p, x)));
    let two = some_hold(alloc, both, left, right);
    equivalence(alloc, next_in(alloc, p, x), two)
}

/// `y = u + v`, where `x` is the set of carries.
pub(crate) fn adds(alloc: Global, y: u32, u: u32, v: u32, x: u32) -> Made
    requires { x + 3 < 2 ^ 32 }
    ensures { Gives result (adds y u v x) }
{
    let digit = digit_adds(alloc, y, u, v, x);
    let each = both_hold(alloc, digit, carry_follows(alloc, u, v, x));
    let each = bound(alloc, Quant::All, Order::One, x + 3, each);
    let first = Formula::Member(false, Term1::Number(0), Term2::Var(x));
    let carries = both_hold(alloc, Ok(first), each);
    bound(alloc, Quant::Ex, Order::Two, x, carries)
}

/// Behind `p` the sets `u` and `v` have the same places, where `q` is each of them.
fn same_behind(alloc: Global, p: u32, q: u32, u: u32, v: u32) -> Made
    ensures { Gives result (same_behind p q u v) }
{
    let same = equivalence(alloc, Ok(is_in(q, u)), Ok(is_in(q, v)));
    let each = implication(alloc, Ok(less(p, q)), same);
    bound(alloc, Quant::All, Order::One, q, each)
}

/// `u < v`
pub(crate) fn is_less(alloc: Global, u: u32, v: u32, x: u32) -> Made
    requires { x + 3 < 2 ^ 32 }
    ensures { Gives result (is_less u v x) }
{
    let p = x + 1;
    let lacks = Formula::Member(false, Term1::Var(p), Term2::Var(u));
    let same = same_behind(alloc, p, x + 3, u, v);
    let last = all_hold(alloc, Ok(is_in(p, v)), Ok(lacks), same);
    bound(alloc, Quant::Ex, Order::One, p, last)
}
