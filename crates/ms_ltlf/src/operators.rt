//! The operators of time in strings. The position is the variable `x`, what an operator binds are the variables behind it, and
//! the operands stand where they were made for: at `x + 1`, or in the left operand of until and release at `x + 2`. Those that
//! `formula_at` calls are not inlined there, so that a level of a formula takes little stack.

ghost use Rattle.ms_logic.specs.Tree.{Form};
ghost use Rattle.ms_ltlf.specs.Strings.{always_at, between, eventually_at, freed_at, kept_at, next_at, release_at, until_at, weak_next_at};
ghost use Rattle.ms_translation.specs.Made.{Gives};
ghost use Rattle.std.specs.Prelude.{◌+◌, ◌<◌, ◌^◌};

use crate::atoms::{at_most, follows};
use crate::bound::{every, exists};
use ms_translation::{Made, all_hold, both_hold, either_holds, implication, less};
use std::alloc::Global;

#[inline(never)]
pub(crate) fn next(alloc: Global, x: u32, body: Made) -> Made
    requires { x + 1 < 2 ^ 32 }
    ensures { (f : Form) → Gives body f → Gives result (next_at x f) }
{
    exists(alloc, x + 1, both_hold(alloc, follows(alloc, x), body))
}

#[inline(never)]
pub(crate) fn weak_next(alloc: Global, x: u32, body: Made) -> Made
    requires { x + 1 < 2 ^ 32 }
    ensures { (f : Form) → Gives body f → Gives result (weak_next_at x f) }
{
    every(alloc, x + 1, implication(alloc, follows(alloc, x), body))
}

#[inline(never)]
pub(crate) fn eventually(alloc: Global, x: u32, body: Made) -> Made
    requires { x + 1 < 2 ^ 32 }
    ensures { (f : Form) → Gives body f → Gives result (eventually_at x f) }
{
    exists(alloc, x + 1, both_hold(alloc, Ok(at_most(x, x + 1)), body))
}

#[inline(never)]
pub(crate) fn always(alloc: Global, x: u32, body: Made) -> Made
    requires { x + 1 < 2 ^ 32 }
    ensures { (f : Form) → Gives body f → Gives result (always_at x f) }
{
    every(
        alloc,
        x + 1,
        implication(alloc, Ok(at_most(x, x + 1)), body),
    )
}

/// `x <= z & z < y`
fn between(alloc: Global, x: u32) -> Made
    requires { x + 2 < 2 ^ 32 }
    ensures { Gives result (between x) }
{
    both_hold(alloc, Ok(at_most(x, x + 2)), Ok(less(x + 2, x + 1)))
}

/// `all1 z: x <= z & z < y => left`
fn kept(alloc: Global, x: u32, left: Made) -> Made
    requires { x + 2 < 2 ^ 32 }
    ensures { (f : Form) → Gives left f → Gives result (kept_at x f) }
{
    every(alloc, x + 2, implication(alloc, between(alloc, x), left))
}

#[inline(never)]
pub(crate) fn until(alloc: Global, x: u32, left: Made, right: Made) -> Made
    requires { x + 2 < 2 ^ 32 }
    ensures { (f g : Form) → Gives left f → Gives right g → Gives result (until_at x f g) }
{
    let kept = kept(alloc, x, left);
    let there = all_hold(alloc, Ok(at_most(x, x + 1)), right, kept);
    exists(alloc, x + 1, there)
}

/// `ex1 z: x <= z & z < y & left`
fn freed(alloc: Global, x: u32, left: Made) -> Made
    requires { x + 2 < 2 ^ 32 }
    ensures { (f : Form) → Gives left f → Gives result (freed_at x f) }
{
    exists(
        alloc,
        x + 2,
        all_hold(alloc, Ok(at_most(x, x + 2)), Ok(less(x + 2, x + 1)), left),
    )
}

#[inline(never)]
pub(crate) fn release(alloc: Global, x: u32, left: Made, right: Made) -> Made
    requires { x + 2 < 2 ^ 32 }
    ensures { (f g : Form) → Gives left f → Gives right g → Gives result (release_at x f g) }
{
    let freed = freed(alloc, x, left);
    let there = either_holds(alloc, right, freed);
    every(
        alloc,
        x + 1,
        implication(alloc, Ok(at_most(x, x + 1)), there),
    )
}
