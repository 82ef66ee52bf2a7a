ghost use Rattle.ms_logic.specs.Tree.{numeral, number_variable, comparison};
ghost use Rattle.ms_logic.specs.View.{formula_of};
ghost use Rattle.ms_logic.specs.declared.mode.Rel.TheVariants.{Equal};
ghost use Rattle.ms_ltlf.specs.Strings.{at_most, follows};
ghost use Rattle.ms_translation.specs.Made.{Gives};
ghost use Rattle.std.specs.Prelude.{◌≡◌, ◌+◌, ◌<◌, ◌^◌};

use ms_list::on_heap;
use ms_logic::{Formula, Rel, Term1};
use ms_translation::Made;
use std::alloc::Global;

/// `y = x + 1`, where `y` is the variable behind `x`.
pub(crate) fn follows(alloc: Global, x: u32) -> Made
    requires { x + 1 < 2 ^ 32 }
    ensures { Gives result (follows x (x + 1)) }
{
    let before = on_heap(alloc, Term1::Var(x))?;
    Ok(Formula::Compare(Rel::Equal, Term1::Var(x + 1), Term1::Plus(before, 1)))
}

/// `x <= y`
pub(crate) fn at_most(x: u32, y: u32) -> Formula
    ensures { formula_of result ≡ at_most x y }
{
    Formula::Compare(Rel::AtMost, Term1::Var(x), Term1::Var(y))
}

/// `x = x`
pub(crate) fn itself(x: u32) -> Formula
    ensures { formula_of result ≡ comparison Equal (number_variable x) (number_variable x) }
{
    Formula::Compare(Rel::Equal, Term1::Var(x), Term1::Var(x))
}

/// `x = 0`
pub(crate) fn is_first(x: u32) -> Formula
    ensures { formula_of result ≡ comparison Equal (number_variable x) (numeral 0) }
{
    Formula::Compare(Rel::Equal, Term1::Var(x), Term1::Number(0))
}
