//! Atoms of number variables and set variables.

ghost use Rattle.ms_logic.specs.View.{formula_of};
ghost use Rattle.ms_translation.specs.Parts.{is_in, less};
ghost use Rattle.std.specs.Prelude.{◌≡◌};

use ms_logic::{Formula, Rel, Term1, Term2};

/// `x < y`
pub fn less(x: u32, y: u32) -> Formula
    ensures { formula_of result ≡ less x y }
{
    Formula::Compare(Rel::Less, Term1::Var(x), Term1::Var(y))
}

/// `x in s`
pub fn is_in(x: u32, s: u32) -> Formula
    ensures { formula_of result ≡ is_in x s }
{
    Formula::Member(true, Term1::Var(x), Term2::Var(s))
}
