//! Quantifiers over positions.

ghost use Rattle.ms_logic.specs.Tree.{Form};
ghost use Rattle.ms_ltlf.specs.Strings.{every, exists};
ghost use Rattle.ms_translation.specs.Made.{Gives};

use ms_logic::{Order, Quant};
use ms_translation::{Made, bound};
use std::alloc::Global;

/// `ex1 x: body`
pub(crate) fn exists(alloc: Global, x: u32, body: Made) -> Made
    ensures { (f : Form) → Gives body f → Gives result (exists x f) }
{
    bound(alloc, Quant::Ex, Order::One, x, body)
}

/// `all1 x: body`
pub(crate) fn every(alloc: Global, x: u32, body: Made) -> Made
    ensures { (f : Form) → Gives body f → Gives result (every x f) }
{
    bound(alloc, Quant::All, Order::One, x, body)
}
