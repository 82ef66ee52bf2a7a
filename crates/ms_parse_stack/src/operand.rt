ghost use Rattle.std.specs.Prelude.{◌≡◌, ◌≤◌, ◌∷◌, ◌++◌, [], map, IfOk};
ghost use Rattle.ms_parse_stack.specs.inner.Frames.{depth_of_each};

use crate::grammar::Grammar;
use ms_list::{List, NoMemory, push};
use std::alloc::Global;

/// A formula and its depth.
#[derive(Drop)]
pub struct Operand<G: Grammar> {
    pub formula: G::Formula,
    pub height: u32,
    ghost measured: { height ≡ G.depth (G.tree_of formula) },
    ghost bounded: { height ≤ 300 },
}

/// Formulas and the greatest of their depths.
#[derive(Drop)]
pub struct Operands<G: Grammar> {
    pub list: List<G::Formula>,
    pub height: u32,
    ghost measured: { height ≡ depth_of_each G.depth (map G.tree_of list) },
    ghost bounded: { height ≤ 300 },
}

/// The first operand of a list.
pub fn first_operand<G: Grammar>(
    alloc: Global,
    operand: Operand<G>,
) -> Result<Operands<G>, NoMemory>
    ensures { IfOk result (λ made. made.list ≡ operand.formula ∷ []) }
{
    let height = operand.height;
    let Operand { formula, .. } = operand;
    let mut list = List::new(alloc);
    push(&mut list, formula)?;
    Ok(Operands { list, height })
}

/// The operands and one more.
pub fn with_operand<G: Grammar>(
    operands: Operands<G>,
    operand: Operand<G>,
) -> Result<Operands<G>, NoMemory>
    ensures { IfOk result (λ made. made.list ≡ operands.list ++ operand.formula ∷ []) }
{
    let height = operands.height.max(operand.height);
    let Operands { mut list, .. } = operands;
    let Operand { formula, .. } = operand;
    push(&mut list, formula)?;
    Ok(Operands { list, height })
}
