ghost use Rattle.std.specs.Prelude.{◌≡◌, ◌+◌, ◌≤◌, ◌∷◌, ◌++◌, [], map, IfOk};
ghost use Rattle.ms_parse_stack.specs.inner.Frames.{filled};
ghost use Rattle.ms_parse_stack.specs.inner.Opened.{frame_of};

use crate::frame::Frame;
use crate::grammar::Grammar;
use crate::junction::Junction;
use crate::operand::{Operand, Operands, with_operand};
use ms_list::NoMemory;
use std::alloc::Global;

/// The formula with its depth, where the depth of its parts is known.
fn measured<G: Grammar>(formula: G::Formula, inside: u32) -> Operand<G>
    requires measured { G.depth (G.tree_of formula) ≡ inside + 1 }
    requires bounded { G.depth (G.tree_of formula) ≤ 300 }
    ensures { result.formula ≡ formula }
{
    Operand {
        formula,
        height: inside + 1,
    }
}

/// The operand in brackets.
pub fn complete_brackets<G: Grammar>(
    alloc: Global,
    operand: Operand<G>,
) -> Result<Operand<G>, NoMemory>
    requires { G.depth (G.machine.operators.brackets (G.tree_of operand.formula)) ≤ 300 }
    ensures { IfOk result (λ made. G.tree_of made.formula ≡ G.machine.operators.brackets (G.tree_of operand.formula)) }
{
    let inside = operand.height;
    let Operand { formula, .. } = operand;
    Ok(measured(G::brackets(alloc, formula)?, inside))
}

fn complete_prefix<G: Grammar>(
    alloc: Global,
    op: G::Prefix,
    operand: Operand<G>,
) -> Result<Operand<G>, NoMemory>
    requires { G.depth (G.machine.operators.prefixed op (G.tree_of operand.formula)) ≤ 300 }
    ensures { IfOk result (λ made. G.tree_of made.formula ≡ G.machine.operators.prefixed op (G.tree_of operand.formula)) }
{
    let inside = operand.height;
    let Operand { formula, .. } = operand;
    Ok(measured(G::prefixed(alloc, op, formula)?, inside))
}

fn complete_infix<G: Grammar>(
    alloc: Global,
    op: G::Binary,
    left: Operand<G>,
    right: Operand<G>,
) -> Result<Operand<G>, NoMemory>
    requires { G.depth (G.machine.operators.binary op (G.tree_of left.formula) (G.tree_of right.formula)) ≤ 300 }
    ensures { IfOk result (λ made. G.tree_of made.formula ≡ G.machine.operators.binary op (G.tree_of left.formula) (G.tree_of right.formula)) }
{
    let inside = left.height.max(right.height);
    let Operand { formula: left, .. } = left;
    let Operand { formula: right, .. } = right;
    Ok(measured(G::infixed(alloc, op, left, right)?, inside))
}

fn complete_joining<G: Grammar>(
    op: Junction,
    operands: Operands<G>,
    operand: Operand<G>,
) -> Result<Operand<G>, NoMemory>
    requires { G.depth (G.machine.operators.joined op (map G.tree_of operands.list ++ G.tree_of operand.formula ∷ [])) ≤ 300 }
    ensures { IfOk result (λ made. G.tree_of made.formula ≡ G.machine.operators.joined op (map G.tree_of operands.list ++ G.tree_of operand.formula ∷ [])) }
{
    let Operands { list, height } = with_operand(operands, operand)?;
    Ok(measured(G::joined(op, list), height))
}

/// The formula that a frame becomes with its last part.
pub fn complete<G: Grammar>(
    alloc: Global,
    frame: Frame<G>,
    operand: Operand<G>,
) -> Result<Operand<G>, NoMemory>
    requires { G.depth (filled G.machine.operators (frame_of G.tree_of frame) (G.tree_of operand.formula)) ≤ 300 }
    ensures { IfOk result (λ made. G.tree_of made.formula ≡ filled G.machine.operators (frame_of G.tree_of frame) (G.tree_of operand.formula)) }
{
    match frame {
        Frame::Brackets => complete_brackets(alloc, operand),
        Frame::Prefix(op) => complete_prefix(alloc, op, operand),
        Frame::Infix(op, left) => complete_infix(alloc, op, left, operand),
        Frame::Joining(op, operands) => complete_joining(op, operands, operand),
    }
}
