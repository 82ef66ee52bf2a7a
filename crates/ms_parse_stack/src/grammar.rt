ghost use Rattle.std.specs.Prelude.{◌≡◌, ◌≤◌, ℕ, map, IfOk};
ghost use Rattle.ms_parse_stack.specs.inner.Machine.{IsDepth, Machine};

use crate::junction::Junction;
use ms_list::{List, NoMemory};
use std::alloc::Global;

/// What a reader's formulas are, their operators, and the machine that reads them.
pub trait Grammar {
    type Formula: Drop;

    /// An operator before its operand.
    type Prefix: Drop;

    /// An operator between two operands.
    type Binary: Drop;

    /// The mathematical tree that a formula stands for.
    ghost Tree: { Type 0 };

    ghost tree_of: { Self.Formula → Tree };

    /// How deep the parts of a tree stand in one another.
    ghost depth: { Tree → ℕ };

    /// The places in the innermost formula.
    ghost Place: { Type 0 };

    /// The operators, what they make and their levels, and the places.
    ghost machine: { Machine Self.Prefix Self.Binary Place Tree };

    fn brackets(alloc: Global, operand: Self::Formula) -> Result<Self::Formula, NoMemory>
        ensures { IfOk result (λ made. tree_of made ≡ machine.operators.brackets (tree_of operand)) };

    fn prefixed(
        alloc: Global,
        op: Self::Prefix,
        operand: Self::Formula,
    ) -> Result<Self::Formula, NoMemory>
        ensures { IfOk result (λ made. tree_of made ≡ machine.operators.prefixed op (tree_of operand)) };

    fn infixed(
        alloc: Global,
        op: Self::Binary,
        left: Self::Formula,
        right: Self::Formula,
    ) -> Result<Self::Formula, NoMemory>
        ensures { IfOk result (λ made. tree_of made ≡ machine.operators.binary op (tree_of left) (tree_of right)) };

    fn joined(op: Junction, operands: List<Self::Formula>) -> Self::Formula
        ensures { tree_of result ≡ machine.operators.joined op (map tree_of operands) };

    /// The least level of an operand.
    fn prefix_operand(op: &Self::Prefix) -> u32
        ensures { result ≡ machine.operators.prefix_operand op.now };

    fn binary_level(op: &Self::Binary) -> u32
        ensures { result ≡ machine.operators.binary_level op.now };

    /// The least level of a left operand.
    fn left_level(op: &Self::Binary) -> u32
        ensures { result ≡ machine.operators.left_level op.now };

    fn junction_level(op: Junction) -> u32
        ensures level { result ≡ machine.operators.junction_level op }
        ensures bound { result ≤ 300 };

    ghost deep: { IsDepth machine depth };
}
