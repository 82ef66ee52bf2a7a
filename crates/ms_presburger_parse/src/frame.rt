ghost use Rattle.std.specs.Prelude.{◌≡◌, map};
ghost use Rattle.ms_presburger.specs.Tree.{Arithmetic, depth};
ghost use Rattle.ms_presburger.specs.View.{arithmetic_of};
ghost use Rattle.ms_presburger_parse.specs.inner.Machine.{Place, machine, operators};
ghost use Rattle.ms_presburger_parse.specs.inner.Deep.{deep};

use crate::operator::{Binary, Junction, Prefix};
use ms_list::{List, NoMemory, on_heap};
use ms_parse_stack as stacks;
use ms_parse_stack::Grammar;
use ms_presburger::Linear;
use std::alloc::Global;

/// The grammar of linear arithmetic.
pub struct LinearArithmetic;

impl Grammar for LinearArithmetic {
    type Formula = Linear;

    type Prefix = Prefix;

    type Binary = Binary;

    ghost Tree = { Arithmetic };

    ghost tree_of = { arithmetic_of };

    ghost depth = { depth };

    ghost Place = { Place };

    ghost machine = { machine };

    ghost deep = { deep };

    fn brackets(alloc: Global, operand: Linear) -> Result<Linear, NoMemory> {
        Ok(Linear::Paren(on_heap(alloc, operand)?))
    }

    fn prefixed(alloc: Global, op: Prefix, operand: Linear) -> Result<Linear, NoMemory> {
        let body = on_heap(alloc, operand)?;
        match op {
            Prefix::Negation => Ok(Linear::Not(body)),
            Prefix::Quantifier(quant, names) => Ok(Linear::Bind(quant, names, body)),
        }
    }

    fn infixed(alloc: Global, op: Binary, left: Linear, right: Linear) -> Result<Linear, NoMemory> {
        let left = on_heap(alloc, left)?;
        let right = on_heap(alloc, right)?;
        match op {
            Binary::Equivalence => Ok(Linear::Iff(left, right)),
            Binary::Implication => Ok(Linear::Implies(left, right)),
        }
    }

    fn joined(op: Junction, operands: List<Linear>) -> Linear
        ensures { arithmetic_of result ≡ operators.joined op (map arithmetic_of operands) }
    {
        match op {
            Junction::Conjunction => Linear::And(operands),
            Junction::Disjunction => Linear::Or(operands),
        }
    }

    fn prefix_operand(op: &Prefix) -> u32 {
        match op {
            Prefix::Negation => 5,
            Prefix::Quantifier(..) => 0,
        }
    }

    fn binary_level(op: &Binary) -> u32 {
        match op {
            Binary::Equivalence => 1,
            Binary::Implication => 2,
        }
    }

    fn left_level(op: &Binary) -> u32 {
        match op {
            Binary::Equivalence => 1,
            Binary::Implication => 3,
        }
    }

    fn junction_level(op: Junction) -> u32 {
        match op {
            Junction::Conjunction => 4,
            Junction::Disjunction => 3,
        }
    }
}

pub type Operand = stacks::Operand<LinearArithmetic>;

/// An entry of the stack.
pub type Frame = stacks::Frame<LinearArithmetic>;
