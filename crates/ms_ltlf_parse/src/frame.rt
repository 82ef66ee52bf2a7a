ghost use Rattle.std.specs.Prelude.{◌≡◌, map};
ghost use Rattle.ms_ltlf.specs.Tree.{Temporal, depth};
ghost use Rattle.ms_ltlf.specs.View.{temporal_of};
ghost use Rattle.ms_ltlf_parse.specs.inner.Machine.{Place, machine, operators};
ghost use Rattle.ms_ltlf_parse.specs.inner.Deep.{deep};

use crate::operator::{Binary, Junction, Prefix};
use ms_list::{List, NoMemory, on_heap};
use ms_ltlf::Ltl;
use ms_parse_stack as stacks;
use ms_parse_stack::Grammar;
use std::alloc::Global;

/// The grammar of temporal logic.
pub struct TemporalLogic;

impl Grammar for TemporalLogic {
    type Formula = Ltl;

    type Prefix = Prefix;

    type Binary = Binary;

    ghost Tree = { Temporal };

    ghost tree_of = { temporal_of };

    ghost depth = { depth };

    ghost Place = { Place };

    ghost machine = { machine };

    ghost deep = { deep };

    fn brackets(alloc: Global, operand: Ltl) -> Result<Ltl, NoMemory> {
        Ok(Ltl::Paren(on_heap(alloc, operand)?))
    }

    fn prefixed(alloc: Global, op: Prefix, operand: Ltl) -> Result<Ltl, NoMemory> {
        let body = on_heap(alloc, operand)?;
        match op {
            Prefix::Negation => Ok(Ltl::Not(body)),
            Prefix::Next => Ok(Ltl::Next(body)),
            Prefix::WeakNext => Ok(Ltl::WeakNext(body)),
            Prefix::Eventually => Ok(Ltl::Eventually(body)),
            Prefix::Always => Ok(Ltl::Always(body)),
        }
    }

    fn infixed(alloc: Global, op: Binary, left: Ltl, right: Ltl) -> Result<Ltl, NoMemory> {
        let left = on_heap(alloc, left)?;
        let right = on_heap(alloc, right)?;
        match op {
            Binary::Equivalence => Ok(Ltl::Iff(left, right)),
            Binary::Implication => Ok(Ltl::Implies(left, right)),
            Binary::Until => Ok(Ltl::Until(left, right)),
            Binary::Release => Ok(Ltl::Release(left, right)),
        }
    }

    fn joined(op: Junction, operands: List<Ltl>) -> Ltl
        ensures { temporal_of result ≡ operators.joined op (map temporal_of operands) }
    {
        match op {
            Junction::Conjunction => Ltl::And(operands),
            Junction::Disjunction => Ltl::Or(operands),
        }
    }

    fn prefix_operand(_op: &Prefix) -> u32 {
        5
    }

    fn binary_level(op: &Binary) -> u32 {
        match op {
            Binary::Equivalence => 0,
            Binary::Implication => 1,
            Binary::Until => 4,
            Binary::Release => 4,
        }
    }

    fn left_level(op: &Binary) -> u32 {
        match op {
            Binary::Equivalence => 0,
            Binary::Implication => 2,
            Binary::Until => 5,
            Binary::Release => 5,
        }
    }

    fn junction_level(op: Junction) -> u32 {
        match op {
            Junction::Conjunction => 3,
            Junction::Disjunction => 2,
        }
    }
}

pub type Operand = stacks::Operand<TemporalLogic>;

/// An entry of the stack.
pub type Frame = stacks::Frame<TemporalLogic>;
