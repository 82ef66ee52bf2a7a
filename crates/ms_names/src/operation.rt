ghost use Rattle.ms_logic.specs.View.{argument_of};
ghost use Rattle.ms_names.specs.inner.Operation.{made_of_all, made_of_one, made_of_two, wanted_of_one, wanted_of_two};
ghost use Rattle.ms_names_rules.specs.inner.Lists.{forms_of};
ghost use Rattle.std.specs.Option.{option_map};
ghost use Rattle.std.specs.Prelude.{◌≡◌, IfOk};

use ms_list::{List, NoMemory};
use ms_logic::{Arg, Formula, Order};
use ms_names_rules::Wanted;
use ms_names_typing::{
    conjunction, difference, disjunction, emptiness, equivalence, implication, intersection,
    maximum, minimum, negation, restriction, union,
};
use std::alloc::Global;

const FORMULA: Wanted = Wanted::Exactly(Order::Zero);

const SET: Wanted = Wanted::Exactly(Order::Two);

/// An operation on one expression.
#[derive(Clone, Copy)]
pub(crate) enum Unary {
    Not,
    Restrict,
    IsEmpty,
    Min,
    Max,
}

impl Unary {
    /// The order that the operand has to have.
    pub(crate) fn wanted(self) -> Wanted
        ensures { result ≡ wanted_of_one self }
    {
        match self {
            Unary::Not | Unary::Restrict => FORMULA,
            Unary::IsEmpty | Unary::Min | Unary::Max => SET,
        }
    }

    /// What comes of it, by what the operand became.
    #[inline(never)]
    pub(crate) fn made(self, alloc: Global, operand: Option<Arg>) -> Result<Option<Arg>, NoMemory>
        ensures { IfOk result (λ value. option_map argument_of value ≡ made_of_one self (option_map argument_of operand)) }
    {
        match self {
            Unary::Not => negation(alloc, operand),
            Unary::Restrict => restriction(alloc, operand),
            Unary::IsEmpty => Ok(emptiness(operand)),
            Unary::Min => minimum(alloc, operand),
            Unary::Max => maximum(alloc, operand),
        }
    }
}

/// An operation on two expressions of one order.
#[derive(Clone, Copy)]
pub(crate) enum Binary {
    Implies,
    Iff,
    Union,
    Inter,
    Minus,
}

impl Binary {
    /// The order that both operands have to have.
    pub(crate) fn wanted(self) -> Wanted
        ensures { result ≡ wanted_of_two self }
    {
        match self {
            Binary::Implies | Binary::Iff => FORMULA,
            Binary::Union | Binary::Inter | Binary::Minus => SET,
        }
    }

    /// What comes of it, by what the operands became.
    #[inline(never)]
    pub(crate) fn made(
        self,
        alloc: Global,
        left: Option<Arg>,
        right: Option<Arg>,
    ) -> Result<Option<Arg>, NoMemory>
        ensures { IfOk result (λ value. option_map argument_of value ≡ made_of_two self (option_map argument_of left) (option_map argument_of right)) }
    {
        match self {
            Binary::Implies => implication(alloc, left, right),
            Binary::Iff => equivalence(alloc, left, right),
            Binary::Union => union(alloc, left, right),
            Binary::Inter => intersection(alloc, left, right),
            Binary::Minus => difference(alloc, left, right),
        }
    }
}

/// `&` or `|` over a list of formulas.
#[derive(Clone, Copy)]
pub(crate) enum Connective {
    And,
    Or,
}

impl Connective {
    /// What comes of it, by what the operands became.
    #[inline(never)]
    pub(crate) fn made(self, operands: Option<List<Formula>>) -> Option<Arg>
        ensures { option_map argument_of result ≡ made_of_all self (option_map forms_of operands) }
    {
        match self {
            Connective::And => conjunction(operands),
            Connective::Or => disjunction(operands),
        }
    }
}
