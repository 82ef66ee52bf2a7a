ghost use Rattle.std.specs.Prelude.{◌≡◌};
ghost use Rattle.ms_parse_grammar.specs.Grammar.{junction_level, operand_level, right_level};

use crate::operator::{Binary, Junction, Prefix};

/// How tightly the operand of an operator before it binds at least.
pub fn prefix_reach(op: Prefix) -> u32
    ensures { result ≡ operand_level op }
{
    match op {
        Prefix::Negation => 4,
        Prefix::Minimum => 11,
        Prefix::Maximum => 11,
    }
}

/// How tightly the right side of an operator binds at least.
pub fn infix_reach(op: Binary) -> u32
    ensures { result ≡ right_level op }
{
    match op {
        Binary::Equivalence => 1,
        Binary::Implication => 1,
        Binary::Relation(_) => 6,
        Binary::Union => 7,
        Binary::Intersection => 8,
        Binary::Difference => 9,
    }
}

/// How tightly `&` and `|` bind.
pub fn junction_reach(op: Junction) -> u32
    ensures { result ≡ junction_level op }
{
    match op {
        Junction::Disjunction => 2,
        Junction::Conjunction => 3,
    }
}
