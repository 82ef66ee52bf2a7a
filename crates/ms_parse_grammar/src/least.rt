ghost use Rattle.std.specs.Prelude.{◌≡◌, suc};
ghost use Rattle.ms_parse_grammar.specs.Grammar.{junction_level, left_level};

use crate::operator::{Binary, Junction};

/// How tightly the left side of an operator binds at least.
pub fn least_left(op: Binary) -> u32
    ensures { result ≡ left_level op }
{
    match op {
        Binary::Equivalence => 0,
        Binary::Implication => 2,
        Binary::Relation(_) => 6,
        Binary::Union => 6,
        Binary::Intersection => 7,
        Binary::Difference => 8,
    }
}

/// How tightly an operand of `&` or `|` binds at least.
pub fn least_operand(op: Junction) -> u32
    ensures { result ≡ suc (junction_level op) }
{
    match op {
        Junction::Disjunction => 3,
        Junction::Conjunction => 4,
    }
}
