ghost use Rattle.std.specs.Prelude.{◌≡◌};
ghost use Rattle.ms_product.specs.Signs.{connective, sign_for, strict};

use ms_logic_words::Sign;

/// A connective of two formulas.
#[derive(Clone, Copy, PartialEq, Eq)]
pub enum Op {
    And,
    Or,
    Implies,
    Iff,
}

/// The connective of two truth values.
fn connective(op: Op, left: bool, right: bool) -> bool
    ensures { result ≡ connective op left right }
{
    match op {
        Op::And => left && right,
        Op::Or => left || right,
        Op::Implies => !left || right,
        Op::Iff => left == right,
    }
}

fn sign_for(truth: bool) -> Sign
    ensures { result ≡ sign_for truth }
{
    if truth { Sign::Yes } else { Sign::No }
}

/// The connective of two signs: Outside where one of them is, else Undefined where one of them is.
pub(crate) fn strict(op: Op, left: Sign, right: Sign) -> Sign
    ensures { result ≡ strict op left right }
{
    match (left, right) {
        (Sign::Outside, _) | (_, Sign::Outside) => Sign::Outside,
        (Sign::Undefined, _) | (_, Sign::Undefined) => Sign::Undefined,
        (left, right) => sign_for(connective(op, left == Sign::Yes, right == Sign::Yes)),
    }
}
