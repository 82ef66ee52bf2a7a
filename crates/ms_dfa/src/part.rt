ghost use Rattle.std.specs.Prelude.{◌≡◌};
ghost use Rattle.ms_dfa.specs.Part.{has_value};

use ms_logic::Order;

/// The two parts of a word: the truth values, for the variables of order 0, and the letters, for all others.
#[derive(Clone, Copy, PartialEq, Eq)]
pub enum Part {
    Truth,
    Letters,
}

/// Whether a variable of the order has a value in this part of a word.
pub fn is_in(part: Part, order: Order) -> bool
    ensures { result ≡ has_value part order }
{
    match part {
        Part::Truth => order == Order::Zero,
        Part::Letters => order != Order::Zero,
    }
}
