ghost use Rattle.ms_names_rules.specs.Fault.{comes_before, number_of, place_of, refusal_of};
ghost use Rattle.std.specs.Prelude.{◌≡◌};

use ms_edge::Refusal;
use ms_list::{At, Name, Text};

/// What can be wrong with names and orders.
#[derive(Drop)]
pub enum Fault {
    UnknownName(At, Name),
    NamedTwice(At, Text),
    WrongOrder(At),
    /// The place and the name of a call, and the numbers of its arguments and of the parameters.
    WrongCount(At, Name, u32, u32),
    OutOfRange(At),
    NotHere(At),
}

impl Fault {
    /// The place in its file.
    fn place(&self) -> u64
        ensures { result ≡ place_of self.now }
    {
        match self {
            Fault::UnknownName(at, _) => at.place,
            Fault::NamedTwice(at, _) => at.place,
            Fault::WrongOrder(at) => at.place,
            Fault::WrongCount(at, _, _, _) => at.place,
            Fault::OutOfRange(at) => at.place,
            Fault::NotHere(at) => at.place,
        }
    }

    /// The number by which it is refused.
    fn number(&self) -> u32
        ensures { result ≡ number_of self.now }
    {
        match self {
            Fault::UnknownName(_, _) => 20,
            Fault::NamedTwice(_, _) => 21,
            Fault::WrongOrder(_) => 22,
            Fault::WrongCount(_, _, _, _) => 23,
            Fault::OutOfRange(_) => 24,
            Fault::NotHere(_) => 25,
        }
    }

    /// Whether it comes before another fault of its declaration: at a lesser place, or at one place with a lesser number.
    pub fn comes_before(&self, other: &Fault) -> bool
        ensures { result ≡ comes_before self.now other.now }
    {
        if self.place() == other.place() {
            self.number() < other.number()
        } else {
            self.place() < other.place()
        }
    }

    /// How it is refused.
    pub fn refusal(self) -> Refusal
        ensures { result ≡ refusal_of self }
    {
        match self {
            Fault::UnknownName(at, name) => Refusal::UnknownName { at, name },
            Fault::NamedTwice(at, name) => Refusal::Twice { at, name },
            Fault::WrongOrder(at) => Refusal::WrongOrder { at },
            Fault::WrongCount(at, name, given, wanted) => Refusal::Arity {
                at,
                name,
                given,
                wanted,
            },
            Fault::OutOfRange(at) => Refusal::ConstRange { at: Some(at) },
            Fault::NotHere(at) => Refusal::NotHere { at },
        }
    }
}
