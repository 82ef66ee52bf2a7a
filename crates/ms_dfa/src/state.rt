use ms_arena::Ref;
use ms_logic_words::Sign;

/// A state: the sign of the words that end in it, and the diagram that leads on from it.
#[derive(Clone, Copy, PartialEq, Eq)]
pub struct State {
    pub sign: Sign,
    pub next: Ref,
}
