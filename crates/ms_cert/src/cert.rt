use ms_dfa::FileSign;
use ms_list::{List, Word};

/// A line of a separating tree, whose lines stand in pre-order.
#[derive(Drop)]
pub enum TreeLine {
    /// A leaf: one state alone.
    At(u32),
    /// The states from which the letters end in the sign are told apart by the first tree behind the line, and the others by the second.
    By(FileSign, List<List<bool>>),
}

/// A certificate that an automaton has fewest states.
#[derive(Drop)]
pub struct Cert {
    /// For each state a shortest word that leads there.
    pub words: List<Word>,
    /// The lines of a tree that tells the states apart.
    pub tree: List<TreeLine>,
}

/// What a certificate proves of an automaton.
#[derive(Clone, Copy, PartialEq, Eq)]
pub struct Proven {
    /// How many states there are; no automaton that gives each word the same sign has fewer.
    pub states: u32,
    /// How many letters a shortest word of the sign `+` has; None where no word has it.
    pub plus: Option<u64>,
    /// How many letters a shortest word of the sign `-` has; None where no word has it.
    pub minus: Option<u64>,
}
