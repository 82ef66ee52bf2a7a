use ms_list::{At, List, Name, Text, Word};

/// Why a request is refused. Each variant has a number and a line of its own (docs/FORMATS.md).
#[derive(Drop)]
pub enum Refusal {
    /// 10: no token, blank or comment begins at this byte, or a text is no UTF-8.
    Word {
        at: At,
        byte: u8,
    },
    /// 11: a number above the greatest u64.
    NumberTooLarge {
        at: At,
    },
    /// 12: no source can follow here.
    Grammar {
        at: At,
    },
    /// 13: a comment or a text that is never closed.
    Unclosed {
        at: At,
    },
    /// 20: a name that is not declared here.
    UnknownName {
        at: At,
        name: Name,
    },
    /// 21: a name that stands twice where it may stand once.
    Twice {
        at: At,
        name: Text,
    },
    /// 22: an expression of another order than its place wants.
    WrongOrder {
        at: At,
    },
    /// 23: a call with more or fewer arguments than there are parameters.
    Arity {
        at: At,
        name: Name,
        given: u32,
        wanted: u32,
    },
    /// 24: a number or a constant that is out of range.
    ConstRange {
        at: Option<At>,
    },
    /// 25: a form that its place does not allow.
    NotHere {
        at: At,
    },
    /// 26: a word of MONA that this language leaves out.
    LeftOut {
        at: At,
        word: Name,
    },
    /// 28: two sources with other modes or other lists of globals.
    VarsDiffer,
    /// 30: a source file that is not there.
    FileMissing {
        at: Option<At>,
        name: Text,
    },
    /// 31: a file that includes itself through a chain; the numbers of the chain's files.
    IncludeCycle {
        at: At,
        name: Text,
        chain: List<u32>,
    },
    /// 40: an automaton file that is not there.
    ImportMissing {
        at: At,
        name: Text,
    },
    /// 41: bytes that are no automaton file.
    ImportText {
        at: At,
        name: Text,
    },
    /// 42: an automaton file of another mode.
    ImportMode {
        at: At,
        name: Text,
    },
    /// 43: an automaton file with other variables than the import names.
    ImportVars {
        at: At,
        name: Text,
    },
    /// 44: an automaton file whose sign depends on zeros at the end; the first word that shows it.
    ImportOpen {
        at: At,
        name: Text,
        length: u64,
        word: Word,
    },
    /// 45: bytes that are no automaton file, where a certificate is checked.
    AutomatonText {
        name: Text,
    },
    /// 46: bytes that are no certificate.
    CertText {
        name: Text,
    },
    /// 50: a file longer than its limit.
    FileSize {
        name: Text,
        limit: u64,
    },
    /// 51: includes too deep, or too many files.
    Includes {
        at: At,
        limit: u32,
    },
    /// 52: an expression too deep.
    Depth {
        at: At,
    },
    /// 53: a source too large after expansion.
    CoreSize,
    /// 54: more nodes and states than the limit.
    Nodes {
        step: u32,
        limit: u64,
    },
    /// 60: a read that failed.
    ReadFault {
        name: Text,
    },
    /// 61: a write that failed.
    WriteFault {
        name: Text,
    },
    /// 62: the sink failed after taking so many bytes.
    SinkFault {
        taken: u64,
    },
    /// 70: out of memory.
    Memory,
}

impl Refusal {
    ghost use Rattle.std.specs.Prelude.{◌≡◌};
    ghost use Rattle.ms_edge.specs.Refusal.{place_of};

    /// The place in a source, where the refusal has one.
    pub fn place(&self) -> Option<At>
        ensures { result ≡ place_of self.now }
    {
        match self {
            Refusal::Word { at, .. }
            | Refusal::NumberTooLarge { at }
            | Refusal::Grammar { at }
            | Refusal::Unclosed { at }
            | Refusal::UnknownName { at, .. }
            | Refusal::Twice { at, .. }
            | Refusal::WrongOrder { at }
            | Refusal::Arity { at, .. }
            | Refusal::NotHere { at }
            | Refusal::LeftOut { at, .. }
            | Refusal::IncludeCycle { at, .. }
            | Refusal::ImportMissing { at, .. }
            | Refusal::ImportText { at, .. }
            | Refusal::ImportMode { at, .. }
            | Refusal::ImportVars { at, .. }
            | Refusal::ImportOpen { at, .. }
            | Refusal::Includes { at, .. }
            | Refusal::Depth { at } => Some(*at),
            Refusal::ConstRange { at } | Refusal::FileMissing { at, .. } => *at,
            Refusal::VarsDiffer
            | Refusal::AutomatonText { .. }
            | Refusal::CertText { .. }
            | Refusal::FileSize { .. }
            | Refusal::CoreSize
            | Refusal::Nodes { .. }
            | Refusal::ReadFault { .. }
            | Refusal::WriteFault { .. }
            | Refusal::SinkFault { .. }
            | Refusal::Memory => None,
        }
    }
}

/// How a run of the program ended.
#[derive(Clone, Copy, PartialEq, Eq)]
pub enum Status {
    Done,
    Usage,
    Refused,
    Limit,
    FileFault,
    SinkFault,
    NoMemory,
}
