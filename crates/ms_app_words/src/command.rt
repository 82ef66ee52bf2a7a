use ms_dfa::FileVersion;
use ms_list::Text;

/// The word that says which command it is.
#[derive(Clone, Copy, PartialEq, Eq)]
pub enum Verb {
    Decide,
    Same,
    Gen,
    Ltl,
    Presburger,
    Check,
    Certify,
}

/// What the words of a command line ask for.
#[derive(Drop)]
pub enum Command {
    /// To decide a source, where nodes and states of a step are together at most `max_nodes`, and to report on it, with
    /// counts where `stats` holds. The automaton of its main value is written to the file `out`, where one is named, and all
    /// files in the version `format`.
    Decide {
        file: Text,
        out: Option<Text>,
        max_nodes: u64,
        stats: bool,
        format: FileVersion,
    },

    /// To compare the main values of two sources, where nodes and states of a step are together at most `max_nodes`.
    Same {
        left: Text,
        right: Text,
        max_nodes: u64,
    },

    /// To generate the source with this number, and to decide it where `decide` holds.
    Gen {
        number: u64,
        decide: bool,
    },

    /// To decide a formula of temporal logic on finite traces, where nodes and states of a step are together at most `max_nodes`.
    Ltl {
        file: Text,
        max_nodes: u64,
    },

    /// To decide a formula of linear arithmetic over the natural numbers, where nodes and states of a step are together at most `max_nodes`.
    Presburger {
        file: Text,
        max_nodes: u64,
    },

    /// To check the automaton file `name` by its certificate, which has this name with `.cert` behind it.
    Check {
        name: Text,
    },

    /// To decide a source as `Decide` does, where nodes and states of a step are together at most `max_nodes`; the automaton of its
    /// main value is written to the file `name`, and a certificate of it beside it, under this name with `.cert` behind it.
    Certify {
        file: Text,
        name: Text,
        max_nodes: u64,
    },
}

/// Why words ask for nothing: they are no command, or there is no memory to read them.
#[derive(Clone, Copy, PartialEq, Eq)]
pub enum WordsFault {
    Usage,
    NoMemory,
}
