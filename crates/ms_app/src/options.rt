use ms_dfa::FileVersion;
use ms_list::Text;

/// How a source is decided: the greatest number of nodes and states of a step, whether counts are asked for, the name under which
/// the automaton of the main value is to be written, where there is one, the names of files that no export may have, and the version
/// of automaton files.
#[derive(Clone, Copy)]
pub struct Options<'a> {
    pub max_nodes: u64,
    pub stats: bool,
    pub out: Option<&'a Text>,
    pub outs: &'a [Text],
    pub format: FileVersion,
}
