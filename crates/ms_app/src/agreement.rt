ghost use Rattle.std.specs.Prelude.{◌≡◌, ◌↔◌, ◌+◌, ◌≤◌, length, IsTrue, IfErr, IfOk};
ghost use Rattle.ms_logic.specs.Verdict.{Agree, Problem, variables_of};
ghost use Rattle.ms_build.specs.Built.{IsLimit};
ghost use Rattle.ms_build_source.specs.Solution.{IsNamed};
ghost use Rattle.ms_build_source.specs.Values.{HasMainValue};

use crate::content::canonical_of;
use ms_arena::Node;
use ms_build_source::Solution;
use ms_dfa::{FileState, FileVersion, Plain};
use ms_edge::Refusal;
use std::alloc::Global;

/// Whether two lists of states are equal.
fn are_same_states(left: &[FileState], right: &[FileState]) -> bool
    ensures { IsTrue result ↔ (left.now ≡ right.now) }
{
    left == right
}

/// Whether two lists of nodes are equal.
fn are_same_nodes(left: &[Node], right: &[Node]) -> bool
    ensures { IsTrue result ↔ (left.now ≡ right.now) }
{
    left == right
}

/// Whether two contents have one start and the same states and nodes.
fn is_same_content(left: &Plain, right: &Plain) -> bool
    ensures { IsTrue result ↔ ((left.now.start ≡ right.now.start) × (left.now.states ≡ right.now.states) × (left.now.nodes ≡ right.now.nodes)) }
{
    left.start == right.start
        && are_same_states(left.states.slice(), right.states.slice())
        && are_same_nodes(left.nodes.slice(), right.nodes.slice())
}

/// Whether the main values of two sources with the same globals are the same at each assignment, by their canonical
/// contents. Their automata have at most `limit` nodes and states each.
pub fn agree(alloc: Global, left: &Solution, right: &Solution, limit: u64) -> Result<bool, Refusal>
    requires left { IsNamed left.now }
    requires right { IsNamed right.now }
    requires limit { IsLimit limit }
    requires left_fits { length left.now.automaton.nodes + length left.now.automaton.states ≤ limit }
    requires right_fits { length right.now.automaton.nodes + length right.now.automaton.states ≤ limit }
    ensures agree { IfOk result (λ agree. (one two : Problem) → HasMainValue one left.now.automaton → HasMainValue two right.now.automaton
        → one.mode ≡ two.mode → variables_of one.globals ≡ variables_of two.globals → IsTrue agree ↔ Agree one two) }
    ensures refused { IfErr result (λ refusal. refusal ≡ Refusal.Memory) }
{
    let one = match canonical_of(alloc, left, FileVersion::Two, limit) {
        Ok(content) => content,
        Err(_) => return Err(Refusal::Memory),
    };
    match canonical_of(alloc, right, FileVersion::Two, limit) {
        Ok(other) => Ok(is_same_content(&one, &other)),
        Err(_) => Err(Refusal::Memory),
    }
}
