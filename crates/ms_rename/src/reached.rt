ghost use Rattle.std.specs.Prelude.{◌≡◌, ◌≤◌, IfOk, ◌+◌, length};
ghost use Rattle.ms_list.specs.declared.word.Word.{Word};
ghost use Rattle.ms_logic_words.specs.Content.{IsWordOver, sign_of};
ghost use Rattle.ms_dfa_explore.specs.Explored.{OnRefused};
ghost use Rattle.ms_product.specs.Pairing.{ReachedAreAtLeast, operands_of};
ghost use Rattle.ms_product.specs.declared.op.Op.TheVariants.{And};

use ms_dfa::Automaton;
use ms_list::StepFault;
use ms_product::{Op, combine};
use std::alloc::Global;

/// The same automaton with the states and nodes that are reached alone: its conjunction with itself. Nodes and states are
/// together at most `limit`.
pub(crate) fn reached(alloc: Global, a: &Automaton, limit: u64) -> Result<Automaton, StepFault>
    requires some { 1 ≤ limit }
    requires small { limit ≤ 4000000000 }
    ensures mode { IfOk result (λ made. made.mode ≡ a.now.mode) }
    ensures variables { IfOk result (λ made. made.variables ≡ a.now.variables) }
    ensures signs { IfOk result (λ made. (word : Word) → IsWordOver a.now.variables word → sign_of made word ≡ sign_of a.now word) }
    ensures size { IfOk result (λ made. ReachedAreAtLeast (length made.nodes + length made.states) And (operands_of a.now a.now)) }
    ensures within { IfOk result (λ made. length made.nodes + length made.states ≤ limit) }
    ensures limit { OnRefused result (λ refused. refused ≡ limit) }
    ensures nodes { OnRefused result (λ refused. ReachedAreAtLeast limit And (operands_of a.now a.now)) }
{
    // The states tell that it is an automaton.
    let _ = a.states();
    combine(alloc, a, a, Op::And, limit)
}
