ghost use Rattle.std.specs.Prelude.{List, ◌≡◌, ◌≤◌, ◌<◌, ◌⊎◌, ◌∷◌, [], length, IfOk};
ghost use Rattle.ms_dfa.specs.Automaton.{variable_of, variables_of};
ghost use Rattle.ms_dfa_explore.specs.Tracks.{merged};
ghost use Rattle.ms_logic.specs.Lists.{AreRising};
ghost use Rattle.ms_product.specs.Combined.{HaveEqualOrders};
ghost use Rattle.ms_dfa.specs.Values.{HasValues, own_meaning};
ghost use Rattle.ms_dfa_explore.specs.Explored.{OnRefused};
ghost use Rattle.ms_logic.specs.Assignment.{Variable};
ghost use Rattle.ms_logic_words.specs.Content.{Content};
ghost use Rattle.ms_logic_words.specs.declared.sign.Sign.{Sign};
ghost use Rattle.ms_logic_words.specs.Residual.{IsLeast};
ghost use Rattle.ms_product.specs.Pairing.{AreAtLeast, operands_of};
ghost use Rattle.ms_product.specs.declared.op.Op.{Op};
ghost use Rattle.ms_rename.specs.Whole.{IsSmallWhole};
ghost use Rattle.ms_dfafile_adopt.specs.Short.{AreNumbers, NumbersLack};

use ms_basic::constant;
use ms_dfa::{Automaton, Track};
use ms_list::{NoMemory, StepFault};
use ms_logic::{Mode, Order};
use ms_minim::minimise;
use ms_rename::widen;
use std::alloc::Global;

/// The automaton over one variable more, with fewest states.
fn with_track(
    alloc: Global,
    content: &Automaton,
    track: Track,
    limit: u64,
) -> Result<Automaton, StepFault>
    requires orders { HaveEqualOrders content.now.variables (variable_of track ∷ []) }
    requires some { 1 ≤ limit }
    requires small { limit ≤ 4000000000 }
    ensures mode { IfOk result (λ made. made.mode ≡ content.now.mode) }
    ensures variables { IfOk result (λ made. made.variables ≡ merged content.now.variables (variable_of track ∷ [])) }
    ensures values { IfOk result (HasValues (own_meaning content.now)) }
    ensures least { IfOk result IsLeast }
    ensures nodes { OnRefused result (λ refused. (refused ≡ limit)
        × ((limit < 32) ⊎ ((other : Content Sign) × IsSmallWhole (variable_of track ∷ []) other × AreAtLeast limit Op.And (operands_of content.now other)))) }
{
    let wide = match widen(alloc, content, track, limit) {
        Ok(wide) => wide,
        Err(fault) => return Err(fault),
    };
    minimise(alloc, &wide, limit)
}

/// How many nodes and states a constant has at most.
const FEW: u64 = 16;

/// The automaton that is Yes at the assignment of no variable, with fewest states.
fn no_numbers(alloc: Global) -> Result<Automaton, NoMemory>
    ensures { (variables : List Variable) → IfOk result (AreNumbers variables 0) }
{
    let all = constant(alloc, true, Mode::M2lStr)?;
    // The states tell that it is an automaton.
    let _ = all.states();
    match minimise(alloc, &all, FEW) {
        Ok(made) => Ok(made),
        Err(StepFault::Memory) => Err(NoMemory),
        Err(StepFault::Nodes { .. }) => unreachable!(),
    }
}

/// The automaton that is Yes at each assignment of the numbers among these tracks, with fewest states.
pub(crate) fn numbers(alloc: Global, tracks: &[Track], limit: u64) -> Result<Automaton, StepFault>
    requires rising { AreRising (variables_of tracks.now) }
    requires some { 1 ≤ limit }
    requires small { limit ≤ 4000000000 }
    ensures tells { IfOk result (AreNumbers (variables_of tracks.now) (length tracks.now)) }
    ensures nodes { OnRefused result (λ refused. (refused ≡ limit) × NumbersLack limit (variables_of tracks.now)) }
{
    let Ok(mut made) = no_numbers(alloc) else {
        return Err(StepFault::Memory);
    };
    for track in tracks {
        if track.order == Order::One {
            // The states tell that it is an automaton.
            let _ = made.states();
            made = match with_track(alloc, &made, *track, limit) {
                Ok(wide) => wide,
                Err(fault) => return Err(fault),
            };
        }
    }
    Ok(made)
}
