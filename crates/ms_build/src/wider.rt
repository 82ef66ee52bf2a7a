ghost use Rattle.std.specs.Prelude.{◌≡◌, ◌⊎◌, [], ◌∷◌, IfOk};
ghost use Rattle.ms_dfa.specs.Automaton.{variable_of, variables_of};
ghost use Rattle.ms_logic.specs.Assignment.{Variable};
ghost use Rattle.ms_logic.specs.Lists.{AreRising, IsAmong};
ghost use Rattle.ms_dfa.specs.Values.{own_meaning};
ghost use Rattle.ms_basic.specs.Operands.{HaveOneOrder};
ghost use Rattle.ms_dfa_explore.specs.Explored.{OnRefused};
ghost use Rattle.ms_product.specs.Combined.{HaveEqualOrders};
ghost use Rattle.ms_rename.specs.Whole.{HasNoNumber};
ghost use Rattle.ms_build.specs.Built.{IsLimit, IsOver, IsWithin};
ghost use Rattle.ms_logic_words.specs.Residual.{IsLeast};
ghost use Rattle.ms_build.specs.Short.{IsWideShort, WideningLacks};
ghost use Rattle.ms_build.specs.Wider.{IsWider};

use crate::children::least;
use crate::lacked::lacked_tracks;
use crate::plan::Plan;
use ms_dfa::{Automaton, Track};
use ms_list::{NoMemory, StepFault};
use ms_rename::{widen, widen_all};

/// The automaton over these tracks too, none of which is that of a number, with fewest states where there are any.
fn with_free(plan: &Plan, part: Automaton, tracks: &[Track]) -> Result<Automaton, StepFault>
    requires limit { IsLimit plan.now.limit }
    requires within { IsWithin plan.now.limit part }
    requires rising { AreRising (variables_of tracks.now) }
    requires numbers { HasNoNumber (variables_of tracks.now) }
    requires orders { HaveEqualOrders part.variables (variables_of tracks.now) }
    ensures wider { IfOk result (IsWider part (variables_of tracks.now)) }
    ensures least { IfOk result (λ made. (made ≡ part) ⊎ IsLeast made) }
    ensures within { IfOk result (IsWithin plan.now.limit) }
    ensures nodes { OnRefused result (λ refused. IsWideShort plan.now.limit part (variables_of tracks.now)) }
{
    // The states tell that it is an automaton.
    let _ = part.states();
    if tracks.is_empty() {
        return Ok(part);
    }
    let wide = widen_all(plan.alloc, &part, tracks, plan.limit)?;
    match least(plan, &wide) {
        Ok(made) => Ok(made),
        Err(NoMemory) => Err(StepFault::Memory),
    }
}

/// The automaton over one more track, with fewest states.
fn with_one(plan: &Plan, part: &Automaton, track: Track) -> Result<Automaton, StepFault>
    requires limit { IsLimit plan.now.limit }
    requires orders { HaveEqualOrders part.now.variables (variable_of track ∷ []) }
    ensures wider { IfOk result (IsWider part.now (variable_of track ∷ [])) }
    ensures least { IfOk result IsLeast }
    ensures within { IfOk result (IsWithin plan.now.limit) }
    ensures nodes { OnRefused result (λ refused. IsWideShort plan.now.limit part.now (variable_of track ∷ [])) }
{
    let wide = widen(plan.alloc, part, track, plan.limit)?;
    match least(plan, &wide) {
        Ok(made) => Ok(made),
        Err(NoMemory) => Err(StepFault::Memory),
    }
}

/// The automaton over these tracks too, one after the other, each time with fewest states.
fn with_each(plan: &Plan, part: Automaton, tracks: &[Track]) -> Result<Automaton, StepFault>
    requires limit { IsLimit plan.now.limit }
    requires within { IsWithin plan.now.limit part }
    requires one { HaveOneOrder (variables_of tracks.now) }
    requires orders { HaveEqualOrders part.variables (variables_of tracks.now) }
    ensures wider { IfOk result (IsWider part (variables_of tracks.now)) }
    ensures least { IfOk result (λ made. (made ≡ part) ⊎ IsLeast made) }
    ensures within { IfOk result (IsWithin plan.now.limit) }
    ensures nodes { OnRefused result (λ refused. WideningLacks plan.now.limit part (variables_of tracks.now)) }
{
    // The states tell that it is an automaton.
    let _ = part.states();
    let mut made = part;
    for track in tracks {
        let _ = made.states();
        made = with_one(plan, &made, *track)?;
    }
    Ok(made)
}

/// The automaton over just these tracks, among which are all of its own. What it lacks is added at once but for numbers, which
/// follow one after the other.
pub(crate) fn over_tracks(
    plan: &Plan,
    part: Automaton,
    tracks: &[Track],
) -> Result<Automaton, StepFault>
    requires limit { IsLimit plan.now.limit }
    requires within { IsWithin plan.now.limit part }
    requires rising { AreRising (variables_of tracks.now) }
    requires among { (v : Variable) → IsAmong part.variables v → IsAmong (variables_of tracks.now) v }
    ensures over { IfOk result (IsOver part.mode (variables_of tracks.now) (own_meaning part)) }
    ensures least { IfOk result (λ made. (made ≡ part) ⊎ IsLeast made) }
    ensures within { IfOk result (IsWithin plan.now.limit) }
    ensures nodes { OnRefused result (λ refused. WideningLacks plan.now.limit part (variables_of tracks.now)) }
{
    // The tracks, and then the states, tell that these are automata.
    let Ok(lacked) = lacked_tracks(plan.alloc, part.tracks(), tracks) else {
        return Err(StepFault::Memory);
    };
    let wide = with_free(plan, part, lacked.free.slice())?;
    let _ = wide.states();
    let made = with_each(plan, wide, lacked.numbers.slice())?;
    let _ = made.states();
    Ok(made)
}
