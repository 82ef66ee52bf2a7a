ghost use Rattle.ms_lower.specs.Counted.{deepest, whole_count};
ghost use Rattle.ms_lower.specs.Measure.{IsDepthRefusal, IsMeasure, IsSizeRefusal};
ghost use Rattle.ms_logic.specs.View.{problem_of, Answers};
ghost use Rattle.std.specs.Prelude.{◌≡◌, ◌≤◌, ◌⊎◌, IfErr, IfOk};

use crate::called::Extents;
use crate::counted::{Counted, TOO_LARGE, capped_sum};
use crate::predicate_extents::count_predicates;
use crate::source_extents::count_source;
use ms_edge::Refusal;
use ms_logic::Checked;
use std::alloc::Global;

// The count of a source over its parts. A global counts one more.
fn whole(parts: Counted, globals: usize) -> Counted
    requires { parts.depth ≤ deepest }
    ensures { result ≡ whole_count parts globals }
{
    let more = capped_sum(1, (globals as u64).min(TOO_LARGE));
    Counted {
        size: capped_sum(parts.size, more),
        depth: parts.depth + 1,
    }
}

/// The size and the depth of a source after expansion. They are counted without a copy of what is called, in one pass over
/// the source.
pub fn measure(alloc: Global, checked: &Checked) -> Result<Counted, Refusal>
    ensures measured { IfOk result (λ m. (answers : Answers) →
        IsMeasure (problem_of checked.now answers) m.size m.depth) }
    ensures refused { IfErr result (λ refusal. (answers : Answers) →
        (refusal ≡ Refusal.Memory)
        ⊎ (IsDepthRefusal checked.now answers refusal ⊎ IsSizeRefusal checked.now answers refusal)) }
{
    let Ok(called) = count_predicates(alloc, checked.predicates.slice()) else {
        return Err(Refusal::Memory);
    };
    let known = Extents {
        predicates: checked.predicates.slice(),
        called: called.slice(),
    };
    match count_source(&known, checked.globals.slice(), checked.formulas.slice()) {
        Err(deep) => Err(Refusal::Depth { at: deep.at }),
        Ok(parts) => {
            let count = whole(parts, checked.globals.len());
            if count.size < TOO_LARGE {
                Ok(count)
            } else {
                Err(Refusal::CoreSize)
            }
        }
    }
}
