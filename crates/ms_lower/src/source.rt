ghost use Rattle.ms_lower.specs.Lowered.{HasCallingRoots, ListsVariables};
ghost use Rattle.ms_lower.specs.Measure.{IsDepthRefusal, IsMeasure, IsSizeRefusal};
ghost use Rattle.ms_logic.specs.View.{problem_of, Answers};
ghost use Rattle.std.specs.Prelude.{◌≡◌, ◌⊎◌, length, map, IfErr, IfOk};

use crate::all_roots::all_roots;
use crate::orders::orders;
use crate::source_measure::measure;
use crate::tables::Tables;
use ms_edge::Refusal;
use ms_list::{List, NoMemory};
use ms_logic::Checked;
use ms_logic_core::{Lowered, Root};
use std::alloc::Global;

fn roots_of(alloc: Global, checked: &Checked) -> Result<List<Root>, NoMemory>
    ensures { IfOk result (λ roots. (answers : Answers) → length answers ≡ length checked.now.imports →
        ListsVariables checked.now (problem_of checked.now answers) → HasCallingRoots checked.now answers roots) }
{
    let tables = Tables::of(alloc, checked)?;
    Ok(all_roots(&tables, checked)?)
}

/// The core formulas of a source: its main root, the root of each export, and the root of each goal. A call stands in them as an import
/// behind those of the source; what it becomes `lower_call` gives.
pub fn lower(alloc: Global, checked: &Checked) -> Result<Lowered, Refusal>
    ensures mode { IfOk result (λ lowered. lowered.mode ≡ checked.now.mode) }
    ensures measure { IfOk result (λ lowered. (answers : Answers) →
        IsMeasure (problem_of checked.now answers) lowered.size lowered.depth) }
    ensures roots { IfOk result (λ lowered. (answers : Answers) → length answers ≡ length checked.now.imports →
        ListsVariables checked.now (problem_of checked.now answers) → HasCallingRoots checked.now answers lowered.roots) }
    ensures orders { IfOk result (λ lowered. lowered.orders ≡ map (λ g. g.order) checked.now.globals) }
    ensures refused { IfErr result (λ refusal. (answers : Answers) →
        (refusal ≡ Refusal.Memory)
        ⊎ (IsDepthRefusal checked.now answers refusal ⊎ IsSizeRefusal checked.now answers refusal)) }
{
    let count = measure(alloc, checked)?;
    let Ok(roots) = roots_of(alloc, checked) else {
        return Err(Refusal::Memory);
    };
    let Ok(orders) = orders(alloc, checked.globals.slice()) else {
        return Err(Refusal::Memory);
    };
    Ok(Lowered {
        mode: checked.mode,
        size: count.size,
        depth: count.depth,
        roots,
        orders,
    })
}
