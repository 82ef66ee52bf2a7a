ghost use Rattle.std.specs.Prelude.{◌≡◌, ◌⊎◌, length, IfOk, IfErr};
ghost use Rattle.ms_names_checked.specs.Exports.{ListsFreeVariables};
ghost use Rattle.ms_logic_core.specs.Size.{depth_of_source, size_of_source};
ghost use Rattle.ms_logic.specs.View.{problem_of, Answers};
ghost use Rattle.ms_names_rules.specs.Numbers.{IsWellNumbered};
ghost use Rattle.ms_build_source.specs.Graph.{IsGraphOf};
ghost use Rattle.ms_build_source.specs.Limits.{IsTooLarge};

use crate::source_calls::SourceCalls;
use ms_dag::{Dag, share};
use ms_edge::Refusal;
use ms_logic::Checked;
use ms_lower::lower;
use std::alloc::Global;

/// The graph of the core formulas of a source, and the source's size and depth.
#[derive(Drop)]
pub struct Graph {
    pub dag: Dag,
    pub size: u64,
    pub depth: u32,
}

/// The graph of the core formulas of a source.
pub fn graph_of(alloc: Global, checked: &Checked) -> Result<Graph, Refusal>
    requires numbered { IsWellNumbered checked.now }
    requires exports { ListsFreeVariables checked.now }
    ensures graph { IfOk result (λ made. (answers : Answers) → length answers ≡ length checked.now.imports → IsGraphOf checked.now answers made.dag) }
    ensures size { IfOk result (λ made. (answers : Answers) → made.size ≡ size_of_source (problem_of checked.now answers)) }
    ensures depth { IfOk result (λ made. (answers : Answers) → made.depth ≡ depth_of_source (problem_of checked.now answers)) }
    ensures refused { IfErr result (λ refusal. (answers : Answers) → length answers ≡ length checked.now.imports →
        (refusal ≡ Refusal.Memory) ⊎ IsTooLarge checked.now answers refusal) }
{
    let lowered = lower(alloc, checked)?;
    let Ok(calls) = SourceCalls::of(alloc, checked) else {
        return Err(Refusal::Memory);
    };
    let Ok(dag) = share(alloc, &lowered, &calls) else {
        return Err(Refusal::Memory);
    };
    Ok(Graph {
        dag,
        size: lowered.size,
        depth: lowered.depth,
    })
}
