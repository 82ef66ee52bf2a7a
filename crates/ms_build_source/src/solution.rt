ghost use Rattle.std.specs.Prelude.{◌≡◌, ◌⊎◌, ◌+◌, ◌≤◌, length, map, IfOk, IfErr};
ghost use Rattle.ms_build.specs.Built.{IsLimit, IsWithin};
ghost use Rattle.ms_names_checked.specs.Exports.{ListsFreeVariables};
ghost use Rattle.ms_logic.specs.View.{problem_of, Answers};
ghost use Rattle.ms_logic.specs.Lists.{Each};
ghost use Rattle.ms_names_rules.specs.Numbers.{IsWellNumbered};
ghost use Rattle.ms_build_source.specs.Imported.{AreAnswersOf, AreLentFor};
ghost use Rattle.ms_build_source.specs.Limits.{IsUnsolved, IsWithinLimits};
ghost use Rattle.ms_build_source.specs.Solution.{HasExports, IsNamed, IsSolution, IsSpellable};

use crate::graph::graph_of;
use crate::roots::{Asking, RootAutomata, root_automata};
use ms_build::build;
use ms_dfa::{Automaton, FileVersion, Plain};
use ms_edge::Refusal;
use ms_list::{List, Name, NoMemory, push};
use ms_logic::Checked;
use std::alloc::Global;

/// The automaton of the main value of a source over its globals, with their names, and those of the values of its goals; the
/// source's size and depth; and the canonical contents of its exports, in order.
#[derive(Drop)]
pub struct Solution {
    pub automaton: Automaton,
    /// The automaton of each goal over the globals, in the order of the source.
    pub goals: List<Automaton>,
    pub names: List<Name>,
    pub size: u64,
    pub depth: u32,
    pub exports: List<Plain>,
}

/// The names of the globals.
fn names(alloc: Global, globals: &[ms_logic::Global]) -> Result<List<Name>, NoMemory>
    ensures { IfOk result (λ names. names ≡ map (λ g. g.name) globals.now) }
{
    let mut names = List::new(alloc);
    for global in globals {
        let name = Name::new(alloc, global.name.text())?;
        push(&mut names, name)?;
    }
    Ok(names)
}

/// The solution of a source, where nodes and states of a step are together at most `limit`. For each import an automaton is lent. The
/// contents of exports are made in the version in which they are asked for, if any.
pub fn solve(
    alloc: Global,
    checked: &Checked,
    imports: &List<Automaton>,
    limit: u64,
    exports: Option<FileVersion>,
) -> Result<Solution, Refusal>
    requires numbered { IsWellNumbered checked.now }
    requires exports { ListsFreeVariables checked.now }
    requires imports { AreLentFor checked.now.mode checked.now.imports imports.now }
    requires limit { IsLimit limit }
    ensures solution { IfOk result (λ made. (answers : Answers) → AreAnswersOf checked.now.mode checked.now.imports answers imports.now →
        IsSolution checked.now answers made) }
    ensures exports { IfOk result (λ made. (answers : Answers) → AreAnswersOf checked.now.mode checked.now.imports answers imports.now →
        HasExports exports (problem_of checked.now answers) checked.now.exports made.exports) }
    ensures spellable { IfOk result (λ made. Each IsSpellable made.exports) }
    ensures named { IfOk result IsNamed }
    ensures fits { IfOk result (λ made. length made.automaton.nodes + length made.automaton.states ≤ limit) }
    ensures goals_fit { IfOk result (λ made. Each (IsWithin limit) made.goals) }
    ensures within { IfOk result (λ made. (answers : Answers) → IsWithinLimits (problem_of checked.now answers)) }
    ensures refused { IfErr result (λ refusal. (answers : Answers) → length answers ≡ length checked.now.imports →
        (refusal ≡ Refusal.Memory) ⊎ IsUnsolved checked.now answers imports.now limit refusal) }
{
    let graph = graph_of(alloc, checked)?;
    let Ok(names) = names(alloc, checked.globals.slice()) else {
        return Err(Refusal::Memory);
    };
    let built = match build(alloc, &graph.dag, imports, checked.mode, limit) {
        Ok(built) => built,
        Err(refusal) => return Err(refusal),
    };
    let asking = Asking {
        roots: graph.dag.roots(),
        limit,
        exports,
    };
    let made = match root_automata(alloc, &built, checked.exports.slice(), asking) {
        Ok(made) => made,
        Err(refusal) => return Err(refusal),
    };
    let RootAutomata {
        automaton,
        goals,
        copies,
    } = made;
    Ok(Solution {
        automaton,
        goals,
        names,
        size: graph.size,
        depth: graph.depth,
        exports: copies,
    })
}
