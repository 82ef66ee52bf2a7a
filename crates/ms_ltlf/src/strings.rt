ghost use Rattle.ms_logic.specs.Tree.{Form};
ghost use Rattle.ms_logic.specs.View.{Answers, goals_in, main_question, problem_of};
ghost use Rattle.ms_logic.specs.declared.checked.Global.{Global as Variable};
ghost use Rattle.ms_logic.specs.declared.checked.Placed.{Placed};
ghost use Rattle.ms_logic.specs.declared.mode.Mode.TheVariants.{M2lStr};
ghost use Rattle.ms_logic_core.specs.Size.{depth_of_source, size_of_source};
ghost use Rattle.ms_names_checked.specs.Checked.{MeetsRules};
ghost use Rattle.ms_names_checked.specs.Exports.{ListsFreeVariables};
ghost use Rattle.ms_names_rules.specs.Numbers.{IsWellNumbered};
ghost use Rattle.ms_ltlf.specs.Meaning.{IsOverTraces, TellsTruth, TellsVerdict};
ghost use Rattle.ms_ltlf.specs.Tree.{depth, size};
ghost use Rattle.ms_ltlf.specs.View.{IsWellFormed, temporal_of};
ghost use Rattle.ms_ltlf.specs.Source.{IsStringSource, start};
ghost use Rattle.ms_ltlf.specs.Strings.{at_the_start, some_position};
ghost use Rattle.ms_translation.specs.Made.{Gives};
ghost use Rattle.std.specs.Prelude.{◌≡◌, ◌≤◌, ◌+◌, ◌*◌, ◌∷◌, [], length, map, IfOk};

use crate::atoms::{is_first, itself};
use crate::bound::exists;
use crate::formulas::formula_at;
use crate::trace::Trace;
use ms_list::NoMemory;
use ms_logic::{Checked, Mode};
use ms_translation::{Made, both_hold, pair, restriction, source_over};
use std::alloc::Global;

/// `restrict(ex1 x: x = x)`
fn some_position(alloc: Global, x: u32) -> Made
    ensures { Gives result (some_position x) }
{
    restriction(alloc, exists(alloc, x, Ok(itself(x))))
}

/// `ex1 x: x = 0 & formula`
fn at_the_start(alloc: Global, x: u32, formula: Made) -> Made
    ensures { (f : Form) → Gives formula f → Gives result (at_the_start x f) }
{
    exists(alloc, x, both_hold(alloc, Ok(is_first(x)), formula))
}

/// The source of strings, by its tree.
fn string_source(alloc: Global, trace: &Trace) -> Result<Checked, NoMemory>
    requires { IsWellFormed trace.now }
    ensures source { IfOk result (IsStringSource trace.now.names (temporal_of trace.now.formula)) }
    ensures files { IfOk result (λ made. made.files ≡ []) }
{
    let x = trace.names.len() as u32;
    let formula = at_the_start(alloc, x, formula_at(alloc, &trace.formula, x));
    let formulas = pair(alloc, some_position(alloc, x), formula);
    source_over(alloc, Mode::M2lStr, trace.names.slice(), formulas)
}

/// A source of M2L-Str that is Yes at a trace where the formula holds at its first position, and No where it does not. Its
/// globals are the propositions, as sets of positions, in the declaration with number 0. Its two formula declarations, with the
/// numbers 1 and 2, stand at place 0 of file 0, which has no name here: that the string has a position, without which the main
/// value is Undefined, and that the formula holds at the first.
pub fn to_strings(alloc: Global, trace: &Trace) -> Result<Checked, NoMemory>
    requires { IsWellFormed trace.now }
    ensures source { IfOk result (IsStringSource trace.now.names (temporal_of trace.now.formula)) }
    ensures truth { IfOk result (λ made. (answers : Answers) → TellsTruth (temporal_of trace.now.formula) (main_question made answers)) }
    ensures traces { IfOk result (λ made. (answers : Answers) → IsOverTraces (length trace.now.names) (main_question made answers)) }
    ensures verdict { IfOk result (λ made. (answers : Answers) →
        TellsVerdict (length trace.now.names) (temporal_of trace.now.formula) (main_question made answers)) }
    ensures no_goals { IfOk result (λ made. goals_in made ≡ []) }
    ensures numbered { IfOk result IsWellNumbered }
    ensures exports { IfOk result ListsFreeVariables }
    ensures meets_rules { IfOk result MeetsRules }
    ensures depth { IfOk result (λ made. (answers : Answers) →
        depth_of_source (problem_of made answers) ≤ 5 * depth (temporal_of trace.now.formula) + 3) }
    ensures size { IfOk result (λ made. (answers : Answers) →
        size_of_source (problem_of made answers) ≤ 14 * size (temporal_of trace.now.formula) + length trace.now.names + 11) }
    ensures mode { IfOk result (λ made. made.mode ≡ M2lStr) }
    ensures names { IfOk result (λ made. map (λ (g : Variable). g.name) made.globals ≡ trace.now.names) }
    ensures imports_nothing { IfOk result (λ made. made.imports ≡ []) }
    ensures exports_nothing { IfOk result (λ made. made.exports ≡ []) }
    ensures places { IfOk result (λ made. map (λ (placed : Placed). placed.at) made.formulas ≡ start ∷ start ∷ []) }
    ensures items { IfOk result (λ made. map (λ (placed : Placed). placed.item) made.formulas ≡ 1 ∷ 2 ∷ []) }
    ensures files { IfOk result (λ made. made.files ≡ []) }
{
    string_source(alloc, trace)
}
