ghost use Rattle.ms_logic.specs.View.{Answers, goals_in, main_question, problem_of};
ghost use Rattle.ms_logic.specs.declared.checked.Global.{Global as Variable};
ghost use Rattle.ms_logic.specs.declared.checked.Placed.{Placed};
ghost use Rattle.ms_logic.specs.declared.mode.Mode.TheVariants.{Ws1s};
ghost use Rattle.ms_logic_core.specs.Size.{depth_of_source, size_of_source};
ghost use Rattle.ms_names_checked.specs.Checked.{MeetsRules};
ghost use Rattle.ms_names_checked.specs.Exports.{ListsFreeVariables};
ghost use Rattle.ms_names_rules.specs.Numbers.{IsWellNumbered};
ghost use Rattle.ms_presburger.specs.Meaning.{IsOverNumbers, TellsTruth, TellsVerdict};
ghost use Rattle.ms_presburger.specs.Source.{IsSetSource, start};
ghost use Rattle.ms_presburger.specs.Tree.{extent, reach, size};
ghost use Rattle.ms_presburger.specs.View.{IsWellFormed, arithmetic_of};
ghost use Rattle.ms_presburger.specs.inner.Scopes.{AreFactorsSmall};
ghost use Rattle.std.specs.Prelude.{◌≡◌, ℕ, ◌+◌, ◌*◌, ◌≤◌, ◌^◌, ◌∷◌, [], length, map, IfOk, OnOk};

use crate::formulas::formula_at;
use crate::linear::Problem;
use crate::scope::free;
use ms_list::NoMemory;
use ms_logic::{Checked, Mode};
use ms_translation::{single, source_over};
use std::alloc::Global;

/// The source of sets, by its tree.
fn set_source(alloc: Global, problem: &Problem) -> Result<Checked, NoMemory>
    requires { IsWellFormed problem.now }
    ensures source { IfOk result (IsSetSource problem.now.names (arithmetic_of problem.now.formula)) }
    ensures files { IfOk result (λ made. made.files ≡ []) }
    ensures small { OnOk result (AreFactorsSmall (arithmetic_of problem.now.formula)) }
{
    let names = problem.names.slice();
    let mut bindings = free(alloc, names)?;
    let formula = formula_at(alloc, &mut bindings, names.len() as u32, &problem.formula);
    source_over(alloc, Mode::Ws1s, names, single(alloc, formula))
}

/// A source of WS1S that is Yes at an assignment of sets where the formula holds of their numbers, and No where it does not: the
/// members of a set are the places of the one bits of its number. Its globals are the free names, as sets, in the declaration with
/// number 0. Its one formula declaration, with number 1, stands at place 0 of file 0, which has no name here.
pub fn to_sets(alloc: Global, problem: &Problem) -> Result<Checked, NoMemory>
    requires { IsWellFormed problem.now }
    ensures source { IfOk result (IsSetSource problem.now.names (arithmetic_of problem.now.formula)) }
    ensures truth { IfOk result (λ made. (answers : Answers) →
        TellsTruth problem.now.names (arithmetic_of problem.now.formula) (main_question made answers)) }
    ensures numbers { IfOk result (λ made. (answers : Answers) → IsOverNumbers problem.now.names (main_question made answers)) }
    ensures verdict { IfOk result (λ made. (answers : Answers) →
        TellsVerdict (arithmetic_of problem.now.formula) (main_question made answers)) }
    ensures no_goals { IfOk result (λ made. goals_in made ≡ []) }
    ensures numbered { IfOk result IsWellNumbered }
    ensures exports { IfOk result ListsFreeVariables }
    ensures meets_rules { IfOk result MeetsRules }
    ensures depth { let f = arithmetic_of problem.now.formula in
        IfOk result (λ made. (answers : Answers) (levels : ℕ) → 64 * extent f ≤ 2 ^ levels →
        depth_of_source (problem_of made answers) ≤ reach f + 2 * levels + 12) }
    ensures size { let f = arithmetic_of problem.now.formula in
        IfOk result (λ made. (answers : Answers) →
        size_of_source (problem_of made answers) ≤ 27 * size f + 3520 * extent f + length problem.now.names + 1) }
    ensures mode { IfOk result (λ made. made.mode ≡ Ws1s) }
    ensures names { IfOk result (λ made. map (λ (g : Variable). g.name) made.globals ≡ problem.now.names) }
    ensures imports_nothing { IfOk result (λ made. made.imports ≡ []) }
    ensures exports_nothing { IfOk result (λ made. made.exports ≡ []) }
    ensures places { IfOk result (λ made. map (λ (placed : Placed). placed.at) made.formulas ≡ start ∷ []) }
    ensures items { IfOk result (λ made. map (λ (placed : Placed). placed.item) made.formulas ≡ 1 ∷ []) }
    ensures files { IfOk result (λ made. made.files ≡ []) }
{
    set_source(alloc, problem)
}
