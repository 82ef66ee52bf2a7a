ghost use Rattle.std.specs.Prelude.{◌≡◌, ◌∷◌, ℕ, [], IfErr, IfOk};
ghost use Rattle.ms_edge.specs.Files.{OnlyRead, between};
ghost use Rattle.ms_presburger.specs.View.{IsWellFormed, arithmetic_of};
ghost use Rattle.ms_presburger_decide.specs.Problem.{IsProblemOf, IsRefusedProblem};

use ms_app_solved::read_tokens;
use ms_edge::{Files, Refusal};
use ms_list::{List, Text};
use ms_presburger::Problem;
use ms_presburger_parse::read_problem;
use std::alloc::Global;

/// The formula of the file with this name, which is the file 0. Its name is noted where it could be read.
pub fn read_formula<F: Files>(
    alloc: Global,
    name: &Text,
    files: &mut F,
    names: &mut List<Text>,
) -> Result<Problem, Refusal>
    requires { names.old ≡ [] }
    ensures problem { IfOk result (λ problem. IsProblemOf (F.told files.old).held name.now (arithmetic_of problem.formula)) }
    ensures well_formed { IfOk result IsWellFormed }
    ensures noted { IfOk result (λ problem. names.new ≡ name.now ∷ []) }
    ensures refused { IfErr result (λ refusal. (limit : ℕ) →
        IsRefusedProblem (between (F.told files.old) (F.told files.new)) name.now limit refusal names.new) }
    ensures only_read { OnlyRead (F.told files.old) (F.told files.new) }
{
    let tokens = match read_tokens(alloc, name, files, names) {
        Ok(tokens) => tokens,
        Err(refusal) => return Err(refusal),
    };
    read_problem(alloc, &tokens, 0)
}
