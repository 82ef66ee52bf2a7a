ghost use Rattle.std.specs.Prelude.{◌≡◌, [], IfErr, IfOk};
ghost use Rattle.ms_build.specs.Built.{IsLimit};
ghost use Rattle.ms_edge.specs.Files.{OnlyRead, between};
ghost use Rattle.ms_presburger_decide.specs.Problem.{IsDecidedProblem, IsRefusedProblem};

use crate::answer::problem_answer;
use crate::reading::read_formula;
use ms_edge::{Files, Refusal};
use ms_list::{Bytes, List, Text};
use ms_report::number_report;
use std::alloc::Global;

/// The report on the formula of linear arithmetic of the file with this name, where nodes and states of a step are together at most
/// `limit`: the verdict over all natural numbers, the first numbers at which it holds and the first at which it does not. The name of
/// the file is appended to `names` where it could be read; a refusal numbers only that file.
pub fn decide_problem<F: Files>(
    alloc: Global,
    name: &Text,
    limit: u64,
    files: &mut F,
    names: &mut List<Text>,
) -> Result<Bytes, Refusal>
    requires first { names.old ≡ [] }
    requires limit { IsLimit limit }
    ensures decided { IfOk result (IsDecidedProblem (F.told files.old).held name.now) }
    ensures refused { IfErr result (λ refusal. IsRefusedProblem (between (F.told files.old) (F.told files.new)) name.now limit refusal names.new) }
    ensures only_read { OnlyRead (F.told files.old) (F.told files.new) }
{
    let problem = match read_formula(alloc, name, files, names) {
        Ok(problem) => problem,
        Err(refusal) => return Err(refusal),
    };
    let answer = match problem_answer(alloc, &problem, limit) {
        Ok(answer) => answer,
        Err(refusal) => return Err(refusal),
    };
    match number_report(alloc, &problem.names, &answer) {
        Ok(text) => Ok(text),
        Err(_) => Err(Refusal::Memory),
    }
}
