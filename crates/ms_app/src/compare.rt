ghost use Rattle.std.specs.Prelude.{◌≡◌, ◌≤◌, ◌⊎◌, ◌+◌, ◌++◌, ℕ, [], List, None, length, IfErr, IfOk};
ghost use Rattle.ms_build.specs.Built.{IsLimit};
ghost use Rattle.ms_dfa.specs.declared.plain.Plain.{Plain};
ghost use Rattle.ms_edge.specs.Files.{OnlyRead, between};
ghost use Rattle.ms_logic.specs.declared.source.Loaded.{Loaded as Declarations};
ghost use Rattle.ms_build_source.specs.Solution.{IsNamed, IsSolution};
ghost use Rattle.ms_app.specs.Comparison.{AreCompared, IsRefusedComparison};
ghost use Rattle.ms_app.specs.Source.{IsRefused, IsSolved, answers_with, file_of};

use crate::agreement::agree;
use crate::same_globals::have_same_globals;
use crate::source::Accepted;
use crate::taken::{Wanted, take_file};
use ms_build_source::{Solution, solve};
use ms_edge::{Files, Refusal};
use ms_list::{List, Text};
use std::alloc::Global;

/// The names of two files.
#[derive(Clone, Copy)]
pub struct Pair<'a> {
    pub left: &'a Text,
    pub right: &'a Text,
}

/// A source and its solution.
struct Solved {
    source: Accepted,
    solution: Solution,
}

impl Drop for Solved {
    fn drop(self) {
        let Solved {
            source: _,
            solution: _,
        } = self;
    }
}

/// A file and its solution.
fn solve_file<F: Files>(
    alloc: Global,
    name: &Text,
    limit: u64,
    files: &mut F,
    names: &mut List<Text>,
) -> Result<Solved, Refusal>
    requires few { length names.old ≤ 64 }
    requires limit { IsLimit limit }
    ensures solved { IfOk result (λ made. (loaded : Declarations) × (plains : List Plain)
        × IsSolved (file_of (between (F.told files.old) (F.told files.new)) (length names.old) name.now) [] loaded made.source.checked plains
        × IsSolution made.source.checked (answers_with made.source.checked plains) made.solution
        × (length loaded.files ≤ 64) × (names.new ≡ names.old ++ loaded.files)) }
    ensures fits { IfOk result (λ made. length made.solution.automaton.nodes + length made.solution.automaton.states ≤ limit) }
    ensures named { IfOk result (λ made. IsNamed made.solution) }
    ensures refused { IfErr result (λ refusal. (refusal ≡ Refusal.Memory) ⊎ ((read : List (List ℕ)) × (names.new ≡ names.old ++ read)
        × IsRefused (file_of (between (F.told files.old) (F.told files.new)) (length names.old) name.now) [] limit refusal read)) }
    ensures only_read { OnlyRead (F.told files.old) (F.told files.new) }
{
    let wanted = Wanted {
        outs: &[],
        max_nodes: limit,
    };
    let taken = match take_file(alloc, name, wanted, files, names) {
        Ok(taken) => taken,
        Err(refusal) => return Err(refusal),
    };
    match solve(alloc, &taken.source.checked, &taken.imports, limit, None) {
        Ok(solution) => Ok(Solved {
            source: taken.source,
            solution,
        }),
        Err(refusal) => Err(refusal),
    }
}

/// Whether the main values of two files are the same at each assignment, where nodes and states of a step are together at
/// most `limit`. The left file is read first; the files that a refusal numbers are in `names`.
pub fn compare<F: Files>(
    alloc: Global,
    pair: Pair,
    limit: u64,
    files: &mut F,
    names: &mut List<Text>,
) -> Result<bool, Refusal>
    requires first { names.old ≡ [] }
    requires limit { IsLimit limit }
    ensures compared { IfOk result (AreCompared pair.entry.left.now pair.entry.right.now (between (F.told files.old) (F.told files.new))) }
    ensures refused { IfErr result (λ refusal. IsRefusedComparison pair.entry.left.now pair.entry.right.now limit (between (F.told files.old) (F.told files.new)) refusal names.new) }
    ensures only_read { OnlyRead (F.told files.old) (F.told files.new) }
{
    let one = match solve_file(alloc, pair.left, limit, files, names) {
        Ok(one) => one,
        Err(refusal) => return Err(refusal),
    };
    let two = match solve_file(alloc, pair.right, limit, files, names) {
        Ok(two) => two,
        Err(refusal) => return Err(refusal),
    };
    if !have_same_globals(&one.source.checked, &two.source.checked) {
        return Err(Refusal::VarsDiffer);
    }
    agree(alloc, &one.solution, &two.solution, limit)
}
