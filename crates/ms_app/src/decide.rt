ghost use Rattle.std.specs.Prelude.{◌≡◌, ◌⊎◌, ◌+◌, ◌≤◌, [], length, IfErr, IfOk};
ghost use Rattle.std.specs.Option.{option_copied};
ghost use Rattle.ms_build.specs.Built.{IsLimit};
ghost use Rattle.ms_logic.specs.View.{problem_of, Answers};
ghost use Rattle.ms_build_source.specs.Imported.{AreAnswersOf, AreLentFor};
ghost use Rattle.ms_build_source.specs.Limits.{IsUnsolved, IsWithinLimits};
ghost use Rattle.ms_build_source.specs.Solution.{AreExportFiles, IsNamed, IsSolution};
ghost use Rattle.ms_app.specs.Counts.{HasStats};
ghost use Rattle.ms_app.specs.Decision.{IsDecided, IsFound};
ghost use Rattle.ms_app.specs.Source.{IsRefused, file_of};
ghost use Rattle.ms_edge.specs.Files.{OnlyRead, between};
ghost use Rattle.ms_app.specs.inner.Files.{AreNames, AreWritable, HaveOwnNames, IsAmongNames, IsWithMain, IsWritable, pairs_of};
ghost use Rattle.ms_app.specs.inner.Right.{IsRight};
ghost use Rattle.ms_app.specs.Written.{AreFilesOf};

use crate::content::{canonical_of, in_second_version};
use crate::files::{AutomatonFile, add_file, export_files};
use crate::found::{counts, found};
use crate::options::Options;
use crate::source::Accepted;
use crate::taken::{Taken, Wanted, take_file};
use ms_build_source::{Solution, solve};
use ms_dfa::Plain;
use ms_edge::{Files, Refusal};
use ms_list::{List, NoMemory, Text};
use ms_report::{Found, Stats};
use std::alloc::Global;

/// What is found of a source, and the automaton files that are to be written.
#[derive(Drop)]
pub struct Decided {
    pub found: Found,
    pub files: List<AutomatonFile>,
}

/// The counts of a source, and its automaton files.
#[derive(Drop)]
struct Made {
    stats: Option<Stats>,
    files: List<AutomatonFile>,
}

/// The files with that of the main value, where one is asked for.
fn with_main(
    alloc: Global,
    files: List<AutomatonFile>,
    out: Option<&Text>,
    content: &Plain,
) -> Result<List<AutomatonFile>, NoMemory>
    requires { IsWritable content.now }
    ensures { IfOk result (λ more. IsWithMain (pairs_of files) (option_copied out.entry) content.now (pairs_of more)) }
{
    let Some(name) = out else {
        return Ok(files);
    };
    add_file(alloc, files, name, content)
}

/// What is made of a solution: counts, where they are asked for, and the automaton files of the exports and of the main value.
fn made_of(
    alloc: Global,
    source: &Accepted,
    solution: &Solution,
    options: Options,
) -> Result<Made, NoMemory>
    requires named { IsNamed solution.now }
    requires names { AreNames solution.now.names }
    requires long { length source.now.checked.exports ≡ length solution.now.exports }
    requires writable { AreWritable solution.now.exports }
    requires limit { IsLimit options.max_nodes }
    requires fits { length solution.now.automaton.nodes + length solution.now.automaton.states ≤ options.max_nodes }
    ensures stats { IfOk result (λ made. (answers : Answers) → IsSolution source.now.checked answers solution.now →
        HasStats options.entry.stats source.now.checked answers source.now.files made.stats) }
    ensures files { IfOk result (λ made. (answers : Answers) → IsSolution source.now.checked answers solution.now →
        AreExportFiles options.entry.format (problem_of source.now.checked answers) 0 source.now.checked.exports solution.now.exports →
        AreFilesOf options.entry.format source.now.checked answers (option_copied options.entry.out) (pairs_of made.files)) }
{
    let files = match export_files(
        alloc,
        source.checked.exports.slice(),
        solution.exports.slice(),
    ) {
        Ok(files) => files,
        Err(fault) => return Err(fault),
    };
    if !options.stats {
        match options.out {
            None => return Ok(Made { stats: None, files }),
            Some(_) => {}
        }
    }
    let content = match canonical_of(alloc, solution, options.format, options.max_nodes) {
        Ok(content) => content,
        Err(fault) => return Err(fault),
    };
    let files = match with_main(alloc, files, options.out, &content) {
        Ok(files) => files,
        Err(fault) => return Err(fault),
    };
    if !options.stats {
        return Ok(Made { stats: None, files });
    }
    let counted = match in_second_version(alloc, solution, content, options.max_nodes) {
        Ok(counted) => counted,
        Err(fault) => return Err(fault),
    };
    let stats = Some(counts(solution, &counted, source.files));
    Ok(Made { stats, files })
}

/// What is found of a source, and its automaton files.
pub fn decide(alloc: Global, taken: &Taken, options: Options) -> Result<Decided, Refusal>
    requires right { IsRight taken.now.source.checked }
    requires imports { AreLentFor taken.now.source.checked.mode taken.now.source.checked.imports taken.now.imports }
    requires limit { IsLimit options.max_nodes }
    ensures found { IfOk result (λ made. (answers : Answers) → AreAnswersOf taken.now.source.checked.mode taken.now.source.checked.imports answers taken.now.imports →
        IsFound taken.now.source.checked answers made.found
        × HasStats options.entry.stats taken.now.source.checked answers taken.now.source.files made.found.stats
        × AreFilesOf options.entry.format taken.now.source.checked answers (option_copied options.entry.out) (pairs_of made.files)) }
    ensures within { IfOk result (λ made. (answers : Answers) → IsWithinLimits (problem_of taken.now.source.checked answers)) }
    ensures refused { IfErr result (λ refusal. (answers : Answers) → length answers ≡ length taken.now.source.checked.imports →
        (refusal ≡ Refusal.Memory) ⊎ IsUnsolved taken.now.source.checked answers taken.now.imports options.entry.max_nodes refusal) }
{
    let checked = &taken.source.checked;
    let solution = match solve(
        alloc,
        checked,
        &taken.imports,
        options.max_nodes,
        Some(options.format),
    ) {
        Ok(solution) => solution,
        Err(refusal) => return Err(refusal),
    };
    let Ok(made) = made_of(alloc, &taken.source, &solution, options) else {
        return Err(Refusal::Memory);
    };
    match found(alloc, checked, solution, made.stats) {
        Ok(found) => Ok(Decided {
            found,
            files: made.files,
        }),
        Err(_) => Err(Refusal::Memory),
    }
}

/// A file that is decided: what is found of it, and its automaton files.
pub fn decide_file<F: Files>(
    alloc: Global,
    name: &Text,
    options: Options,
    files: &mut F,
    names: &mut List<Text>,
) -> Result<Decided, Refusal>
    requires first { names.old ≡ [] }
    requires limit { IsLimit options.max_nodes }
    requires among { IsAmongNames (option_copied options.out) options.outs.now }
    ensures decided { IfOk result (λ made. IsDecided (file_of (between (F.told files.old) (F.told files.new)) 0 name.now) options.entry.outs.now
        (option_copied options.entry.out) options.entry.stats options.entry.format made.found (pairs_of made.files)) }
    ensures own_names { IfOk result (λ made. HaveOwnNames (pairs_of made.files)) }
    ensures refused { IfErr result (λ refusal. IsRefused (file_of (between (F.told files.old) (F.told files.new)) 0 name.now) options.entry.outs.now options.entry.max_nodes
        refusal names.new) }
    ensures only_read { OnlyRead (F.told files.old) (F.told files.new) }
{
    let wanted = Wanted {
        outs: options.outs,
        max_nodes: options.max_nodes,
    };
    let taken = match take_file(alloc, name, wanted, files, names) {
        Ok(taken) => taken,
        Err(refusal) => return Err(refusal),
    };
    decide(alloc, &taken, options)
}
