ghost use Rattle.std.specs.Prelude.{◌≡◌, ◌≤◌, ◌⊎◌, ◌↔◌, ◌++◌, ℕ, [], Contains, List, Some, length, slice_get, take, IfErr, IfNone, IfOk, IfSome, IsTrue};
ghost use Rattle.ms_build.specs.Built.{IsLimit};
ghost use Rattle.ms_dfa.specs.declared.plain.Plain.{Plain};
ghost use Rattle.ms_edge.specs.Files.{OnlyRead, between};
ghost use Rattle.ms_dfafile_imports.specs.Adopted.{AreAdopted};
ghost use Rattle.ms_logic.specs.declared.source.Loaded.{Loaded as Declarations};
ghost use Rattle.ms_app.specs.Source.{AreOutsFree, IsOutTaken, IsRefused, IsTaken, file_of};
ghost use Rattle.ms_app.specs.inner.Right.{IsRight};

use crate::source::{Accepted, accept_file};
use ms_dfa::Automaton;
use ms_dfafile_imports::imports;
use ms_edge::{Files, Refusal};
use ms_list::{List, Text};
use ms_logic::ExportUse;
use std::alloc::Global;

/// What is wanted of a file: that it exports no file of one of the names `outs`, and the greatest number of nodes and states of a
/// step.
#[derive(Clone, Copy)]
pub struct Wanted<'a> {
    pub outs: &'a [Text],
    pub max_nodes: u64,
}

/// A source in which nothing is wrong, with the automata that it imports.
#[derive(Drop)]
pub struct Taken {
    pub source: Accepted,
    pub imports: List<Automaton>,
}

/// Whether a name is one of these.
fn is_among(names: &[Text], name: &str) -> bool
    ensures { IsTrue result ↔ Contains names.now name.now }
{
    for one in names {
        if one.text() == name {
            return true;
        }
    }
    false
}

/// The first export that has one of these names.
fn first_taken<'a>(exports: &'a [ExportUse], outs: &[Text]) -> Option<&'a ExportUse>
    ensures found { IfSome result (λ used. (place : ℕ) × (slice_get exports.entry.now place ≡ Some used.now)
        × AreOutsFree outs.now (take place exports.entry.now) × Contains outs.now used.now.name) }
    ensures none { IfNone result (AreOutsFree outs.now exports.entry.now) }
{
    for used in exports {
        if is_among(outs, used.name.text()) {
            return Some(used);
        }
    }
    None
}

/// Whether no export has one of these names, or the refusal of the first that has.
fn free(alloc: Global, exports: &[ExportUse], outs: &[Text]) -> Result<(), Refusal>
    ensures free { IfOk result (λ done. AreOutsFree outs.now exports.now) }
    ensures refused { IfErr result (λ refusal. (refusal ≡ Refusal.Memory) ⊎ IsOutTaken outs.now exports.now refusal) }
{
    let Some(used) = first_taken(exports, outs) else {
        return Ok(());
    };
    match Text::new(alloc, used.name.text()) {
        Ok(name) => Err(Refusal::Twice { at: used.at, name }),
        Err(_) => Err(Refusal::Memory),
    }
}

/// A file with its includes put in place, in which nothing is wrong, and the automata of what it imports. The names of the files that
/// are read as sources are appended to `names`.
pub fn take_file<F: Files>(
    alloc: Global,
    name: &Text,
    wanted: Wanted,
    files: &mut F,
    names: &mut List<Text>,
) -> Result<Taken, Refusal>
    requires few { length names.old ≤ 64 }
    requires limit { IsLimit wanted.max_nodes }
    ensures taken { IfOk result (λ made. (loaded : Declarations) × (plains : List Plain)
        × IsTaken (file_of (between (F.told files.old) (F.told files.new)) (length names.old) name.now) wanted.entry.outs.now loaded made.source.checked plains
        × AreAdopted wanted.entry.max_nodes made.source.checked.mode made.source.checked.imports plains made.imports
        × (made.source.files ≡ length loaded.files) × (length loaded.files ≤ 64) × (names.new ≡ names.old ++ loaded.files)) }
    ensures right { IfOk result (λ made. IsRight made.source.checked) }
    ensures refused { IfErr result (λ refusal. (refusal ≡ Refusal.Memory) ⊎ ((read : List (List ℕ)) × (names.new ≡ names.old ++ read)
        × IsRefused (file_of (between (F.told files.old) (F.told files.new)) (length names.old) name.now) wanted.entry.outs.now wanted.entry.max_nodes refusal read)) }
    ensures only_read { OnlyRead (F.told files.old) (F.told files.new) }
{
    let source = match accept_file(alloc, name, files, names) {
        Ok(source) => source,
        Err(refusal) => return Err(refusal),
    };
    match free(alloc, source.checked.exports.slice(), wanted.outs) {
        Ok(()) => {}
        Err(refusal) => return Err(refusal),
    }
    match imports(alloc, &source.checked, wanted.max_nodes, files) {
        Ok(imports) => Ok(Taken { source, imports }),
        Err(refusal) => Err(refusal),
    }
}
