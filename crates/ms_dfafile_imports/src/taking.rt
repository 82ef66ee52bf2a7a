ghost use Rattle.std.specs.Prelude.{◌≡◌, ◌≤◌, ◌⊎◌, ◌++◌, ◌∷◌, [], ℕ, length, map, IfErr, IfOk, IsSome, OnOk};
ghost use Rattle.indexmap.specs.IndexMap.{get_by_text};
ghost use Rattle.ms_names_checked.specs.Names.{AreDifferent};
ghost use Rattle.ms_dfa.specs.declared.plain.Plain.{Plain as Content};
ghost use Rattle.ms_dfafile.specs.File.{IsFile};
ghost use Rattle.ms_edge.specs.Files.{OnlyRead, between};
ghost use Rattle.ms_dfafile_imports.specs.Imports.{IsNotTaken};
ghost use Rattle.ms_dfafile_imports.specs.inner.Taken.{AreHeld, AreKept, IsRefusedAt, IsTaken, OneIsTaken, refused_at};

use crate::contents::{content_of, know};
use indexmap::IndexMap;
use ms_dfa::{Automaton, Plain};
use ms_dfafile_adopt::adopt;
use ms_edge::{Files, Refusal};
use ms_list::{List, push};
use ms_logic::{ImportUse, Mode};
use std::alloc::Global;

/// Imports that are being taken, one after the other.
#[derive(Drop)]
pub(crate) struct Taking {
    pub(crate) alloc: Global,
    pub(crate) mode: Mode,
    pub(crate) limit: u64,
    /// The contents of the files that were read, by their names.
    pub(crate) contents: IndexMap<String, Plain>,
    /// The automata of the imports so far.
    pub(crate) automata: List<Automaton>,
}

/// The refusal of the import at a place: a step that lacks nodes has the number of the import.
fn at_import(refusal: Refusal, place: usize) -> Refusal
    ensures { (result ≡ Refusal.Memory) ⊎ (result ≡ refused_at place refusal) }
{
    match refusal {
        Refusal::Nodes { limit, .. } => match u32::try_from(place) {
            Ok(step) => Refusal::Nodes { step, limit },
            // So many imports have long taken all memory.
            Err(_) => Refusal::Memory,
        },
        other => other,
    }
}

impl Taking {
    /// The automaton of an import, the content of whose file is known.
    fn adopted(&self, used: &ImportUse) -> Result<Automaton, Refusal>
        requires known { IsSome (get_by_text self.now.contents used.now.name) }
        requires file { (plain : Content) → get_by_text self.now.contents used.now.name ≡ Some plain → IsFile plain }
        requires different { AreDifferent (map (λ pair. pair.name) used.now.pairs) }
        requires some { 1 ≤ self.now.limit }
        requires small { self.now.limit ≤ 4000000000 }
        ensures taken { IfOk result (IsTaken self.now.limit self.now.mode (λ n. get_by_text self.now.contents n) used.now) }
        ensures refused { IfErr result (λ refusal. (refusal ≡ Refusal.Memory) ⊎ ((plain : Content) × (get_by_text self.now.contents used.now.name ≡ Some plain)
            × IsNotTaken plain used.now self.now.mode self.now.limit (length self.now.automata) refusal)) }
    {
        match content_of(&self.contents, &used.name) {
            Some(plain) => match adopt(self.alloc, plain, used, self.mode, self.limit) {
                Ok(automaton) => Ok(automaton),
                Err(refusal) => Err(at_import(refusal, self.automata.len())),
            },
            None => unreachable!(),
        }
    }

    /// Takes one more import.
    pub(crate) fn take<F: Files>(&mut self, files: &mut F, used: &ImportUse) -> Result<(), Refusal>
        requires held { AreHeld (F.told files.old).held (λ n. get_by_text self.old.contents n) }
        requires different { AreDifferent (map (λ pair. pair.name) used.now.pairs) }
        requires some { 1 ≤ self.old.limit }
        requires small { self.old.limit ≤ 4000000000 }
        ensures mode { OnOk result (self.new.mode ≡ self.old.mode) }
        ensures limit { OnOk result (self.new.limit ≡ self.old.limit) }
        ensures kept { OnOk result (AreKept (λ n. get_by_text self.old.contents n) (λ n. get_by_text self.new.contents n)) }
        ensures held { OnOk result (AreHeld (F.told files.old).held (λ n. get_by_text self.new.contents n)) }
        ensures taken { OnOk result (OneIsTaken self.old.limit self.old.mode (λ n. get_by_text self.new.contents n) used.now self.old.automata self.new.automata) }
        ensures refused { IfErr result (λ refusal. (refusal ≡ Refusal.Memory)
            ⊎ IsRefusedAt (between (F.told files.old) (F.told files.new)) self.old.mode self.old.limit (length self.old.automata) used.now refusal) }

        ensures only_read { OnlyRead (F.told files.old) (F.told files.new) }
    {
        if let Err(refusal) = know(self.alloc, &mut self.contents, files, used) {
            return Err(refusal);
        }
        let automaton = match self.adopted(used) {
            Ok(automaton) => automaton,
            Err(refusal) => return Err(refusal),
        };
        match push(&mut self.automata, automaton) {
            Ok(()) => Ok(()),
            Err(_) => Err(Refusal::Memory),
        }
    }
}
