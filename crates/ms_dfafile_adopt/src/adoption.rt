ghost use Rattle.std.specs.Prelude.{◌≡◌, ◌≢◌, ◌≤◌, ◌+◌, ℕ, AllPairs, length, map, IfOk, IfErr};
ghost use Rattle.ms_dfafile.specs.File.{IsFile};
ghost use Rattle.ms_logic_words.specs.Content.{IsOpen, variables_by_place};
ghost use Rattle.ms_dfa.specs.Values.{HasValues};
ghost use Rattle.ms_dfa.specs.Files.{content_of_file};
ghost use Rattle.ms_logic_words.specs.Residual.{IsLeast};
ghost use Rattle.ms_dfafile_adopt.specs.Import.{Fits, IsImportable, IsNotImportable, adopted_meaning};
ghost use Rattle.ms_dfafile_adopt.specs.Made.{IsRenamedFile};
ghost use Rattle.ms_dfafile_adopt.specs.Naming.{IsNaming};
ghost use Rattle.ms_dfafile_adopt.specs.Readings.{AgreesWithFile};
ghost use Rattle.ms_dfafile_adopt.specs.inner.Images.{refusal_of};

use crate::in_mode::{NotInMode, in_mode};
use crate::naming::naming;
use crate::over_strings::over_strings;
use ms_dfa::{Automaton, Plain};
use ms_edge::Refusal;
use ms_list::{List, StepFault, Text};
use ms_logic::{ImportUse, Mode};
use ms_rename::rename;
use std::alloc::Global;

/// The refusal of an import for a step that was refused.
fn refused(fault: StepFault) -> Refusal
    ensures { result ≡ refusal_of fault }
{
    match fault {
        StepFault::Nodes { limit } => Refusal::Nodes { step: 0, limit },
        StepFault::Memory => Refusal::Memory,
    }
}

/// For each variable of the file the place of the pair that names it, where the file is of the mode and has the variables
/// that the import names.
fn fitting(alloc: Global, plain: &Plain, used: &ImportUse, mode: Mode) -> Result<List<u32>, Refusal>
    requires { AllPairs (λ one other. one ≢ other) (map (λ pair. pair.name) used.now.pairs) }
    ensures naming { IfOk result (IsNaming plain.now used.now.pairs) }
    ensures fits { IfOk result (λ places. Fits plain.now used.now mode) }
    ensures refused { IfErr result (λ refusal. (limit : ℕ) → IsNotImportable plain.now used.now mode limit refusal) }
{
    let at = used.at;
    if plain.mode != mode {
        return match Text::new(alloc, used.name.text()) {
            Ok(name) => Err(Refusal::ImportMode { at, name }),
            Err(_) => Err(Refusal::Memory),
        };
    }
    match naming(alloc, plain, used.pairs.slice()) {
        Ok(Some(places)) => Ok(places),
        Ok(None) => match Text::new(alloc, used.name.text()) {
            Ok(name) => Err(Refusal::ImportVars { at, name }),
            Err(_) => Err(Refusal::Memory),
        },
        Err(_) => Err(Refusal::Memory),
    }
}

/// The file as an automaton of its mode, over its own variables, with fewest states.
fn own_in_mode(
    alloc: Global,
    plain: &Plain,
    used: &ImportUse,
    mode: Mode,
    limit: u64,
) -> Result<Automaton, Refusal>
    requires file { IsFile plain.now }
    requires fits { Fits plain.now used.now mode }
    requires some { 1 ≤ limit }
    requires small { limit ≤ 4000000000 }
    ensures signs { IfOk result (AgreesWithFile plain.now mode) }
    ensures least { IfOk result IsLeast }
    ensures settled { IfOk result (λ made. ¬ IsOpen (content_of_file plain.now)) }
    ensures within { IfOk result (λ made. length made.nodes + length made.states ≤ limit) }
    ensures refused { IfErr result (IsNotImportable plain.now used.now mode limit) }
{
    let own = match over_strings(alloc, plain, limit) {
        Ok(own) => own,
        Err(fault) => return Err(refused(fault)),
    };
    let at = used.at;
    match in_mode(alloc, own, mode) {
        Ok(made) => Ok(made),
        Err(NotInMode::Memory) => Err(Refusal::Memory),
        Err(NotInMode::Open(word)) => match Text::new(alloc, used.name.text()) {
            Ok(name) => {
                let length = word.letters.len() as u64;
                Err(Refusal::ImportOpen {
                    at,
                    name,
                    length,
                    word,
                })
            }
            Err(_) => Err(Refusal::Memory),
        },
    }
}

/// The automaton of a file over the variables of an import: variable `j` is the one that pair `j` names. It answers at all
/// values of these variables what the file says there. Nodes and states of a step are together at most `limit`. It knows of
/// one import, so a refusal for nodes names step 0.
pub fn adopt(
    alloc: Global,
    plain: &Plain,
    used: &ImportUse,
    mode: Mode,
    limit: u64,
) -> Result<Automaton, Refusal>
    requires file { IsFile plain.now }
    requires different { AllPairs (λ one other. one ≢ other) (map (λ pair. pair.name) used.now.pairs) }
    requires some { 1 ≤ limit }
    requires small { limit ≤ 4000000000 }
    ensures mode { IfOk result (λ made. made.mode ≡ mode) }
    ensures variables { IfOk result (λ made. made.variables ≡ variables_by_place (map (λ pair. pair.order) used.now.pairs)) }
    ensures values { IfOk result (HasValues
        (adopted_meaning plain.now (map (λ pair. pair.name) used.now.pairs) (variables_by_place (map (λ pair. pair.order) used.now.pairs)))) }
    ensures importable { IfOk result (λ made. IsImportable plain.now mode used.now.pairs) }
    ensures size { IfOk result (IsRenamedFile plain.now used.now.pairs mode) }
    ensures within { IfOk result (λ made. length made.nodes + length made.states ≤ limit) }
    ensures refused { IfErr result (IsNotImportable plain.now used.now mode limit) }
{
    let places = match fitting(alloc, plain, used, mode) {
        Ok(places) => places,
        Err(refusal) => return Err(refusal),
    };
    let own = match own_in_mode(alloc, plain, used, mode, limit) {
        Ok(own) => own,
        Err(refusal) => return Err(refusal),
    };
    // The states tell that it is an automaton.
    let _ = own.states();
    match rename(alloc, &own, places.slice(), limit) {
        Ok(made) => Ok(made),
        Err(fault) => Err(refused(fault)),
    }
}
