ghost use Rattle.std.specs.Prelude.{◌≡◌, ◌≤◌, ◌⊎◌, length, IfOk, IfErr};
ghost use Rattle.ms_dfa.specs.declared.plain.Plain.{Plain as Content};
ghost use Rattle.ms_dfafile.specs.File.{IsSpelled};
ghost use Rattle.ms_edge.specs.Files.{Holds, OnlyRead, between};
ghost use Rattle.ms_edge.specs.declared.refusal.Refusal.TheVariants.{ImportText};
ghost use Rattle.ms_dfafile_imports.specs.Imports.{IsHeld, IsNoAutomaton, IsUnread, automaton_limit};

use ms_dfa::Plain;
use ms_dfafile::{FileFault, read};
use ms_edge::{Files, ReadAnswer, Refusal};
use ms_list::{Bytes, Text};
use ms_logic::ImportUse;
use std::alloc::Global;

/// The most bytes of an automaton file that is read.
const AUTOMATON_LIMIT: u64 = 67_108_864;

/// The bytes of the file of an import.
fn bytes<F: Files>(alloc: Global, files: &mut F, used: &ImportUse) -> Result<Bytes, Refusal>
    ensures holds { IfOk result (Holds (F.told files.old).held used.now.name) }
    ensures within { IfOk result (λ bytes. length bytes ≤ automaton_limit) }
    ensures refused { IfErr result (λ refusal. (refusal ≡ Refusal.Memory) ⊎ IsUnread (between (F.told files.old) (F.told files.new)) used.now refusal) }
    ensures only_read { OnlyRead (F.told files.old) (F.told files.new) }
{
    let answer = match files.read(alloc, used.name.text(), AUTOMATON_LIMIT) {
        Ok(bytes) => return Ok(bytes),
        Err(answer) => answer,
    };
    let Ok(name) = Text::new(alloc, used.name.text()) else {
        return Err(Refusal::Memory);
    };
    Err(match answer {
        ReadAnswer::Missing => Refusal::ImportMissing { at: used.at, name },
        ReadAnswer::TooLong => Refusal::FileSize {
            name,
            limit: AUTOMATON_LIMIT,
        },
        ReadAnswer::Failed => Refusal::ReadFault { name },
        ReadAnswer::NoMemory => Refusal::Memory,
    })
}

/// The content whose automaton file the bytes of the file of an import are.
fn content(alloc: Global, bytes: &[u8], used: &ImportUse) -> Result<Plain, Refusal>
    ensures spelled { IfOk result (IsSpelled bytes.now) }
    ensures refused { IfErr result (λ refusal. (refusal ≡ Refusal.Memory)
        ⊎ ((refusal ≡ ImportText used.now.at used.now.name) × ((plain : Content) → ¬ IsSpelled bytes.now plain))) }
{
    match read(alloc, bytes) {
        Ok(plain) => Ok(plain),
        Err(FileFault::Memory) => Err(Refusal::Memory),
        Err(FileFault::Text) => match Text::new(alloc, used.name.text()) {
            Ok(name) => Err(Refusal::ImportText { at: used.at, name }),
            Err(_) => Err(Refusal::Memory),
        },
    }
}

/// The content of the file of an import.
pub(crate) fn open<F: Files>(
    alloc: Global,
    files: &mut F,
    used: &ImportUse,
) -> Result<Plain, Refusal>
    ensures held { IfOk result (IsHeld (F.told files.old).held used.now.name) }
    ensures refused { IfErr result (λ refusal. (refusal ≡ Refusal.Memory)
        ⊎ IsUnread (between (F.told files.old) (F.told files.new)) used.now refusal
        ⊎ IsNoAutomaton (F.told files.old).held used.now refusal) }

    ensures only_read { OnlyRead (F.told files.old) (F.told files.new) }
{
    let bytes = match bytes(alloc, files, used) {
        Ok(bytes) => bytes,
        Err(refusal) => return Err(refusal),
    };
    content(alloc, bytes.slice(), used)
}
