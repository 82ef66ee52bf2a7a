ghost use Rattle.std.specs.Prelude.{◌≡◌, ◌≤◌, ◌⊎◌, ◌++◌, ◌∷◌, [], List, ℕ, length, IfOk, IfErr, OnOk, OnErr};
ghost use Rattle.ms_edge.specs.Files.{OnlyRead, Seen, between};
ghost use Rattle.ms_include.specs.File.{AreBytes, ReadAs, ReadAsNone, IsSource, IsNoSource, IsUnread, source_limit};
ghost use Rattle.ms_include.specs.inner.Seen.{IsPart};

use ms_edge::{Files, ReadAnswer, Refusal};
use ms_list::{At, Bytes, List, Text};
use ms_logic::Source;
use ms_text::tokens;
use std::alloc::Global;

/// The most bytes of a source file.
const SOURCE_LIMIT: u64 = 1_048_576;

/// The bytes of a source file, which is named at a place.
pub fn read_source<F: Files>(
    alloc: Global,
    files: &mut F,
    named: Option<At>,
    name: &Text,
) -> Result<Bytes, Refusal>
    ensures read { IfOk result (AreBytes (F.told files.old).held name.now) }
    ensures refused { IfErr result (λ refusal. (refusal ≡ Refusal.Memory) ⊎ IsUnread (between (F.told files.old) (F.told files.new)) named name.now refusal) }
    ensures refused_within { (request : Seen) → IsPart (between (F.told files.old) (F.told files.new)) request →
        IfErr result (λ refusal. (refusal ≡ Refusal.Memory) ⊎ IsUnread request named name.now refusal) }

    ensures only_read { OnlyRead (F.told files.old) (F.told files.new) }
{
    let answer = match files.read(alloc, name.text(), SOURCE_LIMIT) {
        Ok(bytes) => return Ok(bytes),
        Err(answer) => answer,
    };
    let Ok(name) = Text::new(alloc, name.text()) else {
        return Err(Refusal::Memory);
    };
    Err(match answer {
        ReadAnswer::Missing => Refusal::FileMissing { at: named, name },
        ReadAnswer::TooLong => Refusal::FileSize {
            name,
            limit: SOURCE_LIMIT,
        },
        ReadAnswer::Failed => Refusal::ReadFault { name },
        ReadAnswer::NoMemory => Refusal::Memory,
    })
}

/// What the bytes of the file with this number read as.
pub fn parse(alloc: Global, bytes: Bytes, number: u32) -> Result<Source, Refusal>
    requires { length bytes ≤ source_limit }
    ensures read { IfOk result (ReadAs number bytes) }
    ensures refused { IfErr result (λ refusal. (refusal ≡ Refusal.Memory) ⊎ ReadAsNone number bytes refusal) }
{
    let tokens = tokens(alloc, bytes, number)?;
    ms_parse::parse(alloc, &tokens, number)
}

/// Appends a copy of the name.
pub fn note(alloc: Global, names: &mut List<Text>, name: &Text) -> Result<(), Refusal>
    ensures ok { OnOk result (names.new ≡ names.old ++ name.now ∷ []) }
    ensures err { OnErr result (names.new ≡ names.old) }
    ensures memory { IfErr result (λ refusal. refusal ≡ Refusal.Memory) }
{
    let Ok(copy) = Text::new(alloc, name.text()) else {
        return Err(Refusal::Memory);
    };
    match names.push(copy) {
        Ok(()) => Ok(()),
        Err(_) => Err(Refusal::Memory),
    }
}

/// Reads the file, which is named at a place and gets this number, and notes its name where it could be read.
pub fn open<F: Files>(
    alloc: Global,
    files: &mut F,
    names: &mut List<Text>,
    named: Option<At>,
    name: &Text,
    number: u32,
) -> Result<Source, Refusal>
    ensures read { IfOk result (IsSource (F.told files.old).held number name.now) }
    ensures noted { OnOk result (names.new ≡ names.old ++ name.now ∷ []) }
    ensures refused { (request : Seen) → IsPart (between (F.told files.old) (F.told files.new)) request →
        IfErr result (λ refusal. (refusal ≡ Refusal.Memory)
        ⊎ (IsUnread request named name.now refusal × (names.new ≡ names.old))
        ⊎ (IsNoSource (F.told files.old).held number name.now refusal × (names.new ≡ names.old ++ name.now ∷ []))) }
    ensures grown { (added : List (List ℕ)) × (names.new ≡ names.old ++ added) }

    ensures only_read { OnlyRead (F.told files.old) (F.told files.new) }
{
    let bytes = match read_source(alloc, files, named, name) {
        Ok(bytes) => bytes,
        Err(refusal) => return Err(refusal),
    };
    note(alloc, names, name)?;
    parse(alloc, bytes, number)
}
