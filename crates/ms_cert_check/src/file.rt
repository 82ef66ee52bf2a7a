//! The automaton file, and its certificate.

ghost use Rattle.std.specs.Prelude.{◌≡◌, ◌⊎◌, IfErr, IfOk};
ghost use Rattle.ms_edge.specs.Files.{OnlyRead, between};
ghost use Rattle.ms_cert_check.specs.Files.{AreBytes, IsAutomatonFile, IsCertFile, IsNoAutomaton, IsNoCert, IsUnread, cert_name};

use ms_cert::{Cert, read_cert};
use ms_dfa::Plain;
use ms_dfafile::{FileFault, read};
use ms_edge::{Files, ReadAnswer, Refusal};
use ms_list::{Bytes, Text};
use std::alloc::Global;

/// The most bytes of each file.
const FILE_LIMIT: u64 = 67_108_864;

/// The bytes of a file.
fn bytes<F: Files>(alloc: Global, files: &mut F, name: &Text) -> Result<Bytes, Refusal>
    ensures bytes { IfOk result (AreBytes (F.told files.old).held name.now) }
    ensures refused { IfErr result (λ refusal. (refusal ≡ Refusal.Memory) ⊎ IsUnread (between (F.told files.old) (F.told files.new)) name.now refusal) }
    ensures only_read { OnlyRead (F.told files.old) (F.told files.new) }
{
    let answer = match files.read(alloc, name.text(), FILE_LIMIT) {
        Ok(bytes) => return Ok(bytes),
        Err(answer) => answer,
    };
    let Ok(name) = Text::new(alloc, name.text()) else {
        return Err(Refusal::Memory);
    };
    Err(match answer {
        ReadAnswer::Missing => Refusal::FileMissing { at: None, name },
        ReadAnswer::TooLong => Refusal::FileSize {
            name,
            limit: FILE_LIMIT,
        },
        ReadAnswer::Failed => Refusal::ReadFault { name },
        ReadAnswer::NoMemory => Refusal::Memory,
    })
}

/// The content of the automaton file of this name.
pub(crate) fn automaton<F: Files>(
    alloc: Global,
    files: &mut F,
    name: &Text,
) -> Result<Plain, Refusal>
    ensures file { IfOk result (IsAutomatonFile (F.told files.old).held name.now) }
    ensures refused { IfErr result (λ refusal. (refusal ≡ Refusal.Memory)
        ⊎ IsUnread (between (F.told files.old) (F.told files.new)) name.now refusal
        ⊎ IsNoAutomaton (F.told files.old).held name.now refusal) }
    ensures only_read { OnlyRead (F.told files.old) (F.told files.new) }
{
    let bytes = match bytes(alloc, files, name) {
        Ok(bytes) => bytes,
        Err(refusal) => return Err(refusal),
    };
    match read(alloc, bytes.slice()) {
        Ok(plain) => Ok(plain),
        Err(FileFault::Memory) => Err(Refusal::Memory),
        Err(FileFault::Text) => match Text::new(alloc, name.text()) {
            Ok(name) => Err(Refusal::AutomatonText { name }),
            Err(_) => Err(Refusal::Memory),
        },
    }
}

/// The name of the certificate of a file: its own, with `.cert` behind it.
pub fn cert_name(alloc: Global, name: &Text) -> Result<Text, Refusal>
    ensures name { IfOk result (λ made. made ≡ cert_name name.now) }
    ensures refused { IfErr result (λ refusal. refusal ≡ Refusal.Memory) }
{
    let Ok(mut text) = String::from_str(alloc, name.text()) else {
        return Err(Refusal::Memory);
    };
    match text.push_str(".cert") {
        Ok(()) => {}
        Err(_) => return Err(Refusal::Memory),
    }
    match Text::new(alloc, text.as_str()) {
        Ok(name) => Ok(name),
        Err(_) => Err(Refusal::Memory),
    }
}

/// The certificate of the file of this name.
pub(crate) fn certificate<F: Files>(
    alloc: Global,
    files: &mut F,
    name: &Text,
) -> Result<Cert, Refusal>
    ensures file { IfOk result (IsCertFile (F.told files.old).held name.now) }
    ensures refused { IfErr result (λ refusal. (refusal ≡ Refusal.Memory)
        ⊎ IsUnread (between (F.told files.old) (F.told files.new)) (cert_name name.now) refusal
        ⊎ IsNoCert (F.told files.old).held name.now refusal) }
    ensures only_read { OnlyRead (F.told files.old) (F.told files.new) }
{
    let name = match cert_name(alloc, name) {
        Ok(name) => name,
        Err(refusal) => return Err(refusal),
    };
    let bytes = match bytes(alloc, files, &name) {
        Ok(bytes) => bytes,
        Err(refusal) => return Err(refusal),
    };
    match read_cert(alloc, bytes.slice()) {
        Ok(cert) => Ok(cert),
        Err(FileFault::Memory) => Err(Refusal::Memory),
        Err(FileFault::Text) => Err(Refusal::CertText { name }),
    }
}
