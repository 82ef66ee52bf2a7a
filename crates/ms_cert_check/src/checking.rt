ghost use Rattle.std.specs.Prelude.{◌≡◌, IfErr, IfOk};
ghost use Rattle.ms_edge.specs.Files.{OnlyRead, between};
ghost use Rattle.ms_cert_check.specs.Check.{IsChecked, IsRefusedCheck};

use crate::file::{automaton, certificate};
use crate::text::check_text;
use ms_cert::checked;
use ms_edge::{Files, Refusal};
use ms_list::{Bytes, Text};
use std::alloc::Global;

/// What the certificate beside the automaton file of this name proves of it: the text to print. The certificate has the same name, followed
/// by `.cert`.
pub fn check<F: Files>(alloc: Global, name: &Text, files: &mut F) -> Result<Bytes, Refusal>
    ensures checked { IfOk result (IsChecked (F.told files.old).held name.now) }
    ensures refused { IfErr result (IsRefusedCheck (between (F.told files.old) (F.told files.new)) name.now) }
    ensures only_read { OnlyRead (F.told files.old) (F.told files.new) }
{
    let plain = match automaton(alloc, files, name) {
        Ok(plain) => plain,
        Err(refusal) => return Err(refusal),
    };
    let cert = match certificate(alloc, files, name) {
        Ok(cert) => cert,
        Err(refusal) => return Err(refusal),
    };
    let found = match checked(alloc, &plain, &cert) {
        Ok(found) => found,
        Err(_) => return Err(Refusal::Memory),
    };
    match check_text(alloc, found) {
        Ok(text) => Ok(text),
        Err(_) => Err(Refusal::Memory),
    }
}
