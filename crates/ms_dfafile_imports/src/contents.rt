ghost use Rattle.std.specs.Prelude.{◌≡◌, ◌⊎◌, IfErr, IsSome, OnOk, option_copied, string_bytes};
ghost use Rattle.indexmap.specs.IndexMap.{get_by_text};
ghost use Rattle.ms_edge.specs.Files.{OnlyRead, between};
ghost use Rattle.ms_dfafile_imports.specs.Imports.{IsNoAutomaton, IsUnread};
ghost use Rattle.ms_dfafile_imports.specs.inner.Taken.{AreHeld, AreKept, IsNoted};

use crate::file::open;
use indexmap::IndexMap;
use ms_dfa::Plain;
use ms_edge::{Files, Refusal};
use ms_list::Text;
use ms_logic::ImportUse;
use std::alloc::Global;

/// The content of the file of a name, where it is known.
pub(crate) fn content_of<'a>(
    contents: &'a IndexMap<String, Plain>,
    name: &Text,
) -> Option<&'a Plain>
    ensures { option_copied result ≡ get_by_text contents.now name.now }
{
    contents.get(name.text())
}

/// Notes the content of the file of a name.
fn note(contents: &mut IndexMap<String, Plain>, name: String, plain: Plain) -> Result<(), Refusal>
    ensures noted { OnOk result (IsNoted (λ n. get_by_text contents.old n) (λ n. get_by_text contents.new n) (string_bytes name) plain) }
    ensures memory { IfErr result (λ refusal. refusal ≡ Refusal.Memory) }
{
    match contents.insert(name, plain) {
        Ok(_) => Ok(()),
        Err(_) => Err(Refusal::Memory),
    }
}

/// Sees to it that the content of the file of an import is known. The file is read where it is used first.
pub(crate) fn know<F: Files>(
    alloc: Global,
    contents: &mut IndexMap<String, Plain>,
    files: &mut F,
    used: &ImportUse,
) -> Result<(), Refusal>
    requires { AreHeld (F.told files.old).held (λ n. get_by_text contents.old n) }
    ensures known { OnOk result (IsSome (get_by_text contents.new used.now.name)) }
    ensures kept { OnOk result (AreKept (λ n. get_by_text contents.old n) (λ n. get_by_text contents.new n)) }
    ensures held { OnOk result (AreHeld (F.told files.old).held (λ n. get_by_text contents.new n)) }
    ensures refused { IfErr result (λ refusal. (refusal ≡ Refusal.Memory)
        ⊎ IsUnread (between (F.told files.old) (F.told files.new)) used.now refusal
        ⊎ IsNoAutomaton (F.told files.old).held used.now refusal) }

    ensures only_read { OnlyRead (F.told files.old) (F.told files.new) }
{
    if content_of(contents, &used.name).is_some() {
        return Ok(());
    }
    let Ok(name) = String::from_str(alloc, used.name.text()) else {
        return Err(Refusal::Memory);
    };
    match open(alloc, files, used) {
        Ok(plain) => note(contents, name, plain),
        Err(refusal) => Err(refusal),
    }
}
