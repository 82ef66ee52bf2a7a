ghost use Rattle.std.specs.Prelude.{◌≡◌, ◌∷◌, [], IfErr, IfOk, OnOk};
ghost use Rattle.ms_app_solved.specs.Tokens.{AreTokensOf, HasNoTokens};
ghost use Rattle.ms_edge.specs.Files.{OnlyRead, Seen, between};

use ms_edge::{Files, Refusal};
use ms_include::read_source;
use ms_list::{List, NoMemory, Text, push};
use ms_text::{Tokens, tokens};
use std::alloc::Global;

/// Appends a copy of the name.
fn note(alloc: Global, name: &Text, names: &mut List<Text>) -> Result<(), NoMemory>
    requires { names.old ≡ [] }
    ensures { OnOk result (names.new ≡ name.now ∷ []) }
{
    let name = Text::new(alloc, name.text())?;
    push(names, name)
}

/// The tokens of the file with this name, which is the file 0. Its name is noted where it could be read.
pub fn read_tokens<F: Files>(
    alloc: Global,
    name: &Text,
    files: &mut F,
    names: &mut List<Text>,
) -> Result<Tokens, Refusal>
    requires { names.old ≡ [] }
    ensures tokens { IfOk result (AreTokensOf (F.told files.old).held name.now) }
    ensures noted { IfOk result (λ tokens. names.new ≡ name.now ∷ []) }
    ensures refused { IfErr result (λ refusal. HasNoTokens (between (F.told files.old) (F.told files.new)) name.now refusal names.new) }
    ensures only_read { OnlyRead (F.told files.old) (F.told files.new) }
{
    let bytes = match read_source(alloc, files, None, name) {
        Ok(bytes) => bytes,
        Err(refusal) => return Err(refusal),
    };
    let Ok(()) = note(alloc, name, names) else {
        return Err(Refusal::Memory);
    };
    tokens(alloc, bytes, 0)
}
