ghost use Rattle.std.specs.Prelude.{◌≡◌, ◌≤◌, ◌⊎◌, ◌++◌, ◌∷◌, ℕ, [], List, None, length, map, IfErr, IfOk, OnOk};
ghost use Rattle.ms_names_checked.specs.Checked.{MeetsRules};
ghost use Rattle.ms_edge.specs.Files.{OnlyRead, between};
ghost use Rattle.ms_logic.specs.declared.source.Loaded.{Loaded as Declarations};
ghost use Rattle.ms_names_rules.specs.Checking.{IsFirstFault};
ghost use Rattle.ms_names_rules.specs.Declarations.{first_fault_of};
ghost use Rattle.ms_names_rules.specs.Numbers.{IsWellNumbered};
ghost use Rattle.ms_names_rules.specs.TypedSource.{IsTyped};
ghost use Rattle.ms_parse_grammar.specs.View.{declared_of};
ghost use Rattle.ms_app.specs.inner.Right.{IsRight};
ghost use Rattle.ms_app.specs.Source.{IsAccepted, IsUnaccepted, file_of, text_of};

use ms_edge::{Files, Refusal};
use ms_include::{load, load_bytes};
use ms_list::{Bytes, List, NoMemory, Text, push};
use ms_logic::{Checked, Loaded};
use ms_names::check;
use std::alloc::Global;

/// The typed tree of a source, and how many files the source has.
pub struct Accepted {
    pub checked: Checked,
    pub files: u32,
}

impl Drop for Accepted {
    fn drop(self) {
        let Accepted {
            checked: _,
            files: _,
        } = self;
    }
}

/// The typed tree of a loaded source in which nothing is wrong.
fn accept(alloc: Global, loaded: &Loaded) -> Result<Accepted, Refusal>
    ensures accepted { IfOk result (λ made. first_fault_of loaded.now.mode (map declared_of loaded.now.items) ≡ None) }
    ensures typed { IfOk result (λ made. IsTyped loaded.now made.checked) }
    ensures numbered { IfOk result (λ made. IsWellNumbered made.checked) }
    ensures meets_rules { IfOk result (λ made. MeetsRules made.checked) }
    ensures files { IfOk result (λ made. made.files ≡ length loaded.now.files) }
    ensures refused { IfErr result (λ refusal. (refusal ≡ Refusal.Memory) ⊎ IsFirstFault loaded.now refusal) }
{
    let checked = match check(alloc, loaded) {
        Ok(checked) => checked,
        Err(refusal) => return Err(refusal),
    };
    match u32::try_from(loaded.files.len()) {
        Ok(files) => Ok(Accepted { checked, files }),
        Err(_) => Err(Refusal::Memory),
    }
}

/// The typed tree of a file with its includes put in place. The names of the files that are read are appended to `names`.
pub fn accept_file<F: Files>(
    alloc: Global,
    name: &Text,
    files: &mut F,
    names: &mut List<Text>,
) -> Result<Accepted, Refusal>
    requires { length names.old ≤ 4294967231 }
    ensures accepted { IfOk result (λ made. (loaded : Declarations) × IsAccepted (file_of (between (F.told files.old) (F.told files.new)) (length names.old) name.now) loaded made.checked
        × (made.files ≡ length loaded.files) × (length loaded.files ≤ 64) × (names.new ≡ names.old ++ loaded.files)) }
    ensures right { IfOk result (λ made. IsRight made.checked) }
    ensures refused { IfErr result (λ refusal. (refusal ≡ Refusal.Memory) ⊎ ((read : List (List ℕ)) × (names.new ≡ names.old ++ read)
        × IsUnaccepted (file_of (between (F.told files.old) (F.told files.new)) (length names.old) name.now) refusal read)) }
    ensures only_read { OnlyRead (F.told files.old) (F.told files.new) }
{
    match load(alloc, files, name.text(), names) {
        Ok(loaded) => accept(alloc, &loaded),
        Err(refusal) => Err(refusal),
    }
}

/// A text of its own with the name, which is appended to the names.
fn named(alloc: Global, name: &str, names: &mut List<Text>) -> Result<(), NoMemory>
    ensures { OnOk result (names.new ≡ names.old ++ name.now ∷ []) }
{
    let name = Text::new(alloc, name)?;
    push(names, name)
}

/// The typed tree of a text by itself, under a name of its own, which is appended to `names`.
pub fn accept_text(
    alloc: Global,
    name: &str,
    bytes: Bytes,
    names: &mut List<Text>,
) -> Result<Accepted, Refusal>
    requires { length bytes ≤ 1048576 }
    ensures accepted { IfOk result (λ made. (loaded : Declarations) × IsAccepted (text_of name.now bytes) loaded made.checked × (made.files ≡ length loaded.files)) }
    ensures names { IfOk result (λ made. names.new ≡ names.old ++ name.now ∷ []) }
    ensures right { IfOk result (λ made. IsRight made.checked) }
    ensures refused { IfErr result (λ refusal. (refusal ≡ Refusal.Memory)
        ⊎ ((names.new ≡ names.old ++ name.now ∷ []) × IsUnaccepted (text_of name.now bytes) refusal (name.now ∷ []))) }
{
    let Ok(()) = named(alloc, name, names) else {
        return Err(Refusal::Memory);
    };
    match load_bytes(alloc, name, bytes) {
        Ok(loaded) => accept(alloc, &loaded),
        Err(refusal) => Err(refusal),
    }
}
