ghost use Rattle.std.specs.Prelude.{◌≡◌, ◌≤◌, ◌⊎◌, ◌++◌, List, ℕ, length, drop, IfOk, IfErr};
ghost use Rattle.ms_edge.specs.Files.{OnlyRead, between};
ghost use Rattle.ms_parse_grammar.specs.Size.{size_of_items};
ghost use Rattle.ms_include.specs.Load.{mode_of, files_of, IsLoaded, IsRefusedLoad};

use crate::file::{note, open};
use crate::loader::{GREATEST_DEPTH, Loader};
use ms_edge::{Files, Refusal};
use ms_list::{At, List, Text};
use ms_logic::{Loaded, Mode, Source};
use std::alloc::Global;

/// The mode of a source with this header.
pub fn mode(header: Option<(At, Mode)>) -> Mode
    ensures { result ≡ mode_of header }
{
    match header {
        None => Mode::Ws1s,
        Some((_, mode)) => mode,
    }
}

fn copies(alloc: Global, names: &[Text]) -> Result<List<Text>, Refusal>
    ensures ok { IfOk result (λ made. made ≡ names.now) }
    ensures memory { IfErr result (λ refusal. refusal ≡ Refusal.Memory) }
{
    let mut made = List::new(alloc);
    for name in names {
        note(alloc, &mut made, name)?;
    }
    Ok(made)
}

/// Copies of the names from a place on.
fn copies_from(alloc: Global, names: &[Text], from: usize) -> Result<List<Text>, Refusal>
    requires { from ≤ length names.now }
    ensures ok { IfOk result (λ made. made ≡ drop from names.now) }
    ensures memory { IfErr result (λ refusal. refusal ≡ Refusal.Memory) }
{
    copies(alloc, &names[from..])
}

/// The declarations of the file with this name, and of all that it includes, in one list. Each file is loaded once, where it
/// is included first. The name of each file that could be read is appended to `names`, in the order of reading, and its place
/// there is the number of the file.
pub fn load<F: Files>(
    alloc: Global,
    files: &mut F,
    name: &str,
    names: &mut List<Text>,
) -> Result<Loaded, Refusal>
    requires { length names.old ≤ 4294967231 }
    ensures loaded { IfOk result (IsLoaded (files_of (between (F.told files.old) (F.told files.new)) (length names.old)) name.now) }
    ensures bounded { IfOk result (λ loaded. size_of_items loaded.items ≤ 67108864) }
    ensures names { IfOk result (λ loaded. names.new ≡ names.old ++ loaded.files) }

    // The files that a refusal numbers were read before it.
    ensures refused { IfErr result (λ refusal. (refusal ≡ Refusal.Memory) ⊎ ((read : List (List ℕ)) × (names.new ≡ names.old ++ read)
        × IsRefusedLoad (files_of (between (F.told files.old) (F.told files.new)) (length names.old)) name.now refusal read)) }
    ensures grown { (read : List (List ℕ)) × (names.new ≡ names.old ++ read) }
    ensures only_read { OnlyRead (F.told files.old) (F.told files.new) }
{
    let base = names.len();
    let Ok(main) = Text::new(alloc, name) else {
        return Err(Refusal::Memory);
    };
    let parsed = match open(alloc, files, names, None, &main, base as u32) {
        Ok(parsed) => parsed,
        Err(refusal) => return Err(refusal),
    };
    let Source { header, items } = parsed;
    let mut loader = Loader {
        alloc,
        base,
        chain: Vec::new(alloc),
        items: Vec::new(alloc),
    };
    loader.begin(base as u32, main)?;
    if let Err(refusal) = loader.put_all(files, names, GREATEST_DEPTH, items) {
        return Err(refusal);
    }
    let read = copies_from(alloc, names.slice(), base)?;
    Ok(Loaded {
        mode: mode(header),
        items: List::from(loader.items),
        files: read,
    })
}
