ghost use Rattle.std.specs.Prelude.{◌≡◌, ◌≤◌, ◌+◌, ◌∷◌, ◌++◌, ℕ, [], List, length, IfOk};
ghost use Rattle.ms_dfafile.specs.File.{IsSpelled};
ghost use Rattle.ms_app.specs.inner.Files.{AreSpelled, AreWritable, IsWritable, pairs_of};

use ms_dfa::Plain;
use ms_dfafile::write;
use ms_list::{Bytes, List, NoMemory, Text, push};
use ms_logic::ExportUse;
use std::alloc::Global;

/// A file that is to be written: its name, and all its bytes.
pub struct AutomatonFile {
    pub name: Text,
    pub bytes: Bytes,
}

impl Drop for AutomatonFile {
    fn drop(self) {
        let AutomatonFile { name: _, bytes: _ } = self;
    }
}

/// The greatest number of variables of an automaton file.
const MOST_VARIABLES: usize = 4_294_967_295;

/// The automaton file of a content, under this name.
fn file_of(alloc: Global, name: &Text, content: &Plain) -> Result<AutomatonFile, NoMemory>
    requires { IsWritable content.now }
    ensures name { IfOk result (λ made. made.name ≡ name.now) }
    ensures bytes { IfOk result (λ made. IsSpelled made.bytes content.now) }
{
    // More variables than have numbers of 32 bits find no memory.
    if content.variables.len() > MOST_VARIABLES {
        return Err(NoMemory);
    }
    let bytes = write(alloc, content)?;
    let name = Text::new(alloc, name.text())?;
    Ok(AutomatonFile { name, bytes })
}

/// The automaton files of exports with these contents, in order.
pub fn export_files(
    alloc: Global,
    exports: &[ExportUse],
    contents: &[Plain],
) -> Result<List<AutomatonFile>, NoMemory>
    requires long { length exports.now ≡ length contents.now }
    requires writable { AreWritable contents.now }
    ensures { IfOk result (λ files. AreSpelled exports.now contents.now (pairs_of files)) }
{
    let mut files = List::new(alloc);
    for place in 0..exports.len() {
        let file = file_of(alloc, &exports[place].name, &contents[place])?;
        push(&mut files, file)?;
    }
    Ok(files)
}

/// The files with one more, the automaton file of the content under this name.
pub fn add_file(
    alloc: Global,
    mut files: List<AutomatonFile>,
    name: &Text,
    content: &Plain,
) -> Result<List<AutomatonFile>, NoMemory>
    requires { IsWritable content.now }
    ensures { IfOk result (λ more. (bytes : List ℕ) × (pairs_of more ≡ pairs_of files ++ (name.now, bytes) ∷ []) × IsSpelled bytes content.now) }
{
    let file = file_of(alloc, name, content)?;
    push(&mut files, file)?;
    Ok(files)
}
