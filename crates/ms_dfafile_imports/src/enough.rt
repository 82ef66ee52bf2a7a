//! Laws of budgets. The function has an empty body, and its contract states the laws.

ghost use Rattle.ms_dfafile_imports.specs.Enough.{EnoughImportsAreTaken, FilesAreContentsOfImports};

/// The contents of the files of imports are those of the imports, and imports that can be taken do not lack nodes under a limit that is
/// enough for them.
pub fn laws_of_enough()
    ensures contents { FilesAreContentsOfImports }
    ensures taken { EnoughImportsAreTaken }
{}
