//! Laws of the definitions. The function has an empty body, and its contract states the laws.

ghost use Rattle.ms_dfafile_imports.specs.Laws.{ToldImportsHaveOneContent, ToldImportsWantRoom};

/// Where files are told, the contents of imports are fixed, and imports that can be taken are refused for want of room alone.
pub fn laws_of_told_imports()
    ensures contents { ToldImportsHaveOneContent }
    ensures room { ToldImportsWantRoom }
{}
