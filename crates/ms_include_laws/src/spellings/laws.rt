//! Laws of the definitions. The function has an empty body, and its contract states the laws.

ghost use Rattle.ms_include_laws.specs.inner.spellings.Laws.{LoadedSourcesDeclareNames, LoadedTextsDeclareNames};

/// What a source that is loaded declares and binds has names of the language.
pub fn laws_of_spellings()
    ensures sources { LoadedSourcesDeclareNames }
    ensures texts { LoadedTextsDeclareNames }
{}
