ghost use Rattle.ms_dfafile_adopt.specs.Laws.{AnswersAsFile};

/// An adopted file answers as an import what it says.
pub fn laws_of_imports()
    ensures { AnswersAsFile }
{}
