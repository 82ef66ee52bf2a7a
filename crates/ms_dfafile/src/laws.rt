//! Laws of automaton files. Each function has an empty body, and its contract states its laws.

ghost use Rattle.ms_dfafile.specs.Laws.{BytesSpellOneContent, CanonicalContentsAreFiles, NoFileBeginsAnother};

/// Bytes are the file of one content at most, no file begins another, and canonical contents under different names have files.
pub fn laws_of_files()
    ensures one { BytesSpellOneContent }
    ensures whole { NoFileBeginsAnother }
    ensures canonical { CanonicalContentsAreFiles }
{}
