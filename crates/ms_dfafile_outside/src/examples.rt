ghost use Rattle.ms_dfa.specs.Files.{MarksOutside};
ghost use Rattle.ms_dfafile_outside.specs.inner.Examples.{number, number_undefined, set};

/// A content over a number that has the sign `x` where it has to, the same with `0` for words with two 1s, and one over a set.
pub fn worked_outside()
    ensures number { MarksOutside number }
    ensures undefined { ¬ MarksOutside number_undefined }
    ensures set { MarksOutside set }
{}
