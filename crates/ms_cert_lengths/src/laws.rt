//! The law of lengths. The function has an empty body, and its contract states it.

ghost use Rattle.ms_cert_lengths.specs.Laws.{ShortestWordsAreAsLongAsShown};

/// A shortest word of the sign `+` is as long as the example of a question, and one of the sign `-` as long as the counterexample.
pub fn law_of_lengths()
    ensures lengths { ShortestWordsAreAsLongAsShown }
{}
