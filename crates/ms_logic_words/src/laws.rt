//! Laws of words. The function has an empty body, and its contract states the laws.

ghost use Rattle.ms_logic_words.specs.inner.WordLaws.{EncodingIsOver, LengthIsLeast, WordIsUnique, ZeroLetterKeeps};
ghost use Rattle.ms_logic_words.specs.WordSign.{EncodingExists, EncodingIsUnique};

/// A word encodes one assignment at most, and each assignment is encoded, by exactly one word of its own length and by
/// none that is shorter. In WS1S a zero letter at the end changes nothing.
pub fn laws_of_words()
    ensures encoding_exists { EncodingExists }
    ensures encoding_is_unique { EncodingIsUnique }
    ensures encoding_is_over { EncodingIsOver }
    ensures length_is_least { LengthIsLeast }
    ensures word_is_unique { WordIsUnique }
    ensures zero_letter_keeps { ZeroLetterKeeps }
{}
