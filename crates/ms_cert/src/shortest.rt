ghost use Rattle.std.specs.Prelude.{◌≡◌, length};
ghost use Rattle.ms_dfa.specs.Files.{content_of_file};
ghost use Rattle.ms_logic_words.specs.Content.{IsContent};
ghost use Rattle.ms_cert.specs.Certificate.{AreWordsTo, GrowByLetters};
ghost use Rattle.ms_cert.specs.Proven.{IsShortest};
ghost use Rattle.ms_cert.specs.inner.Lengths.{IsLesser};

use crate::sign::is_same;
use ms_dfa::{FileSign, Plain};
use ms_list::Word;

/// The lesser of a length, if there is one, and another.
fn lesser(best: Option<u64>, length: u64) -> u64
    ensures { IsLesser best length result }
{
    match best {
        Some(other) => other.min(length),
        None => length,
    }
}

/// The number of letters of a shortest word of the sign, by the words of the states.
pub(crate) fn shortest(plain: &Plain, words: &[Word], sign: FileSign) -> Option<u64>
    requires content { IsContent (content_of_file plain.now) }
    requires words { AreWordsTo (content_of_file plain.now) words.now }
    requires lengths { GrowByLetters (content_of_file plain.now) words.now }
    ensures { IsShortest (content_of_file plain.now) sign result }
{
    let mut best = None;
    for (place, word) in words.iter().enumerate() {
        if is_same(plain.states.get(place).sign, sign) {
            best = Some(lesser(best, word.letters.len() as u64));
        }
    }
    best
}
