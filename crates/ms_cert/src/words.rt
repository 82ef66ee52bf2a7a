ghost use Rattle.std.specs.Prelude.{◌≡◌, ◌↔◌, ◌<◌, ℕ, IsTrue, List as Sequence, Bool, Some, length, slice_get};
ghost use Rattle.ms_dfa.specs.Files.{content_of_file};
ghost use Rattle.ms_list.specs.declared.word.Word.{Word as AWord};
ghost use Rattle.ms_logic_words.specs.Content.{AreLetters, IsContent, IsWordOver, last_state};
ghost use Rattle.ms_cert.specs.Certificate.{AreWordsTo, IsLineOver};
ghost use Rattle.ms_cert.specs.declared.cert.TreeLine.{TreeLine as ALine};
ghost use Rattle.ms_cert.specs.inner.Slots.{IsLayout, orders_of, slots_of};
ghost use Rattle.std.specs.List.{AllByRecursion};

use crate::cert::TreeLine;
use crate::layout::Layout;
use crate::running::last_state;
use ms_dfa::Plain;
use ms_list::{List, Word};

/// Whether each letter has so many bits.
fn have_bits(letters: &[List<bool>], count: usize) -> bool
    ensures { IsTrue result ↔ AllByRecursion (λ letter. length letter ≡ count) letters.now }
{
    for letter in letters {
        if letter.len() != count {
            return false;
        }
    }
    true
}

/// Whether the word has as many bits as the variables ask for.
fn is_over(plain: &Plain, layout: &Layout, word: &Word) -> bool
    requires { IsLayout (orders_of plain.now) layout.now }
    ensures { IsTrue result ↔ IsWordOver (content_of_file plain.now).variables word.now }
{
    word.truth.len() == layout.truth && have_bits(word.letters.slice(), layout.letter)
}

/// Whether all words have.
fn are_over(plain: &Plain, layout: &Layout, words: &[Word]) -> bool
    requires { IsLayout (orders_of plain.now) layout.now }
    ensures { IsTrue result ↔ ((i : ℕ) (word : AWord) → slice_get words.now i ≡ Some word → IsWordOver (content_of_file plain.now).variables word) }
{
    for word in words {
        if !is_over(plain, layout, word) {
            return false;
        }
    }
    true
}

/// Whether the run of each word ends in its state.
fn end_there(plain: &Plain, slots: &[usize], words: &[Word]) -> bool
    requires content { IsContent (content_of_file plain.now) }
    requires slots { slots.now ≡ slots_of plain.now }
    ensures { IsTrue result ↔ ((state : ℕ) (word : AWord) → slice_get words.now state ≡ Some word → last_state (content_of_file plain.now) word ≡ state) }
{
    for (state, word) in words.iter().enumerate() {
        if last_state(plain, slots, word) as usize != state {
            return false;
        }
    }
    true
}

/// Whether there is a word for each state, over the variables, whose run ends there.
pub(crate) fn are_words(plain: &Plain, layout: &Layout, words: &[Word]) -> bool
    requires content { IsContent (content_of_file plain.now) }
    requires layout { IsLayout (orders_of plain.now) layout.now }
    ensures { IsTrue result ↔ AreWordsTo (content_of_file plain.now) words.now }
{
    if words.len() != plain.states.len() {
        return false;
    }
    if !are_over(plain, layout, words) {
        return false;
    }
    end_there(plain, layout.slots.slice(), words)
}

/// Whether the letters of a line have as many bits as the variables ask for.
fn is_line_over(plain: &Plain, layout: &Layout, line: &TreeLine) -> bool
    requires { IsLayout (orders_of plain.now) layout.now }
    ensures { IsTrue result ↔ IsLineOver (content_of_file plain.now).variables line.now }
{
    match line {
        TreeLine::At(_) => true,
        TreeLine::By(_, letters) => have_bits(letters.slice(), layout.letter),
    }
}

/// Whether those of all lines have.
pub(crate) fn are_lines_over(plain: &Plain, layout: &Layout, lines: &[TreeLine]) -> bool
    requires { IsLayout (orders_of plain.now) layout.now }
    ensures { IsTrue result ↔ ((place : ℕ) (line : ALine) → slice_get lines.now place ≡ Some line → IsLineOver (content_of_file plain.now).variables line) }
{
    for line in lines {
        if !is_line_over(plain, layout, line) {
            return false;
        }
    }
    true
}
