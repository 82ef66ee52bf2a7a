ghost use Rattle.std.specs.Prelude.{◌≡◌, ◌↔◌, ◌<◌, IfOk, IsTrue, length};
ghost use Rattle.ms_dfa.specs.Files.{content_of_file};
ghost use Rattle.ms_logic_words.specs.Content.{IsContent};
ghost use Rattle.ms_cert.specs.Certificate.{GrowByLetters};
ghost use Rattle.ms_cert.specs.inner.Lengths.{AreMost, HasSteps, IsKnown, most_at};

use ms_arena::Ref;
use ms_dfa::Plain;
use ms_list::{List, NoMemory, Word, push};
use std::alloc::Global;

/// The most letters of the words of the states below a reference.
fn most_at(words: &[Word], known: &[usize], reference: Ref) -> usize
    requires { IsKnown words.now known.now reference }
    ensures { result ≡ most_at words.now known.now reference }
{
    match reference {
        Ref::Leaf(state) => words[state as usize].letters.len(),
        Ref::Inner(place) => known[place as usize],
    }
}

/// The same of each node.
fn most(alloc: Global, plain: &Plain, words: &[Word]) -> Result<List<usize>, NoMemory>
    requires content { IsContent (content_of_file plain.now) }
    requires count { length words.now ≡ length plain.now.states }
    ensures { IfOk result (λ known. AreMost plain.now.nodes words.now known (length plain.now.nodes)) }
{
    let mut known = List::new(alloc);
    for node in plain.nodes.slice() {
        let low = most_at(words, known.slice(), node.low);
        let high = most_at(words, known.slice(), node.high);
        push(&mut known, low.max(high))?;
    }
    Ok(known)
}

/// Whether each letter leads to a word with one letter more at most.
fn has_steps(plain: &Plain, words: &[Word], known: &[usize]) -> bool
    requires content { IsContent (content_of_file plain.now) }
    requires count { length words.now ≡ length plain.now.states }
    requires known { AreMost plain.now.nodes words.now known.now (length plain.now.nodes) }
    ensures { IsTrue result ↔ HasSteps plain.now words.now known.now }
{
    for (state, word) in words.iter().enumerate() {
        let next = plain.states.get(state).next;
        if most_at(words, known, next).saturating_sub(1) > word.letters.len() {
            return false;
        }
    }
    true
}

/// Whether the start leads to words without letters, and each letter to a word with one letter more at most.
pub(crate) fn grow_by_letters(
    alloc: Global,
    plain: &Plain,
    words: &[Word],
) -> Result<bool, NoMemory>
    requires content { IsContent (content_of_file plain.now) }
    requires count { length words.now ≡ length plain.now.states }
    ensures { IfOk result (λ grow. IsTrue grow ↔ GrowByLetters (content_of_file plain.now) words.now) }
{
    let known = most(alloc, plain, words)?;
    if most_at(words, known.slice(), plain.start) != 0 {
        return Ok(false);
    }
    Ok(has_steps(plain, words, known.slice()))
}
