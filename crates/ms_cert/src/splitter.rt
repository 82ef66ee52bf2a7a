ghost use Rattle.std.specs.Prelude.{◌≡◌, ◌<◌, length, slice_get, IfOk, Some};

use crate::levels::copy_letters;
use ms_dfa::FileSign;
use ms_list::{List, NoMemory};
use std::alloc::Global;
use std::marker::Model;

/// Letters that are a splitter's own, or lent by the line of a certificate. Contracts see the list of them.
#[derive(Drop)]
pub(crate) struct Letters<'a> {
    own: List<List<bool>>,
    lent: Option<&'a [List<bool>]>,
}

impl<'a> Model for Letters<'a> {
    ghost use Rattle.std.specs.Prelude.{Bool, List as Sequence, unwrap_or};
    ghost use Rattle.std.specs.Option.{option_copied};

    ghost Value = { Sequence (Sequence Bool) };

    ghost view = { λ letters. unwrap_or (option_copied letters.lent) letters.own };
}

impl<'a> Letters<'a> {
    /// Letters of its own.
    pub(crate) fn own(own: List<List<bool>>) -> Letters<'a>
        ensures { result ≡ own }
    {
        Letters { own, lent: None }
    }

    /// Letters that are lent.
    pub(crate) fn lent(alloc: Global, letters: &'a [List<bool>]) -> Letters<'a>
        ensures { result ≡ letters.now }
    {
        Letters {
            own: List::new(alloc),
            lent: Some(letters),
        }
    }

    pub(crate) fn slice(&self) -> &[List<bool>]
        ensures { result.now ≡ self.now }
    {
        match self.lent {
            Some(lent) => lent,
            None => self.own.slice(),
        }
    }

    pub(crate) fn len(&self) -> usize
        ensures { result ≡ length self.now }
    {
        self.slice().len()
    }

    /// The letter at a place.
    pub(crate) fn get(&self, i: usize) -> &List<bool>
        requires { i < length self.now }
        ensures { slice_get self.now i ≡ Some result.now }
    {
        &self.slice()[i]
    }

    /// The letters themselves; those that are lent are copied.
    pub(crate) fn into_list(self, alloc: Global) -> Result<List<List<bool>>, NoMemory>
        ensures { IfOk result (λ list. list ≡ self.entry) }
    {
        let Letters { own, lent } = self;
        match lent {
            Some(lent) => copy_letters(alloc, lent),
            None => Ok(own),
        }
    }
}

/// A sign, and letters that end in it from some states and not from others.
#[derive(Drop)]
pub(crate) struct Splitter<'a> {
    pub sign: FileSign,
    pub letters: Letters<'a>,
    /// The class whose splitter has the letters behind the first one, and the same sign; 0 where that is not known.
    pub tail: usize,
}
