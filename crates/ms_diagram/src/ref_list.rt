ghost use Rattle.std.specs.Prelude.{◌≡◌, ◌<◌, ◌++◌, [], ◌∷◌, length, slice_get, Some, IfSome, OnOk, OnErr};
ghost use Rattle.ms_arena.specs.inner.Code.{ref_of};

use crate::short::{reference, short};
use ms_arena::Ref;
use ms_list::{List, NoMemory, push};
use std::alloc::Global;
use std::marker::Model;

/// A list of references. Contracts see the list.
///
/// Nearly all references have a code of four bytes, and are kept so. Once there is one that needs more, all that are put behind it
/// are kept as they are.
pub struct RefList {
    short: List<u32>,
    long: List<Ref>,
}

impl Drop for RefList {
    fn drop(self) {
        let RefList { short: _, long: _ } = self;
    }
}

impl Model for RefList {
    ghost use Rattle.std.specs.Prelude.{◌++◌, List as Sequence, map};
    ghost use Rattle.ms_arena.specs.declared.node.Ref.{Ref};
    ghost use Rattle.ms_arena.specs.inner.Code.{ref_of};

    ghost Value = { Sequence Ref };

    ghost view = { λ list. map ref_of list.short ++ list.long };
}

impl RefList {
    ghost use Rattle.std.specs.Prelude.{[]};

    /// No references.
    pub fn new(alloc: Global) -> RefList
        ensures { result ≡ [] }
    {
        RefList {
            short: List::new(alloc),
            long: List::new(alloc),
        }
    }

    /// The reference at a place.
    pub fn get(&self, place: u32) -> Ref
        requires { place < length self.now }
        ensures { slice_get self.now place ≡ Some result }
    {
        let at = place as usize;
        let count = self.short.len();
        if at < count {
            reference(*self.short.get(at))
        } else {
            *self.long.get(at - count)
        }
    }

    /// Puts a reference behind all others.
    pub fn push(&mut self, reference: Ref) -> Result<(), NoMemory>
        ensures pushed { OnOk result (self.new ≡ self.old ++ reference ∷ []) }
        ensures refused { OnErr result (self.new ≡ self.old) }
    {
        match short_behind(self.long.slice(), reference) {
            Some(code) => push(&mut self.short, code),
            None => push(&mut self.long, reference),
        }
    }
}

// The code of a reference, if it has four bytes, as long as no reference is kept as it is.
fn short_behind(long: &[Ref], reference: Ref) -> Option<u32>
    ensures { IfSome result (λ code. (ref_of code ≡ reference) × (long.now ≡ [])) }
{
    if !long.is_empty() {
        return None;
    }
    short(reference)
}
