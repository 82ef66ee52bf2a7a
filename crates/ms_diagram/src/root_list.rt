ghost use Rattle.std.specs.Prelude.{◌≡◌, ◌<◌, ◌^◌};
ghost use Rattle.ms_diagram.specs.Hash.{mixed_with};

use crate::hash::FACTOR;
use crate::roots::rank;
use ms_arena::Ref;
use std::marker::Model;

/// A list of references, with a hash of it that is worked out once: a table is asked for a list, and told of it later. Contracts see
/// the list.
#[derive(Drop)]
pub struct RootList {
    pub(crate) hash: u32,
    pub(crate) roots: Vec<Ref>,
}

impl Model for RootList {
    ghost use Rattle.std.specs.Prelude.{◌≡◌, List};
    ghost use Rattle.ms_arena.specs.declared.node.Ref.{Ref};
    ghost use Rattle.ms_diagram.specs.Hash.{hash_of};

    ghost Value = { List Ref };

    ghost view = { λ list. list.roots.items };

    ghost invariant = { λ list. list.hash ≡ hash_of list.roots.items };
}

impl PartialEq for RootList {
    ghost use Rattle.std.specs.Cmp.{partial_equiv_from_equiv};
    ghost use Rattle.ms_diagram.specs.inner.Equal.{roots_eq, roots_laws};

    ghost eq = { roots_eq };

    ghost laws = { partial_equiv_from_equiv roots_laws };

    fn eq(&self, other: &RootList) -> bool {
        self.roots.as_slice() == other.roots.as_slice()
    }
}

impl Eq for RootList {
    ghost use Rattle.ms_diagram.specs.inner.Equal.{roots_laws};

    ghost laws = { roots_laws };
}

// A number that differs for most lists that differ, also where they differ in order alone.
fn mixed(roots: &[Ref]) -> u64
    ensures value { result ≡ mixed_with 0 roots.now }
    ensures short { result < 2 ^ 64 }
{
    let mut hash: u64 = 0;
    for root in roots {
        hash = (hash ^ rank(root)).rotate_left(23).wrapping_mul(FACTOR);
    }
    hash
}

impl RootList {
    // The list as it stands.
    pub(crate) fn new(roots: Vec<Ref>) -> RootList
        ensures { result ≡ roots.items }
    {
        let hash = (mixed(roots.as_slice()) >> 32) as u32;
        RootList { hash, roots }
    }
}
