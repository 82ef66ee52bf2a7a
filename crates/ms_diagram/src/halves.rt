ghost use Rattle.std.specs.Prelude.{◌≡◌, ◌<◌, ◌≤◌, true, false};
ghost use Rattle.ms_arena.specs.Diagram.{IsValid};
ghost use Rattle.ms_arena.specs.Halves.{half_of, level_of, IsInner, IsLeaf};

use crate::store::Store;
use ms_arena::Ref;

// Behind all variables.
pub(crate) const LEAF_LEVEL: u64 = 4_294_967_296;

impl Store {
    // The variable that the diagram tests first, or the level of a leaf.
    pub(crate) fn level(&self, reference: Ref) -> u64
        requires { IsValid self.now.nodes reference }
        ensures level { result ≡ level_of self.now.nodes reference }
        ensures inner { IsInner reference → result < 4294967296 }
        ensures leaf { result ≡ 4294967296 → IsLeaf reference }
        ensures most { result ≤ 4294967296 }
    {
        match reference {
            Ref::Leaf(_) => LEAF_LEVEL,
            Ref::Inner(place) => u64::from(self.node(place).var),
        }
    }

    // What is left of the diagram where the bit of the variable is 0, and where it is 1.
    pub(crate) fn halves(&self, reference: Ref, var: u32) -> (Ref, Ref)
        requires { IsValid self.now.nodes reference }
        ensures low { result.0 ≡ half_of self.now.nodes var false reference }
        ensures high { result.1 ≡ half_of self.now.nodes var true reference }
    {
        let Ref::Inner(place) = reference else {
            return (reference, reference);
        };
        let node = self.node(place);
        if node.var == var {
            (node.low, node.high)
        } else {
            (reference, reference)
        }
    }
}
