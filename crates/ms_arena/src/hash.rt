ghost use Rattle.std.specs.Prelude.{◌≡◌, ◌<◌, ◌^◌};
ghost use Rattle.ms_arena.specs.inner.Bucket.{bucket_of, hash_of, position_of};

use crate::node::{Node, Ref};

// An odd number whose bits look random: the first bits of the golden ratio.
const LEAF_FACTOR: u64 = 0x9E37_79B9_7F4A_7C15;

// How far apart the buckets are of nodes whose ends lie side by side.
const LOW_STEP: u64 = 7;

const HIGH_STEP: u64 = 16;

// Which of so many buckets the node is in. They are all in use where their number is a power of two.
//
// Nodes whose ends lie near each other are in buckets near each other: most nodes are made one after the other over ends that
// were made one after the other, so their buckets are in the processor's cache. Leaves are scattered, since over few of them
// there may be many nodes.
pub(crate) fn bucket(node: Node, buckets: usize) -> usize
    requires { 0 < buckets }
    ensures value { result ≡ bucket_of buckets node }
    ensures within { result < buckets }
{
    hash(node) as usize & (buckets - 1)
}

fn hash(node: Node) -> u64
    ensures { result ≡ hash_of node }
{
    LOW_STEP * position(node.low) + HIGH_STEP * position(node.high) + u64::from(node.var)
}

// The place of a node, or a number by which leaves are scattered.
fn position(reference: Ref) -> u64
    ensures value { result ≡ position_of reference }
    ensures short { result < 2 ^ 32 }
{
    match reference {
        Ref::Leaf(value) => u64::from(value).wrapping_mul(LEAF_FACTOR) >> 32,
        Ref::Inner(place) => u64::from(place),
    }
}
