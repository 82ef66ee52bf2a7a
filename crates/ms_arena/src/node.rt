/// A reference to a diagram: a leaf with its number, or an inner node, by its place in the list of nodes.
#[derive(Clone, Copy, PartialEq, Eq, Hash)]
pub enum Ref {
    Leaf(u32),
    Inner(u32),
}

/// An inner node: it goes on at `low` where the bit of its variable is 0, and at `high` where it is 1.
#[derive(Clone, Copy, PartialEq, Eq, Hash)]
pub struct Node {
    pub var: u32,
    pub low: Ref,
    pub high: Ref,
}
