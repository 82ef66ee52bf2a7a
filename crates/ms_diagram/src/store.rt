ghost use Rattle.std.specs.Prelude.{◌≡◌, ◌≢◌, ◌⊎◌, ◌≤◌, ◌<◌, ◌↔◌, ℕ, [], ◌∷◌, ◌++◌, length, slice_get, Some, if◌then◌else◌, IsTrue, IfOk, OnErr, IsErrOf, MatchOption};
ghost use Rattle.ms_arena.specs.Diagram.{Bits, leaf_of, IsValid, SameFunction, TestsAbove};
ghost use Rattle.ms_arena.specs.Reach.{IsTested};
ghost use Rattle.ms_arena.specs.Target.{Appends, HoldsAt, IsFormed, IsNew};
ghost use Rattle.ms_diagram.specs.Store.{IsNewest};

use ms_arena::{Arena, Node, Ref};
use ms_cache::Memo;
use ms_list::{NoMemory, StepFault};
use std::alloc::Global;
use std::marker::Model;

/// How many entries the memo of a store may hold.
const MEMO_ENTRIES: u32 = 65536;

/// Diagrams over one list of nodes. Equal functions have equal references.
#[derive(Drop)]
pub struct Store {
    pub(crate) alloc: Global,
    nodes: Arena,
    limit: u64,
    memo: Option<Memo>,
}

impl Model for Store {
    ghost use Rattle.ms_diagram.specs.Store.{Contents, IsStore, memo_hits};

    ghost Value = { Contents };

    ghost view = { λ s. record { nodes = s.nodes.nodes; limit = s.limit; hits = memo_hits s.memo } };

    ghost invariant = { λ s. IsStore s.nodes.nodes s.limit };
}

impl Store {
    ghost use Rattle.ms_diagram.specs.Growth.{KeepsFunctions, OnNodes};
    ghost use Rattle.ms_diagram.specs.Store.{IsStore, bits_of};

    /// A store with no nodes, which will hold at most so many.
    pub fn new(alloc: Global, limit: u64) -> Store
        requires some { 1 ≤ limit }
        requires small { limit ≤ 4000000000 }
        ensures empty { result.nodes ≡ [] }
        ensures limit { result.limit ≡ limit }
        ensures hits { result.hits ≡ 0 }
    {
        Store {
            alloc,
            nodes: Arena::new(alloc),
            limit,
            memo: None,
        }
    }

    /// The constant function.
    pub fn leaf(&self, value: u32) -> Ref
        ensures { result ≡ Ref.Leaf value }
    {
        Ref::Leaf(value)
    }

    /// The number of nodes.
    pub fn len(&self) -> u64
        ensures len { result ≡ length self.now.nodes }
        ensures store { IsStore self.now.nodes self.now.limit }
    {
        u64::from(self.nodes.len())
    }

    /// How many nodes the store may hold.
    pub fn limit(&self) -> u64
        ensures { result ≡ self.now.limit }
    {
        self.limit
    }

    /// Makes room for so many more nodes at once, or for as many as the store may hold.
    pub fn reserve(&mut self, more: u64) -> Result<(), NoMemory>
        ensures { self.new ≡ self.old }
    {
        let room = more.min(self.limit - self.len());
        self.nodes.reserve(room as u32)
    }

    /// Lets go what finds a node, for a store that is read alone. It is made again with the first new node; until then `mk` looks at
    /// one node after the other.
    pub fn seal(&mut self)
        ensures { self.new ≡ self.old }
    {
        self.nodes.seal();
    }

    /// How often `apply` has found in the memo what it was to build, up to the greatest `u64`.
    pub fn hits(&self) -> u64
        ensures { result ≡ self.now.hits }
    {
        match &self.memo {
            Some(memo) => memo.hits(),
            None => 0,
        }
    }

    // Takes the memo out of the store, and lets its entries go. The first call makes it.
    pub(crate) fn take_memo(&mut self) -> Result<Memo, NoMemory>
        ensures empty { IfOk result (λ memo. memo.entries ≡ []) }
        ensures hits { IfOk result (λ memo. memo.hits ≡ self.old.hits) }
        ensures refused { OnErr result (self.new ≡ self.old) }
        ensures nodes { self.new.nodes ≡ self.old.nodes }
        ensures limit { self.new.limit ≡ self.old.limit }
    {
        match self.memo.take() {
            Some(mut memo) => {
                memo.clear();
                Ok(memo)
            }
            None => Memo::new(self.alloc, MEMO_ENTRIES),
        }
    }

    // Puts the memo into the store.
    pub(crate) fn put_memo(&mut self, memo: Memo)
        ensures nodes { self.new.nodes ≡ self.old.nodes }
        ensures limit { self.new.limit ≡ self.old.limit }
        ensures hits { self.new.hits ≡ memo.hits }
    {
        self.memo = Some(memo);
    }

    /// An equal store, whose memo has not been made.
    pub fn copy(&self) -> Result<Store, NoMemory>
        ensures nodes { IfOk result (λ made. made.nodes ≡ self.now.nodes) }
        ensures limit { IfOk result (λ made. made.limit ≡ self.now.limit) }
        ensures hits { IfOk result (λ made. made.hits ≡ 0) }
    {
        let nodes = self.nodes.copy()?;
        Ok(Store {
            alloc: self.alloc,
            nodes,
            limit: self.limit,
            memo: None,
        })
    }

    /// The node at a place.
    pub fn node(&self, place: u32) -> Node
        requires { place < length self.now.nodes }
        ensures held { slice_get self.now.nodes place ≡ Some result }
        ensures store { IsStore self.now.nodes self.now.limit }
    {
        self.nodes.get(place)
    }

    /// The leaf to which the bits lead.
    pub fn eval(&self, root: Ref, bits: &[bool]) -> u32
        requires valid { IsValid self.now.nodes root }
        requires tested { (var : ℕ) → IsTested self.now.nodes root var → var < length bits.now }
        ensures { result ≡ leaf_of self.now.nodes root (bits_of bits.now) }
    {
        let mut at = root;
        loop {
            match at {
                Ref::Leaf(value) => return value,
                Ref::Inner(place) => {
                    let node = self.node(place);
                    at = if bits[node.var as usize] {
                        node.high
                    } else {
                        node.low
                    };
                }
            }
        }
    }

    /// Whether two references stand for the same function.
    pub fn same(&self, left: Ref, right: Ref) -> bool
        requires valid_left { IsValid self.now.nodes left }
        requires valid_right { IsValid self.now.nodes right }
        ensures equal { IsTrue result ↔ (left ≡ right) }
        ensures canonical { (left ≡ right) ↔ SameFunction self.now.nodes left right }
    {
        let _ = &self.nodes;
        left == right
    }

    /// The function that is `low` where the bit of the variable is 0, and `high` where it is 1.
    #[inline(never)]
    pub fn mk(&mut self, var: u32, low: Ref, high: Ref) -> Result<Ref, StepFault>
        requires valid_low { IsValid self.old.nodes low }
        requires valid_high { IsValid self.old.nodes high }
        requires above_low { TestsAbove self.old.nodes var low }
        requires above_high { TestsAbove self.old.nodes var high }
        ensures valid { IfOk result (IsValid self.new.nodes) }
        ensures made { IfOk result (λ made. ((low ≡ high) × (made ≡ low)) ⊎ HoldsAt self.new.nodes (record { var = var; low = low; high = high }) made) }
        ensures function { IfOk result (λ made. (bits : Bits) → leaf_of self.new.nodes made bits
            ≡ (if bits var then leaf_of self.old.nodes high bits else leaf_of self.old.nodes low bits)) }
        ensures appends { Appends self.old.nodes self.new.nodes (record { var = var; low = low; high = high }) }
        ensures kept { KeepsFunctions self.old.nodes self.new.nodes }
        ensures refused { OnErr result (self.new.nodes ≡ self.old.nodes) }
        ensures above { IfOk result (λ made. (lower : ℕ) → lower < var → TestsAbove self.new.nodes lower made) }
        ensures limit { self.new.limit ≡ self.old.limit }
        ensures store { IsStore self.new.nodes self.new.limit }

        // Nodes comes exactly where the ends differ, the node is new and the store is at its limit.
        ensures full { low ≢ high → IsNew self.old.nodes (record { var = var; low = low; high = high })
            → length self.old.nodes ≡ self.old.limit → IsErrOf result (StepFault.Nodes self.old.limit) }
        ensures only_full { OnNodes result (λ limit. (limit ≡ self.old.limit) × (low ≢ high)
            × IsNew self.old.nodes (record { var = var; low = low; high = high }) × (length self.old.nodes ≡ self.old.limit)) }
    {
        let _ = &self.nodes;
        if low == high {
            return Ok(low);
        }
        let node = Node { var, low, high };
        match self.find(node) {
            Some(place) => Ok(Ref::Inner(place)),
            None => self.append(node),
        }
    }

    // The place of the node, if it is held. A node over the newest one is not, since nodes name earlier ones alone.
    fn find(&self, node: Node) -> Option<u32>
        ensures { MatchOption result (IsNew self.now.nodes node) (λ place. slice_get self.now.nodes place ≡ Some node) }
    {
        let places = self.len();
        if is_newest(node.low, places) || is_newest(node.high, places) {
            return None;
        }
        self.nodes.find(node)
    }

    // Appends a new node, and gives the reference to it.
    fn append(&mut self, node: Node) -> Result<Ref, StepFault>
        requires formed { IsFormed self.old.nodes node }
        requires new { IsNew self.old.nodes node }
        ensures held { IfOk result (HoldsAt self.new.nodes node) }
        ensures appends { Appends self.old.nodes self.new.nodes node }
        ensures refused { OnErr result (self.new.nodes ≡ self.old.nodes) }
        ensures limit { self.new.limit ≡ self.old.limit }
        ensures store { IsStore self.new.nodes self.new.limit }
        ensures full { length self.old.nodes ≡ self.old.limit → IsErrOf result (StepFault.Nodes self.old.limit) }
        ensures only_full { OnNodes result (λ limit. (limit ≡ self.old.limit) × (length self.old.nodes ≡ self.old.limit)) }
    {
        if self.len() == self.limit {
            return Err(StepFault::Nodes { limit: self.limit });
        }
        if self.nodes.reserve(1).is_err() {
            return Err(StepFault::Memory);
        }
        Ok(Ref::Inner(self.nodes.push(node)))
    }
}

// Whether the reference is to the node at the last of so many places.
fn is_newest(reference: Ref, places: u64) -> bool
    ensures { IsTrue result → IsNewest places reference }
{
    match reference {
        Ref::Leaf(_) => false,
        Ref::Inner(place) => u64::from(place) + 1 == places,
    }
}
