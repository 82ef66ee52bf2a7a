ghost use Rattle.std.specs.Prelude.{◌≡◌, ◌<◌, ◌≤◌, ◌+◌, length};
ghost use Rattle.ms_diagram.specs.Growth.{Builds};
ghost use Rattle.ms_diagram.specs.Table.{ArePairedAcross};
ghost use Rattle.ms_product.specs.Pairing.{HaveRisingMaps, IsLaterPairing, product_findings, sides_of};

use crate::op::{Op, strict};
use crate::operand::Widened;
use ms_arena::Ref;
use ms_dfa_explore::Machine;
use ms_diagram::{PairTable, Pairs, Renamed, Sides, Store};
use ms_list::StepFault;
use ms_logic_words::Sign;
use std::marker::Model;

/// The product of two automata, each read where it is: its states are pairs of theirs, which get numbers at first sight.
#[derive(Drop)]
pub(crate) struct Product<'a> {
    pub op: Op,
    pub left: Widened<'a>,
    pub right: Widened<'a>,
    pub pairs: Pairs,
}

impl<'a> Model for Product<'a> {
    ghost use Rattle.ms_product.specs.Pairing.{AreReachedPairs, AreStates, Pairing};

    ghost Value = { Pairing };

    ghost view = { λ p. record {
      op = p.op;
      operands = record { left = p.left.automaton.now; left_map = p.left.map; right = p.right.automaton.now; right_map = p.right.map };
      pairs = p.pairs;
    } };

    ghost invariant = { λ p. AreStates
        (record { left = p.left.automaton.now; left_map = p.left.map; right = p.right.automaton.now; right_map = p.right.map })
        p.pairs
        × AreReachedPairs
        (record { left = p.left.automaton.now; left_map = p.left.map; right = p.right.automaton.now; right_map = p.right.map })
        p.pairs };
}

/// The stores of both, with the places at which their tracks are read.
fn sides<'a>(left: &'a Widened, right: &'a Widened) -> Sides<'a>
    ensures { result ≡ sides_of (record { left = left.now.automaton.now; left_map = left.now.map; right = right.now.automaton.now; right_map = right.now.map }) }
{
    Sides {
        left: Renamed {
            store: left.automaton.store(),
            map: left.map.slice(),
        },
        right: Renamed {
            store: right.automaton.store(),
            map: right.map.slice(),
        },
    }
}

impl<'a> Product<'a> {
    /// Where the truth values lead from both starts, over a table of what pairs of references have become.
    fn lead_from_start(
        &mut self,
        store: &mut Store,
        table: &mut PairTable,
    ) -> Result<Ref, StepFault>
        requires maps { HaveRisingMaps self.old.operands }
        requires table { ArePairedAcross (sides_of self.old.operands) self.old.pairs store.old.nodes table.old }
        ensures later { IsLaterPairing self.old self.new }
        ensures table { ArePairedAcross (sides_of self.new.operands) self.new.pairs store.new.nodes table.new }
        ensures builds { Builds store.old store.new (product_findings self.new.op self.new.operands self.new.pairs).starts (product_findings self.new.op self.new.operands self.new.pairs).LacksNumber result }
        ensures few { length store.new.nodes ≤ length store.old.nodes + (product_findings self.new.op self.new.operands self.new.pairs).most_nodes }
    {
        // The length tells that the nodes are those of a store.
        let _ = store.len();
        let left = self.left.automaton.start_ref();
        let right = self.right.automaton.start_ref();
        let sides = sides(&self.left, &self.right);
        store.apply_across(&sides, (left, right), &mut self.pairs, table)
    }

    /// The same for a letter from the pair of this number.
    fn lead_from(
        &mut self,
        store: &mut Store,
        state: u32,
        table: &mut PairTable,
    ) -> Result<Ref, StepFault>
        requires state { state < (product_findings self.old.op self.old.operands self.old.pairs).count }
        requires maps { HaveRisingMaps self.old.operands }
        requires table { ArePairedAcross (sides_of self.old.operands) self.old.pairs store.old.nodes table.old }
        ensures later { IsLaterPairing self.old self.new }
        ensures table { ArePairedAcross (sides_of self.new.operands) self.new.pairs store.new.nodes table.new }
        ensures builds { Builds store.old store.new ((product_findings self.new.op self.new.operands self.new.pairs).steps state) (product_findings self.new.op self.new.operands self.new.pairs).LacksNumber result }
        ensures few { length store.new.nodes ≤ length store.old.nodes + (product_findings self.new.op self.new.operands self.new.pairs).most_nodes }
    {
        let _ = store.len();
        let (left_state, right_state) = self.pairs.get(state);
        let left = self.left.automaton.next_ref(left_state);
        let right = self.right.automaton.next_ref(right_state);
        let sides = sides(&self.left, &self.right);
        store.apply_across(&sides, (left, right), &mut self.pairs, table)
    }

    /// The connective of the signs of the pair of this number.
    fn sign(&self, state: u32) -> Sign
        requires { state < (product_findings self.now.op self.now.operands self.now.pairs).count }
        ensures { result ≡ (product_findings self.now.op self.now.operands self.now.pairs).sign_of state }
    {
        let (left, right) = self.pairs.get(state);
        let left_sign = self.left.automaton.sign(left);
        let right_sign = self.right.automaton.sign(right);
        strict(self.op, left_sign, right_sign)
    }

    /// How many pairs have numbers.
    fn count(&self) -> u32
        ensures { result ≡ (product_findings self.now.op self.now.operands self.now.pairs).count }
    {
        self.pairs.len()
    }
}

/// A product with the table of what pairs of references have become in the store of the answer.
#[derive(Drop)]
pub(crate) struct ProductMachine<'a> {
    pub product: Product<'a>,
    pub table: PairTable,
}

impl<'a> Machine for ProductMachine<'a> {
    ghost use Rattle.ms_diagram.specs.Table.{ArePairedAcross};
    ghost use Rattle.ms_product.specs.Pairing.{HaveRisingMaps, IsLaterPairing, product_findings, sides_of};
    ghost use Rattle.ms_product.specs.inner.Later.{pairing_later_itself, pairing_later_later, pairing_later_findings};

    ghost findings = { λ machine. product_findings machine.product.op machine.product.operands machine.product.pairs };

    ghost IsReady = { λ machine nodes. HaveRisingMaps machine.product.operands
        × ArePairedAcross (sides_of machine.product.operands) machine.product.pairs nodes machine.table };

    ghost IsLater = { λ early late. IsLaterPairing early.product late.product };

    ghost later_itself = { λ machine. pairing_later_itself machine.product };

    ghost later_later = { λ one two three. pairing_later_later one.product two.product three.product };

    ghost later_findings = { λ early late. pairing_later_findings early.product late.product };

    fn start(&mut self, store: &mut Store) -> Result<Ref, StepFault> {
        self.product.lead_from_start(store, &mut self.table)
    }

    fn next(&mut self, store: &mut Store, state: u32) -> Result<Ref, StepFault> {
        self.product.lead_from(store, state, &mut self.table)
    }

    fn sign(&self, state: u32) -> Sign {
        self.product.sign(state)
    }

    fn count(&self) -> u32 {
        self.product.count()
    }
}
