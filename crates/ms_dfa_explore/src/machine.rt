ghost use Rattle.std.specs.Prelude.{◌≡◌, ◌<◌, ◌≤◌, ◌+◌, List, length, OnOk};
ghost use Rattle.ms_arena.specs.declared.node.Node.{Node};
ghost use Rattle.ms_diagram.specs.Growth.{Builds};
ghost use Rattle.ms_dfa_explore.specs.Explored.{Findings, AreMore};

use ms_arena::Ref;
use ms_diagram::Store;
use ms_list::StepFault;
use ms_logic_words::Sign;

/// A deterministic machine over words, whose states get numbers as they are found. It says where its start and each of its
/// states lead by a diagram whose leaves are such numbers.
pub trait Machine {
    /// What has been found so far.
    ghost findings: { Self → Findings };

    /// The nodes of a store have the diagrams that the machine itself is made of, and those that it has noted.
    ghost IsReady: { Self → List Node → Type 0 };

    /// The second is the first with more states found.
    ghost IsLater: { Self → Self → Type 0 };

    /// Where the truth values lead from the start.
    fn start(&mut self, store: &mut Store) -> Result<Ref, StepFault>
        requires { IsReady self.old store.old.nodes }
        ensures later { IsLater self.old self.new }
        ensures ready { OnOk result (IsReady self.new store.new.nodes) }
        ensures builds { Builds store.old store.new (findings self.new).starts (findings self.new).LacksNumber result }
        ensures few { length store.new.nodes ≤ length store.old.nodes + (findings self.new).most_nodes };

    /// Where a letter leads from a state.
    fn next(&mut self, store: &mut Store, state: u32) -> Result<Ref, StepFault>
        requires state { state < (findings self.old).count }
        requires ready { IsReady self.old store.old.nodes }
        ensures later { IsLater self.old self.new }
        ensures ready { OnOk result (IsReady self.new store.new.nodes) }
        ensures builds { Builds store.old store.new ((findings self.new).steps state) (findings self.new).LacksNumber result }
        ensures few { length store.new.nodes ≤ length store.old.nodes + (findings self.new).most_nodes };

    /// The sign of the words that end in a state.
    fn sign(&self, state: u32) -> Sign
        requires { state < (findings self.now).count }
        ensures { result ≡ (findings self.now).sign_of state };

    /// How many states have been found.
    fn count(&self) -> u32
        ensures { result ≡ (findings self.now).count };

    ghost later_itself: { (machine : Self) → IsLater machine machine };

    ghost later_later: { (one two three : Self) → IsLater one two → IsLater two three → IsLater one three };

    ghost later_findings: { (early late : Self) → IsLater early late → AreMore (findings early) (findings late) };
}
