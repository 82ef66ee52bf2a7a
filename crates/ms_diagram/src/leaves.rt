ghost use Rattle.std.specs.Prelude.{◌≡◌, length, fold, IfOk, OnOk};
ghost use Rattle.ms_arena.specs.Diagram.{IsValid};

use crate::store::Store;
use indexmap::IndexSet;
use ms_arena::Ref;
use ms_list::{List, NoMemory};

// What is left to do: to note the leaves of a diagram, or a place whose leaves are noted.
#[derive(Clone, Copy)]
enum Task {
    Follow(Ref),
    Note(u32),
}

impl Store {
    ghost use Rattle.ms_arena.specs.Leaves.{leaves_within};
    ghost use Rattle.ms_diagram.specs.Leaves.{KnowsPlaces, leaves_of, noted};

    /// The different leaves of the diagram by first sight, the low end of each node first.
    pub fn leaves_in_order(&self, root: Ref) -> Result<List<u32>, NoMemory>
        requires { IsValid self.now.nodes root }
        ensures { IfOk result (λ leaves. leaves ≡ leaves_of self.now.nodes root) }
    {
        let mut leaves = IndexSet::new(self.alloc);
        let mut places = IndexSet::new(self.alloc);
        self.note_leaves(root, &mut leaves, &mut places)?;
        let Ok(list) = Vec::from_slice(self.alloc, leaves.as_slice()) else {
            return Err(NoMemory);
        };
        Ok(List::from(list))
    }

    // Notes the leaves of the diagram behind those that were noted, and its places, of which none is followed twice.
    fn note_leaves(
        &self,
        root: Ref,
        leaves: &mut IndexSet<u32>,
        places: &mut IndexSet<u32>,
    ) -> Result<(), NoMemory>
        requires valid { IsValid self.now.nodes root }
        requires known { KnowsPlaces self.now.nodes leaves.old.keys places.old.keys }
        ensures leaves { OnOk result (leaves.new.keys ≡ fold noted leaves.old.keys (leaves_within self.now.nodes (length self.now.nodes) root)) }
        ensures known { OnOk result (KnowsPlaces self.now.nodes leaves.new.keys places.new.keys) }
    {
        let mut tasks = Vec::new(self.alloc);
        let Ok(()) = tasks.push(Task::Follow(root)) else {
            return Err(NoMemory);
        };
        // No diagram asks for so many tasks.
        for _ in 0..u64::MAX {
            let Some(task) = tasks.pop() else {
                return Ok(());
            };
            match task {
                Task::Follow(reference) => match reference {
                    Ref::Leaf(value) => {
                        let Ok(_) = leaves.insert(value) else {
                            return Err(NoMemory);
                        };
                    }
                    Ref::Inner(place) => {
                        if places.contains(&place) {
                            continue;
                        }
                        let node = self.node(place);
                        let steps = [
                            Task::Note(place),
                            Task::Follow(node.high),
                            Task::Follow(node.low),
                        ];
                        let Ok(()) = tasks.extend_from_slice(&steps) else {
                            return Err(NoMemory);
                        };
                    }
                },
                Task::Note(place) => {
                    let Ok(_) = places.insert(place) else {
                        return Err(NoMemory);
                    };
                }
            }
        }
        Err(NoMemory)
    }
}
