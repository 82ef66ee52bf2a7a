ghost use Rattle.std.specs.Prelude.{◌≡◌, IfOk, IfErr};

use crate::notes::{Notes, remember};
use crate::store::Store;
use ms_arena::Ref;
use ms_list::StepFault;

// What a walk finds at an item: its answer, an item whose answer it has, or a variable and the items of both ends.
#[derive(Drop)]
pub(crate) enum Visit<I, K> {
    Made(Ref),
    Instead(I),
    Split { key: K, var: u32, low: I, high: I },
}

// A key whose answer waits for that of its low end, or of its high end.
#[derive(Drop)]
pub(crate) enum Frame<I, K> {
    Low { key: K, var: u32, high: I },
    High { key: K, var: u32, low: Ref },
}

// Where a walk goes next: down to an item, or up with an answer.
#[derive(Drop)]
pub(crate) enum Turn<I> {
    Down(I),
    Up(Ref),
}

/// What a call that builds a diagram from its ends does at each item.
pub(crate) trait Walk {
    ghost use Rattle.ms_diagram.specs.inner.Notes.{KeepsOnly};
    ghost use Rattle.ms_diagram.specs.Store.{IsStore};
    ghost use Rattle.ms_diagram.specs.Table.{EachEntry};
    ghost use Rattle.ms_diagram.specs.inner.Walk.{Rules, IsVisited, OnFault, AreLaws};

    type Item: Drop;

    type Key: Eq + Drop;

    ghost rules: { Rules Self Self.Item Self.Key };

    fn visit<T: Notes<Self::Key>>(
        &mut self,
        store: &Store,
        item: Self::Item,
        notes: &mut T,
    ) -> Result<Visit<Self::Item, Self::Key>, StepFault>
        requires store { IsStore store.now.nodes store.now.limit }
        requires right { rules.IsRight self.old }
        requires fits { rules.Fits self.old store.now.nodes item }
        requires table { EachEntry (rules.IsEntry self.old store.now.nodes) (T.entries notes.old) }
        ensures later { rules.Later self.old self.new }
        ensures right { rules.IsRight self.new }
        ensures added { rules.Adds self.new store.now.nodes item self.old self.new }
        ensures visited { IfOk result (IsVisited rules self.new store.now.nodes item) }
        ensures nodes { IfErr result (λ fault. OnFault fault (λ limit. (limit ≡ store.now.limit) × rules.Lacks self.new store.now.nodes item)) }
        ensures kept { KeepsOnly (T.entries notes.old) (T.entries notes.new) };

    ghost laws: { AreLaws rules Self.Key.eq };
}

impl Store {
    ghost use Rattle.ms_diagram.specs.Store.{IsStore};
    ghost use Rattle.ms_diagram.specs.Table.{EachEntry};
    ghost use Rattle.ms_diagram.specs.inner.Walk.{IsWalked};

    // The answer for the root: the ends of each item are answered before the item, whose answer is the node over theirs.
    pub(crate) fn walk<W: Walk, T: Notes<W::Key>>(
        &mut self,
        walk: &mut W,
        root: W::Item,
        notes: &mut T,
    ) -> Result<Ref, StepFault>
        requires store { IsStore self.old.nodes self.old.limit }
        requires right { W.rules.IsRight walk.old }
        requires fits { W.rules.Fits walk.old self.old.nodes root }
        requires table { EachEntry (W.rules.IsEntry walk.old self.old.nodes) (T.entries notes.old) }
        ensures { IsWalked W.rules self.old walk.old root self.new walk.new (T.entries notes.new) result }
    {
        let mut frames = Vec::new(self.alloc);
        let mut turn = Turn::Down(root);
        // No walk takes so many turns.
        for _ in 0..u64::MAX {
            turn = match turn {
                Turn::Down(item) => match walk.visit(self, item, notes)? {
                    Visit::Made(made) => Turn::Up(made),
                    Visit::Instead(other) => Turn::Down(other),
                    Visit::Split {
                        key,
                        var,
                        low,
                        high,
                    } => {
                        let Ok(()) = frames.push(Frame::Low { key, var, high }) else {
                            return Err(StepFault::Memory);
                        };
                        Turn::Down(low)
                    }
                },
                Turn::Up(made) => match frames.pop() {
                    None => return Ok(made),
                    Some(Frame::Low { key, var, high }) => {
                        let low = made;
                        let Ok(()) = frames.push(Frame::High { key, var, low }) else {
                            return Err(StepFault::Memory);
                        };
                        Turn::Down(high)
                    }
                    Some(Frame::High { key, var, low }) => {
                        let node = self.mk(var, low, made)?;
                        Turn::Up(remember(notes, key, node)?)
                    }
                },
            };
        }
        Err(StepFault::Memory)
    }
}
