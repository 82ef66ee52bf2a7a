ghost use Rattle.std.specs.Prelude.{◌≡◌, [], ◌∷◌, ◌↔◌, IsTrue, length, OnOk, MatchOption};

use ms_list::NoMemory;
use std::alloc::Global;
use std::marker::Model;

/// A stack, which contracts see as the list of its items from the top down.
#[derive(Drop)]
pub struct Stack<T> {
    items: Vec<T>,
}

impl<T> Model for Stack<T> {
    ghost use Rattle.std.specs.Prelude.{List as Sequence, reverse};
    ghost use Rattle.std.specs.Coded.{coded_list};

    ghost Value = { Sequence T };

    ghost coded = { coded_list T.code };

    ghost view = { λ stack. reverse stack.items.items };
}

impl<T> Stack<T> {
    /// The empty stack. It takes no memory until something is pushed.
    pub fn new(alloc: Global) -> Stack<T>
        ensures { result ≡ [] }
    {
        Stack {
            items: Vec::new(alloc),
        }
    }

    /// Puts an item on the stack. It is let go where memory is refused.
    pub fn push(&mut self, item: T) -> Result<(), NoMemory>
    where
        T: Drop,
        ensures { OnOk result (self.new ≡ item ∷ self.old) }
    {
        match self.items.push(item) {
            Ok(()) => Ok(()),
            Err(_) => Err(NoMemory),
        }
    }

    /// Takes the item on top.
    pub fn pop(&mut self) -> Option<T>
        ensures { MatchOption result ((self.old ≡ []) × (self.new ≡ [])) (λ item. self.old ≡ item ∷ self.new) }
    {
        self.items.pop()
    }

    pub fn len(&self) -> usize
        ensures { result ≡ length self.now }
    {
        self.items.len()
    }

    pub fn is_empty(&self) -> bool
        ensures { IsTrue result ↔ (self.now ≡ []) }
    {
        self.items.is_empty()
    }
}
