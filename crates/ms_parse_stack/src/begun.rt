ghost use Rattle.std.specs.Prelude.{◌≡◌, ◌+◌, ◌<◌, ◌≤◌, [], suc, max, length, IsTrue, IsFalse};

use crate::stack::Stack;
use std::alloc::Global;

/// What has been begun, and the depth of the shortest formula that begins so.
#[derive(Drop)]
pub struct Begun<T> {
    pub frames: Stack<T>,
    pub deepest: u32,
}

impl<T> Begun<T> {
    /// The beginning.
    pub fn nothing(alloc: Global) -> Begun<T>
        ensures frames { result.frames ≡ [] }
        ensures deepest { result.deepest ≡ 1 }
    {
        let frames = Stack::new(alloc);
        Begun { frames, deepest: 1 }
    }

    /// Whether a formula may be begun upon the stack that has parts of this depth before what follows. Its depth is noted then.
    pub fn deepen(&mut self, inside: u32) -> bool
        requires shallow { self.old.deepest ≤ 300 }
        requires bounded { inside ≤ 300 }
        ensures frames { self.new.frames ≡ self.old.frames }
        ensures fits { IsTrue result → (self.new.deepest ≡ max self.old.deepest (length self.old.frames + suc (max inside 1))) × (self.new.deepest ≤ 300) }
        ensures deep { IsFalse result → 300 < length self.old.frames + suc (max inside 1) }
    {
        let depth = self.frames.len().saturating_add(1 + inside.max(1) as usize);
        if depth > 300 {
            return false;
        }
        self.deepest = self.deepest.max(depth as u32);
        true
    }
}
