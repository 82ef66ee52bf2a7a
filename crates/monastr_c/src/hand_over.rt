ghost use Rattle.std.specs.Prelude.{◌≡◌, ◌+◌, ◌≤◌, ◌↔◌, ◌++◌, IsTrue, length};
ghost use Rattle.monastr_c.specs.Reply.{Begins, sizes_of};
ghost use Rattle.monastr_c.specs.inner.Outcomes.{outcome_of};

use crate::outcome::Held;
use crate::request::FileLengths;

/// Whether there is room for what a request came to.
pub fn fits(held: &Held, room: &[u8], written: &[FileLengths]) -> bool
    ensures { IsTrue result ↔ (length held.now.text.items + length held.now.written.items ≤ length room.now) × (length held.now.lengths.items ≤ length written.now) }
{
    held.text.len() + held.written.len() <= room.len() && held.lengths.len() <= written.len()
}

/// Gives what a request came to, for which there is room.
pub fn give(held: &Held, room: &mut [u8], written: &mut [FileLengths])
    requires room { length held.now.text.items + length held.now.written.items ≤ length room.old }
    requires written { length held.now.lengths.items ≤ length written.old }
    ensures bytes { Begins room.old room.new (held.now.text.items ++ held.now.written.items) }
    ensures lengths { Begins written.old written.new held.now.lengths.items }
{
    put(room, &held.text);
    put(&mut room[held.text.len()..], &held.written);
    put(written, &held.lengths);
}

/// Makes the items the front of a room.
fn put<T: Copy>(room: &mut [T], items: &[T])
    requires { length items.now ≤ length room.old }
    ensures { Begins room.old room.new items.now }
{
    room[..items.len()].copy_from_slice(items);
}
