//! The decider as a static library: one call, from the words of a command and files in memory to a status, the text that
//! is printed and the files that are written.
#![tactic(auto)]

mod buffers;
mod examples;
mod folder;
mod hand_over;
mod outcome;
mod printed;
mod request;

ghost use Rattle.std.specs.Prelude.{◌≡◌, ◌≤◌, ◌<◌, ◌↔◌, ◌⊎◌, length};
ghost use Rattle.monastr_c.specs.Request.{AddUp, AreTexts};
ghost use Rattle.monastr_c.specs.Reply.{IsGiven, IsTooLong};

pub use crate::examples::{worked_files, worked_pieces, worked_replies, worked_requests};
use crate::hand_over::{fits, give};
use crate::outcome::{Fault, outcome};
pub use crate::request::{Answer, FileLengths, Request};
use std::alloc::Global;

/// There was no memory. A lesser answer is a status of the program.
pub const NO_MEMORY: u32 = 6;

/// The lengths of the words, or of the files, do not add up to the bytes.
pub const LENGTHS_DIFFER: u32 = 8;

/// A word, or the name of a file, is no UTF-8.
pub const NOT_TEXT: u32 = 9;

/// What the request comes to is longer than the room for it.
pub const TOO_LONG: u32 = 10;

/// Does what the words of a request ask, over its files, as the program does it over the files of a disk. What is printed is put
/// into the room, and behind it the names and contents of the files that are written, each name before its content; their lengths are
/// put into `written`, and in `answer` stands how much of both is used, or would be.
#[unsafe(no_mangle)]
pub extern "C" fn monastr_run(
    alloc: Global,
    request: &Request<'_>,
    room: &mut [u8],
    written: &mut [FileLengths],
    answer: &mut Answer,
) -> u32
    // Lengths that do not add up are always told, and words and names that are no text, unless memory is wanting.
    ensures lengths { (result ≡ LENGTHS_DIFFER) ↔ (¬ AddUp request.now) }
    ensures not_text { result ≡ NOT_TEXT → AddUp request.now × ¬ AreTexts request.now }
    ensures texts { result < LENGTHS_DIFFER → (result ≡ NO_MEMORY) ⊎ AreTexts request.now }

    // A status of the program comes with what the request comes to, in the room and behind it.
    ensures given { result < NO_MEMORY → IsGiven request.now result room.old room.new written.old written.new answer.new }

    // Too long is only what needs more than the room.
    ensures too_long { result ≡ TOO_LONG → IsTooLong request.now (length room.old) (length written.old) answer.new }

    // There are no other answers, and those without an outcome leave the room as it was.
    ensures statuses { (result ≤ NO_MEMORY) ⊎ (result ≡ LENGTHS_DIFFER) ⊎ (result ≡ NOT_TEXT) ⊎ (result ≡ TOO_LONG) }
    ensures room_stays { NO_MEMORY ≤ result → room.new ≡ room.old }
    ensures written_stays { NO_MEMORY ≤ result → written.new ≡ written.old }
{
    match outcome(alloc, request) {
        Ok(held) => {
            *answer = held.sizes();
            if fits(&held, room, written) {
                give(&held, room, written);
                held.number()
            } else {
                TOO_LONG
            }
        }
        Err(Fault::Lengths) => LENGTHS_DIFFER,
        Err(Fault::NotText) => NOT_TEXT,
        Err(Fault::NoMemory) => NO_MEMORY,
    }
}
