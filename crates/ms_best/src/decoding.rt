ghost use Rattle.std.specs.Prelude.{◌≡◌, ◌<◌, ◌≤◌, ◌^◌, ◌+◌, max, false, List, length, slice_index_or, IfOk};
ghost use Rattle.ms_logic.specs.Assignment.{Env, IsAssignment};
ghost use Rattle.ms_logic.specs.First.{assignment_of};
ghost use Rattle.ms_logic.specs.FiniteSet.{least};
ghost use Rattle.ms_logic_words.specs.Word.{Encodes, IsEncoding};
ghost use Rattle.ms_logic.specs.Letters.{bound_of_set};
ghost use Rattle.ms_dfa.specs.Automaton.{variables_of};
ghost use Rattle.ms_logic_words.specs.inner.Decoding.{bit_in, positions_of, decoded_value, place_after, column_after, decoded_values, bound_of_value, bound_of_values, decoded_length};

use ms_dfa::Track;
use ms_list::{List, NoMemory, Word};
use ms_logic::{Assignment, Mode, Order, Value};
use std::alloc::Global;

/// The assignment that a word encodes: its length, and the values of the tracks in their order.
pub fn assignment(
    alloc: Global,
    word: &Word,
    tracks: &[Track],
    mode: Mode,
) -> Result<Assignment, NoMemory>
    requires { IsEncoding mode (variables_of tracks.now) word.now }
    ensures { IfOk result (λ found. (e : Env) → IsAssignment mode (variables_of tracks.now) e → Encodes (variables_of tracks.now) word.now e
        → found ≡ assignment_of (variables_of tracks.now) e) }
{
    let values = values(alloc, word, tracks)?;
    let length = length(mode, word.letters.len() as u64, values.slice());
    Ok(Assignment { length, values })
}

/// The length of an assignment with these values, of which a word has so many letters.
fn length(mode: Mode, letters: u64, values: &[Value]) -> u64
    requires { bound_of_values values.now ≤ letters }
    ensures { result ≡ decoded_length mode letters (bound_of_values values.now) }
{
    match mode {
        Mode::Ws1s => bound_of_values(values),
        Mode::M2lStr => letters,
    }
}

/// The bit of a list at a place, and 0 past its end.
fn bit(bits: &List<bool>, place: usize) -> bool
    ensures { result ≡ slice_index_or bits.now place false }
{
    match bits.slice().get(place) {
        Some(value) => *value,
        None => false,
    }
}

/// The positions at which a column has the bit 1.
fn positions(
    alloc: Global,
    letters: &List<List<bool>>,
    column: usize,
) -> Result<List<u64>, NoMemory>
    ensures { IfOk result (λ found. found ≡ positions_of letters.now column) }
{
    let mut found = List::new(alloc);
    for (position, letter) in letters.slice().iter().enumerate() {
        if bit(letter, column) {
            match found.push(position as u64) {
                Ok(()) => {}
                Err(_) => return Err(NoMemory),
            }
        }
    }
    Ok(found)
}

/// The first position at which a column has the bit 1, and 0 where there is none.
fn first_position(letters: &List<List<bool>>, column: usize) -> u64
    ensures { result ≡ least (positions_of letters.now column) }
{
    for (position, letter) in letters.slice().iter().enumerate() {
        if bit(letter, column) {
            return position as u64;
        }
    }
    0
}

/// The value of a variable.
fn value(
    alloc: Global,
    word: &Word,
    order: Order,
    place: usize,
    column: usize,
) -> Result<Value, NoMemory>
    ensures { IfOk result (λ found. found ≡ decoded_value word.now order place column) }
{
    match order {
        Order::Zero => Ok(Value::Truth(bit(&word.truth, place))),
        Order::One => Ok(Value::Number(first_position(&word.letters, column))),
        Order::Two => Ok(Value::Set(positions(alloc, &word.letters, column)?)),
    }
}

/// The values of the tracks.
fn values(alloc: Global, word: &Word, tracks: &[Track]) -> Result<List<Value>, NoMemory>
    ensures { IfOk result (λ found. found ≡ decoded_values word.now 0 0 (variables_of tracks.now)) }
{
    let mut found = List::new(alloc);
    let mut place = 0;
    let mut column = 0;
    for track in tracks {
        match found.push(value(alloc, word, track.order, place, column)?) {
            Ok(()) => {}
            Err(_) => return Err(NoMemory),
        }
        match track.order {
            Order::Zero => place += 1,
            Order::One | Order::Two => column += 1,
        }
    }
    Ok(found)
}

/// The least number above each member.
fn bound_of_set(members: &[u64]) -> u64
    requires { bound_of_set members.now < 2 ^ 64 }
    ensures { result ≡ bound_of_set members.now }
{
    let mut bound = 0;
    for member in members {
        bound = (*member + 1).max(bound);
    }
    bound
}

/// The least number above each number and each member.
fn bound_of_values(values: &[Value]) -> u64
    requires { bound_of_values values.now < 2 ^ 64 }
    ensures { result ≡ bound_of_values values.now }
{
    let mut bound = 0;
    for value in values {
        let own = match value {
            Value::Truth(_) => 0,
            Value::Number(number) => *number + 1,
            Value::Set(members) => bound_of_set(members.slice()),
        };
        bound = own.max(bound);
    }
    bound
}
