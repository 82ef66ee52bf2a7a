ghost use Rattle.std.specs.Prelude.{◌≡◌, ◌≤◌, length, drop, IfOk};
ghost use Rattle.ms_include.specs.Include.{is_among, names, numbers};

use ms_list::{List, NoMemory, Text};
use std::alloc::Global;

/// A file whose loading has begun and not ended: its number, and its name.
#[derive(Drop)]
pub struct Begun {
    pub number: u32,
    pub name: Text,
}

/// Whether the name is one of these.
fn is_among(name: &Text, names: &[Text]) -> bool
    ensures { result ≡ is_among name.now names.now }
{
    for other in names {
        if name.bytes() == other.bytes() {
            return true;
        }
    }
    false
}

/// Whether the name is one of those from a place on.
pub fn is_read(name: &Text, names: &[Text], from: usize) -> bool
    requires { from ≤ length names.now }
    ensures { result ≡ is_among name.now (drop from names.now) }
{
    is_among(name, &names[from..])
}

/// Whether the name is that of a file in the chain.
pub fn is_in_chain(name: &Text, chain: &[Begun]) -> bool
    ensures { result ≡ is_among name.now (names chain.now) }
{
    for begun in chain {
        if name.bytes() == begun.name.bytes() {
            return true;
        }
    }
    false
}

/// The numbers of the files in the chain.
pub fn numbers(alloc: Global, chain: &[Begun]) -> Result<List<u32>, NoMemory>
    ensures { IfOk result (λ made. made ≡ numbers chain.now) }
{
    let mut made = List::new(alloc);
    for begun in chain {
        if made.push(begun.number).is_err() {
            return Err(NoMemory);
        }
    }
    Ok(made)
}
