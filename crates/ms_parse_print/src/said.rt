//! What tokens can say.

ghost use Rattle.std.specs.Prelude.{◌≡◌, ◌↔◌, List, IsTrue};
ghost use Rattle.std.specs.List.{flat_map, list_all};
ghost use Rattle.ms_text.specs.Spelling.{is_text_byte};
ghost use Rattle.ms_parse_grammar.specs.Reads.{int_symbol};
ghost use Rattle.ms_parse_grammar.specs.Symbol as symbol;
ghost use Rattle.ms_parse_grammar.specs.Symbol.{Symbol};
ghost use Rattle.ms_parse_grammar.specs.Tree as tree;
ghost use Rattle.ms_parse_print.specs.inner.Printed.{AreSpellable, IsSpellable, printed_atom, printed_pair, printed_shift, single, unsigned};

use ms_list::{Name, Text};
use ms_logic::{Int, PlacedInt, Rename};
use ms_text::is_name;

pub fn can_name(called: &Name) -> bool
    ensures { IsTrue result ↔ IsSpellable (symbol.name called.now) }
{
    is_name(called.bytes())
}

/// Whether the text has no quote and no line feed.
pub fn can_quote(content: &Text) -> bool
    ensures { IsTrue result ↔ IsSpellable (symbol.text content.now) }
{
    has_text_bytes(content.text())
}

fn has_text_bytes(content: &str) -> bool
    ensures { IsTrue result ↔ IsSpellable (symbol.text content.now) }
{
    are_text_bytes(content.as_bytes())
}

fn are_text_bytes(bytes: &[u8]) -> bool
    ensures { result ≡ list_all is_text_byte bytes.now }
{
    bytes.iter().all(|byte| is_text_byte(*byte))
}

fn is_text_byte(byte: u8) -> bool
    ensures { result ≡ is_text_byte byte }
{
    byte != b'"' && byte != b'\n'
}

pub fn can_say_int(value: &Int) -> bool
    ensures { IsTrue result ↔ IsSpellable (int_symbol value.now) }
{
    match value {
        Int::Number(value) => can_say_number(*value),
        Int::Constant(called) => can_name(called),
    }
}

/// Each number of 64 bits can be said.
pub fn can_say_number(value: u64) -> bool
    ensures { IsTrue result ↔ IsSpellable (symbol.number value) }
{
    let _value = value;
    true
}

/// Whether the number or the constant can be said where no sign can stand.
#[tactic(auto, using(crate::proofs::Spelled::nothing_left_out))]
pub fn can_say_unsigned(n: &PlacedInt) -> bool
    ensures { IsTrue result ↔ IsSpellable (unsigned n.now) }
{
    !n.minus && can_say_int(&n.value)
}

/// An entry of a list of them.
pub trait Entry {
    /// What is printed for it.
    ghost symbols: { Self → List Symbol };

    /// Whether it can be said.
    fn can_be_said(&self) -> bool
        ensures { IsTrue result ↔ AreSpellable (symbols self.now) };
}

/// Whether each of the entries can be said.
pub fn can_say_all<T: Entry>(entries: &[T]) -> bool
    ensures { IsTrue result ↔ AreSpellable (flat_map T.symbols entries.now) }
{
    for entry in entries {
        if !entry.can_be_said() {
            return false;
        }
    }
    true
}

impl Entry for Rename {
    ghost symbols = { printed_pair single };

    fn can_be_said(&self) -> bool {
        can_name(&self.left) && can_name(&self.right)
    }
}

/// A number of a sum, behind its sign.
impl Entry for PlacedInt {
    ghost symbols = { printed_shift single };

    fn can_be_said(&self) -> bool {
        can_say_int(&self.value)
    }
}

pub fn can_import(file: &Text, pairs: &[Rename]) -> bool
    ensures { IsTrue result ↔ AreSpellable (printed_atom single (tree.imported file.now pairs.now)) }
{
    can_quote(file) && can_say_all(pairs)
}
