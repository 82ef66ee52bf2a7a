ghost use Rattle.std.specs.Prelude.{◌≡◌, ◌++◌, List, ℕ, OnOk, string_bytes};
ghost use Rattle.ms_dfafile.specs.inner.Reading.{Finds, Gives, HasName, Reads};
ghost use Rattle.ms_dfafile.specs.Spelling.{field, order_text, variable_line};
ghost use Rattle.ms_text.specs.Spelling.{Spells};
ghost use Rattle.ms_text.specs.declared.token.Kind.TheVariants as kinds;

use crate::fault::FileFault;
use crate::field::{behind, field};
use crate::line::Line;
use ms_dfa::FileVar;
use ms_list::Name;
use ms_logic::Order;
use ms_text::is_name;
use std::alloc::{AllocError, Global};

/// The order in the field at the front.
fn order(bytes: &[u8]) -> Option<(Order, &[u8])>
    ensures { Reads (λ order. field (order_text order)) (λ _. Unit {0}) bytes.now result }
{
    if let Some(rest) = behind(bytes, b"0 ") {
        return Some((Order::Zero, rest));
    }
    if let Some(rest) = behind(bytes, b"1 ") {
        return Some((Order::One, rest));
    }
    let rest = behind(bytes, b"2 ")?;
    Some((Order::Two, rest))
}

/// The name that a whole text is.
fn name_of(alloc: Global, text: &[u8]) -> Result<Name, FileFault>
    ensures { Gives (λ (name : List ℕ). name) (Spells kinds.Name) text.now result }
{
    if !is_name(text) {
        return Err(FileFault::Text);
    }
    let Ok(text) = str::from_utf8(text) else {
        return Err(FileFault::Text);
    };
    match Name::new(alloc, text) {
        Ok(name) => Ok(name),
        Err(_) => Err(FileFault::Memory),
    }
}

/// A variable: its order and its name.
fn variable(alloc: Global, bytes: &[u8]) -> Result<(FileVar, &[u8]), FileFault>
    ensures { Finds variable_line HasName bytes.now result }
{
    let Some((order, rest)) = order(bytes) else {
        return Err(FileFault::Text);
    };
    let Some((text, rest)) = field(rest, b'\n') else {
        return Err(FileFault::Text);
    };
    match name_of(alloc, text) {
        Ok(name) => Ok((FileVar { order, name }, rest)),
        Err(fault) => Err(fault),
    }
}

fn order_field(order: Order) -> &'static str
    ensures { result.now ≡ field (order_text order) }
{
    match order {
        Order::Zero => "0 ",
        Order::One => "1 ",
        Order::Two => "2 ",
    }
}

impl Line for FileVar {
    ghost text = { variable_line };

    ghost Fits = { HasName };

    fn read(alloc: Global, bytes: &[u8]) -> Result<(FileVar, &[u8]), FileFault> {
        variable(alloc, bytes)
    }

    fn append_to(&self, out: &mut String) -> Result<(), AllocError> {
        out.push_str(order_field(self.order))?;
        out.push_str(self.name.text())?;
        out.push_str("\n")
    }
}
