//! Bytes as the data files write them: a text, or a list of pieces.
use crate::table::{allow_keys, number_at, text_at};
use anyhow::{Result, bail};
use std::alloc::Global;
use toml::{Table, Value};

/// The bytes that a value stands for.
pub fn bytes_of(alloc: Global, value: &Value) -> Result<Vec<u8>> {
    let mut made = Vec::new(alloc);
    match value {
        Value::Array(pieces) => append_pieces(&mut made, pieces.as_slice())?,
        piece => append_piece(&mut made, piece)?,
    }
    Ok(made)
}

fn append_pieces(made: &mut Vec<u8>, pieces: &[Value]) -> Result<()> {
    for piece in pieces {
        append_piece(made, piece)?;
    }
    Ok(())
}

fn append_piece(made: &mut Vec<u8>, piece: &Value) -> Result<()> {
    match piece {
        Value::String(text) => {
            made.extend_from_slice(text.as_bytes())?;
            Ok(())
        }
        Value::Table(table) => append_table(made, table),
        _ => bail!("a piece of bytes is a text or a table"),
    }
}

/// Appends `{ hex = .. }`, `{ text = .., times = .. }` or `{ text = .., from = .., to = .. }`.
fn append_table(made: &mut Vec<u8>, table: &Table) -> Result<()> {
    if let Some(digits) = text_at(table, "hex")? {
        allow_keys(table, &["hex"])?;
        return append_hexadecimal(made, digits);
    }
    let Some(text) = text_at(table, "text")? else {
        bail!("a piece of bytes has a `hex` or a `text`");
    };
    if table.get("times").is_some() {
        allow_keys(table, &["text", "times"])?;
        return append_repeated(made, text, number_at(table, "times", 0)?);
    }
    allow_keys(table, &["text", "from", "to"])?;
    let from = number_at(table, "from", 1)?;
    let to = number_at(table, "to", 0)?;
    append_each(made, text, from, to)
}

/// Appends a byte for each two digits; blanks stand between the bytes.
fn append_hexadecimal(made: &mut Vec<u8>, digits: &str) -> Result<()> {
    for pair in digits.split(' ') {
        let Ok(byte) = u8::from_str_radix(pair, 16) else {
            bail!("{pair} is no byte");
        };
        made.push(byte)?;
    }
    Ok(())
}

fn append_repeated(made: &mut Vec<u8>, text: &str, times: u64) -> Result<()> {
    for _ in 0..times {
        made.extend_from_slice(text.as_bytes())?;
    }
    Ok(())
}

/// Appends the text once for each number from the one to the other.
fn append_each(made: &mut Vec<u8>, text: &str, from: u64, to: u64) -> Result<()> {
    for number in from..to.saturating_add(1) {
        append_numbered(made, text, number)?;
    }
    Ok(())
}

/// Appends the text with the number in place of each `#`, and the number after it in place of each `+`.
pub fn append_numbered(made: &mut Vec<u8>, text: &str, number: u64) -> Result<()> {
    for byte in text.bytes() {
        match byte {
            b'#' => append_number(made, number)?,
            b'+' => append_number(made, number.saturating_add(1))?,
            other => made.push(other)?,
        }
    }
    Ok(())
}

/// Appends the last two digits of the number.
fn append_number(made: &mut Vec<u8>, number: u64) -> Result<()> {
    made.push(digit(number / 10))?;
    made.push(digit(number))?;
    Ok(())
}

/// The last digit of the number.
fn digit(number: u64) -> u8 {
    b'0' + (number % 10) as u8
}
