//! What stands under a key of a table.
use anyhow::{Result, bail};
use std::alloc::Global;
use toml::{Table, Value};

/// Refuses a table with a key that is none of these.
pub fn allow_keys(table: &Table, allowed: &[&str]) -> Result<()> {
    for key in table.keys() {
        if !is_one_of(key.as_str(), allowed) {
            bail!("unknown key {key}");
        }
    }
    Ok(())
}

fn is_one_of(key: &str, allowed: &[&str]) -> bool {
    for other in allowed {
        if *other == key {
            return true;
        }
    }
    false
}

/// The text under the key, if there is one.
pub fn text_at<'a>(table: &'a Table, key: &str) -> Result<Option<&'a str>> {
    match table.get(key) {
        None => Ok(None),
        Some(Value::String(text)) => Ok(Some(text.as_str())),
        Some(_) => bail!("{key} is no text"),
    }
}

/// The text under the key, which must be there.
pub fn text_of<'a>(table: &'a Table, key: &str) -> Result<&'a str> {
    match text_at(table, key)? {
        Some(text) => Ok(text),
        None => bail!("there is no {key}"),
    }
}

/// The number under the key, or this one where there is none.
pub fn number_at(table: &Table, key: &str, other: u64) -> Result<u64> {
    match table.get(key) {
        None => Ok(other),
        Some(value) => number(key, value),
    }
}

/// The number that a value is.
fn number(key: &str, value: &Value) -> Result<u64> {
    if let Value::Integer(number) = value {
        if let Ok(number) = u64::try_from(*number) {
            return Ok(number);
        }
    }
    bail!("{key} is no number")
}

/// The list of values under the key, which is empty where there is none.
pub fn list_at<'a>(table: &'a Table, key: &str) -> Result<&'a [Value]> {
    match table.get(key) {
        None => Ok(&[]),
        Some(Value::Array(values)) => Ok(values.as_slice()),
        Some(_) => bail!("{key} is no list"),
    }
}

/// The list of numbers under the key.
pub fn numbers_at(alloc: Global, table: &Table, key: &str) -> Result<Vec<u64>> {
    let mut numbers = Vec::new(alloc);
    for value in list_at(table, key)? {
        numbers.push(number(key, value)?)?;
    }
    Ok(numbers)
}

/// The table under the key, if there is one.
pub fn table_at<'a>(table: &'a Table, key: &str) -> Result<Option<&'a Table>> {
    match table.get(key) {
        None => Ok(None),
        Some(Value::Table(inner)) => Ok(Some(inner)),
        Some(_) => bail!("{key} is no table"),
    }
}
