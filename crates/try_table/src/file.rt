//! A data file.
use crate::table::allow_keys;
use anyhow::{Context, Result};
use std::alloc::Global;
use toml::{Table, Value};

/// The table that the text of a data file is. It has rows and nothing else.
pub fn table_of(alloc: Global, text: &str) -> Result<Table> {
    let table = toml::table_from_str(alloc, text).context("it is no TOML")?;
    allow_keys(&table, &["row"])?;
    Ok(table)
}

/// The rows of a file.
pub fn rows_of(table: &Table) -> &[Value] {
    match table.get("row") {
        Some(Value::Array(rows)) => rows.as_slice(),
        _ => &[],
    }
}
