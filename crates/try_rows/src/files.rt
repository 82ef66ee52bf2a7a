//! The files of a request.
use anyhow::{Result, bail};
use ms_edge::MemFiles;
use ms_list::List;
use std::alloc::Global;
use toml::{Table, Value};
use try_table::{allow_keys, append_numbered, bytes_of, number_at, numbers_at, table_at, text_at};

/// How many writes of files there is memory for.
const WRITES: u32 = 16;

/// How many bytes of files written there is memory for.
const ROOM: u64 = 4096;

/// The file that a `source` is.
const SOURCE: &str = "t.mona";

/// The files of a row: its `source`, its `files` and its `each`.
pub fn files_of(alloc: Global, row: &Table) -> Result<MemFiles> {
    let mut files = no_files(alloc, row)?;
    if let Some(source) = row.get("source") {
        put(alloc, &mut files, SOURCE, source)?;
    }
    if let Some(table) = table_at(row, "files")? {
        put_all(alloc, &mut files, table)?;
    }
    if let Some(table) = table_at(row, "each")? {
        put_each(alloc, &mut files, table)?;
    }
    Ok(files)
}

/// No files, with the reads and writes that fail.
fn no_files(alloc: Global, row: &Table) -> Result<MemFiles> {
    let reads = List::from(numbers_at(alloc, row, "failing_reads")?);
    let writes = List::from(numbers_at(alloc, row, "failing_writes")?);
    Ok(MemFiles::new(alloc, WRITES, ROOM, reads, writes)?)
}

fn put(alloc: Global, files: &mut MemFiles, name: &str, value: &Value) -> Result<()> {
    let bytes = bytes_of(alloc, value)?;
    files.put(name, bytes.as_slice())?;
    Ok(())
}

/// A file for each key of the table.
fn put_all(alloc: Global, files: &mut MemFiles, table: &Table) -> Result<()> {
    for (name, value) in table {
        put(alloc, files, name.as_str(), value)?;
    }
    Ok(())
}

/// A file for each number from the one to the other, with the number in its name and its bytes.
fn put_each(alloc: Global, files: &mut MemFiles, table: &Table) -> Result<()> {
    allow_keys(table, &["name", "bytes", "from", "to"])?;
    let Some(name) = text_at(table, "name")? else {
        bail!("the files of `each` have no `name`");
    };
    let bytes = text_at(table, "bytes")?.unwrap_or("");
    let from = number_at(table, "from", 1)?;
    let to = number_at(table, "to", 0)?;
    for number in from..to.saturating_add(1) {
        put_numbered(alloc, files, (name, bytes), number)?;
    }
    Ok(())
}

fn put_numbered(
    alloc: Global,
    files: &mut MemFiles,
    file: (&str, &str),
    number: u64,
) -> Result<()> {
    let mut name = Vec::new(alloc);
    append_numbered(&mut name, file.0, number)?;
    let mut bytes = Vec::new(alloc);
    append_numbered(&mut bytes, file.1, number)?;
    let Ok(name) = std::str::from_utf8(name.as_slice()) else {
        bail!("the name of a file is no text");
    };
    files.put(name, bytes.as_slice())?;
    Ok(())
}
