//! What must come of a request.
use crate::request::Request;
use crate::status::{number_of, status_of};
use anyhow::{Result, bail};
use ms_edge::{MemFiles, Status};
use std::alloc::Global;
use toml::{Table, Value};
use try_table::{bytes_of, number_at, table_at, text_at};

/// The text that the sink takes, the exit status, and what some files hold afterwards.
#[derive(Drop)]
pub struct Wanted<'a> {
    text: String,
    status: u64,
    after: Option<&'a Table>,
}

impl<'a> Wanted<'a> {
    /// What a row wants.
    pub fn read(alloc: Global, row: &'a Table) -> Result<Wanted<'a>> {
        let text = text_of(alloc, row)?;
        let status = number_at(row, "status", status_of(text.as_str()))?;
        let after = table_at(row, "after")?;
        Ok(Wanted {
            text,
            status,
            after,
        })
    }

    /// What differs from what came.
    pub fn difference(
        &self,
        alloc: Global,
        request: &Request,
        status: Status,
    ) -> Result<Option<String>> {
        let came = request.sink.bytes();
        let wanted = self.text.as_str();
        if came != wanted.as_bytes() {
            let came = shown(came);
            return Ok(Some(format!(in alloc; "it prints {came:?}, and {wanted:?} is wanted")?));
        }
        let status = number_of(status);
        let wanted = self.status;
        if status != wanted {
            return Ok(Some(format!(in alloc; "its status is {status}, and {wanted} is wanted")?));
        }
        match self.after {
            Some(after) => difference_after(alloc, after, &request.files),
            None => Ok(None),
        }
    }
}

/// The text that the sink must take: the `text` of a row, or its `line` with the end of the line.
fn text_of(alloc: Global, row: &Table) -> Result<String> {
    match (text_at(row, "line")?, text_at(row, "text")?) {
        (Some(line), None) => Ok(format!(in alloc; "{line}\n")?),
        (None, Some(text)) => Ok(String::from_str(alloc, text)?),
        _ => bail!("a row has a `line` or a `text`"),
    }
}

/// What the sink took, as text.
fn shown(bytes: &[u8]) -> &str {
    std::str::from_utf8(bytes).unwrap_or("bytes that are no text")
}

/// What differs in the files.
fn difference_after(alloc: Global, after: &Table, files: &MemFiles) -> Result<Option<String>> {
    for (name, value) in after {
        if !holds(alloc, files, name.as_str(), value)? {
            return Ok(Some(format!(in alloc; "{name} holds something else")?));
        }
    }
    Ok(None)
}

/// Whether the file holds these bytes.
fn holds(alloc: Global, files: &MemFiles, name: &str, value: &Value) -> Result<bool> {
    let wanted = bytes_of(alloc, value)?;
    Ok(files.get(name) == Some(wanted.as_slice()))
}
