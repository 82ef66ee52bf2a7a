//! A request, as a user makes it.
use crate::files::files_of;
use anyhow::{Result, bail};
use ms_edge::{CommandLine, MemFiles, MemSink};
use ms_list::List;
use std::alloc::Global;
use toml::{Table, Value};
use try_table::{allow_keys, list_at, number_at, numbers_at};

/// The keys of a row.
const KEYS: [&str; 13] = [
    "source",
    "files",
    "each",
    "words",
    "failing_reads",
    "failing_writes",
    "failing_pieces",
    "room",
    "piece",
    "line",
    "text",
    "status",
    "after",
];

/// How many bytes a sink takes, in a call and at all, where a row does not say it.
const AMPLE: u64 = 4096;

#[derive(Drop)]
pub struct Request {
    pub words: CommandLine,
    pub files: MemFiles,
    pub sink: MemSink,
}

impl Request {
    /// The request of a row.
    pub fn read(alloc: Global, row: &Table) -> Result<Request> {
        allow_keys(row, &KEYS)?;
        Ok(Request {
            words: words_of(alloc, row)?,
            files: files_of(alloc, row)?,
            sink: sink_of(alloc, row)?,
        })
    }
}

/// The words of a row, which are `decide t.mona` where it has none.
fn words_of(alloc: Global, row: &Table) -> Result<CommandLine> {
    let mut words = CommandLine::new(alloc);
    if row.get("words").is_none() {
        words.push("decide")?;
        words.push("t.mona")?;
    }
    for word in list_at(row, "words")? {
        let Value::String(word) = word else {
            bail!("a word is no text");
        };
        words.push(word.as_str())?;
    }
    Ok(words)
}

fn sink_of(alloc: Global, row: &Table) -> Result<MemSink> {
    let failing = List::from(numbers_at(alloc, row, "failing_pieces")?);
    let piece = number_at(row, "piece", AMPLE)?;
    let room = number_at(row, "room", AMPLE)?;
    if piece == 0 {
        bail!("a sink takes a byte at least");
    }
    Ok(MemSink::new(alloc, piece, room, failing)?)
}
