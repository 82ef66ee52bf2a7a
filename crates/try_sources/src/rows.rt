//! Rows of a data file: a source, and the answer that is right.
use anyhow::{Context, Result, bail};
use ms_list::Bytes;
use std::alloc::Global;
use std::io;
use toml::{Table, Value};
use try_table::{allow_keys, bytes_of, rows_of, table_of, text_of};

/// How a source is answered.
#[derive(Clone, Copy)]
pub enum Question {
    Tokens,
    Parse,
    Print,
}

/// Runs the rows of a file and prints how many agree, and each that differs.
pub fn run_rows(rt: &HostRuntime, file: &str, question: Question) -> Result<()> {
    let table = table_in(rt, file)?;
    let agree = agreeing(rt, rows_of(&table), question);
    print_agreeing(rt, file, agree)
}

fn table_in(rt: &HostRuntime, file: &str) -> Result<Table> {
    let text = std::fs::read_to_string(rt, file).context("a data file cannot be read")?;
    table_of(rt.alloc(), text.as_str())
}

fn print_agreeing(rt: &HostRuntime, file: &str, agree: Result<u64>) -> Result<()> {
    println!(rt; "{file}: {} rows agree", agree?)?;
    Ok(())
}

/// How many rows agree.
fn agreeing(rt: &HostRuntime, rows: &[Value], question: Question) -> Result<u64> {
    let mut agree = 0u64;
    for (i, row) in rows.iter().enumerate() {
        if run_row(rt, row, question, i)? {
            agree = agree.saturating_add(1);
        }
    }
    Ok(agree)
}

/// Whether the answer to a row is the right one. If not, it is printed.
fn run_row(rt: &HostRuntime, row: &Value, question: Question, i: usize) -> Result<bool> {
    let Value::Table(row) = row else {
        bail!("a row is a table");
    };
    allow_keys(row, &["source", "answer"])?;
    let right = text_of(row, "answer")?;
    let came = answer(rt.alloc(), source_of(rt.alloc(), row)?, question)?;
    if came.as_str() == right {
        return Ok(true);
    }
    print_other(rt, i, came.as_str(), right)?;
    Ok(false)
}

fn print_other(rt: &HostRuntime, i: usize, came: &str, right: &str) -> io::Result<()> {
    println!(rt; "row {i}, counted from 0: {came:?} and not {right:?}")
}

fn source_of(alloc: Global, row: &Table) -> Result<Vec<u8>> {
    match row.get("source") {
        Some(value) => bytes_of(alloc, value),
        None => bail!("there is no source"),
    }
}

fn answer(alloc: Global, source: Vec<u8>, question: Question) -> Result<String> {
    let bytes = Bytes::from(source);
    match question {
        Question::Tokens => crate::tokens::answer(alloc, bytes),
        Question::Parse => crate::parses::answer(alloc, bytes),
        Question::Print => crate::prints::answer(alloc, bytes),
    }
}
