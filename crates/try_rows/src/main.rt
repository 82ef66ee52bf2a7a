//! Requests to monastr and what must come of them: the rows of the data files that are named on the command line are
//! run, and each that differs is printed.
#![tactic(auto)]

mod files;
mod request;
mod status;
mod wanted;

use crate::request::Request;
use crate::wanted::Wanted;
use anyhow::{Context, Result};
use ms_app::run;
use std::env;
use std::process::ExitCode;
use toml::{Table, Value};
use try_table::{rows_of, table_of};

/// How many rows there are, and how many of them differ.
#[derive(Drop)]
struct Tally {
    rows: u64,
    differ: u64,
}

/// Where a row stands: its file, and its number there, the first being 1.
#[derive(Drop)]
struct Place<'a> {
    file: &'a str,
    row: u64,
}

fn main(rt: HostRuntime) -> Result<ExitCode> {
    let mut tally = Tally { rows: 0, differ: 0 };
    for file in env::args(&rt)?.skip(1) {
        run_file(&rt, file.as_str(), &mut tally)?;
    }
    let Tally { rows, differ } = tally;
    if differ == 0 {
        println!(rt; "{rows} rows agree")?;
        return Ok(ExitCode::SUCCESS);
    }
    println!(rt; "{rows} rows, {differ} differ")?;
    Ok(ExitCode::FAILURE)
}

/// Runs the rows of a file. A file that cannot be read counts as a row that differs.
fn run_file(rt: &HostRuntime, file: &str, tally: &mut Tally) -> Result<()> {
    match read(rt, file) {
        Ok(table) => run_rows(rt, file, &table, tally),
        Err(error) => {
            println!(rt; "{file}: {error:#}")?;
            count(tally, false);
            Ok(())
        }
    }
}

/// The table that a file holds.
fn read(rt: &HostRuntime, file: &str) -> Result<Table> {
    let text = std::fs::read_to_string(rt, file).context("it cannot be read")?;
    table_of(rt.alloc(), text.as_str())
}

fn run_rows(rt: &HostRuntime, file: &str, table: &Table, tally: &mut Tally) -> Result<()> {
    for (i, row) in rows_of(table).iter().enumerate() {
        let place = Place {
            file,
            row: (i as u64).saturating_add(1),
        };
        let agrees = run_row(rt, &place, row)?;
        count(tally, agrees);
    }
    Ok(())
}

fn count(tally: &mut Tally, agrees: bool) {
    tally.rows = tally.rows.saturating_add(1);
    if !agrees {
        tally.differ = tally.differ.saturating_add(1);
    }
}

/// Whether what comes of a row is what it wants. What differs is printed.
fn run_row(rt: &HostRuntime, place: &Place, row: &Value) -> Result<bool> {
    let difference = match row {
        Value::Table(row) => difference(rt, row),
        _ => Err(anyhow::anyhow!("a row is a table")),
    };
    let Place { file, row } = place;
    match difference {
        Ok(None) => Ok(true),
        Ok(Some(text)) => {
            println!(rt; "{file}, row {row}: {text}")?;
            Ok(false)
        }
        Err(error) => {
            println!(rt; "{file}, row {row} cannot be read: {error:#}")?;
            Ok(false)
        }
    }
}

/// What differs between what comes of a row and what it wants.
fn difference(rt: &HostRuntime, row: &Table) -> Result<Option<String>> {
    let mut request = Request::read(rt.alloc(), row)?;
    let wanted = Wanted::read(rt.alloc(), row)?;
    let status = run(
        rt.alloc(),
        &request.words,
        &mut request.files,
        &mut request.sink,
    );
    wanted.difference(rt.alloc(), &request, status)
}
