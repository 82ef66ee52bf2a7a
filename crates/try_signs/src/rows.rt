//! The rows of the data: steps, and the signs or the automaton file that are right; or texts that are no automaton file.
use crate::files::{is_file, is_file_of};
use crate::steps::take_step;
use crate::words::signs;
use anyhow::{Context, Result, bail};
use ms_dfa::Automaton;
use ms_logic::Mode;
use std::alloc::Global;
use toml::{Table, Value};
use try_table::{allow_keys, list_at, number_at, rows_of, table_of, text_of};

/// Prints each row that differs, and how many agree.
pub fn tell(rt: &HostRuntime) -> Result<()> {
    tell_of(rt, "signs.toml")?;
    tell_of(rt, "files.toml")
}

/// The same of the rows of a file of data.
fn tell_of(rt: &HostRuntime, name: &str) -> Result<()> {
    let text = std::fs::read_to_string(rt, name).context("the data cannot be read")?;
    let table = table_of(rt.alloc(), text.as_str())?;
    let mut agree = 0u64;
    for (i, row) in rows_of(&table).iter().enumerate() {
        if run_row(rt, row, i)? {
            agree = agree.saturating_add(1);
        }
    }
    println!(rt; "{name}: {agree} rows agree")?;
    Ok(())
}

/// Whether a row is right. If not, it is printed.
fn run_row(rt: &HostRuntime, row: &Value, i: usize) -> Result<bool> {
    let Value::Table(row) = row else {
        bail!("a row is a table");
    };
    if row.contains_key("signs") {
        return run_signs(rt, row, i);
    }
    if row.contains_key("file") {
        return run_file(rt, row, i);
    }
    run_text(rt, row, i)
}

/// Whether the automaton of a row has the file that the row tells.
fn run_file(rt: &HostRuntime, row: &Table, i: usize) -> Result<bool> {
    allow_keys(row, &["mode", "steps", "file"])?;
    let made = automaton(rt.alloc(), row)?;
    let right = is_file_of(rt.alloc(), &made, text_of(row, "file")?)?;
    if !right {
        println!(rt; "row {i}, counted from 0: another file")?;
    }
    Ok(right)
}

/// Whether the text of a row is no automaton file.
fn run_text(rt: &HostRuntime, row: &Table, i: usize) -> Result<bool> {
    allow_keys(row, &["none"])?;
    let taken = is_file(rt.alloc(), text_of(row, "none")?)?;
    if taken {
        println!(rt; "row {i}, counted from 0: it is an automaton file")?;
    }
    Ok(!taken)
}

/// Whether the signs of a row are right. If not, those that came are printed.
fn run_signs(rt: &HostRuntime, row: &Table, i: usize) -> Result<bool> {
    allow_keys(row, &["mode", "steps", "longest", "signs"])?;
    let right = text_of(row, "signs")?;
    let made = automaton(rt.alloc(), row)?;
    let came = signs(rt.alloc(), &made, number_at(row, "longest", 4)?)?;
    if came.as_str() == right {
        return Ok(true);
    }
    println!(rt;
        "row {i}, counted from 0: {} and not {right}",
        came.as_str()
    )?;
    Ok(false)
}

/// The automaton that the steps of a row leave.
fn automaton(alloc: Global, row: &Table) -> Result<Automaton> {
    let mode = mode_of(text_of(row, "mode")?)?;
    let mut stack = Vec::new(alloc);
    for step in list_at(row, "steps")? {
        let Value::String(step) = step else {
            bail!("a step is a text");
        };
        take_step(alloc, &mut stack, step.as_str(), mode)?;
    }
    match stack.pop() {
        Some(made) => Ok(made),
        None => bail!("there are no steps"),
    }
}

fn mode_of(word: &str) -> Result<Mode> {
    match word {
        "ws1s" => Ok(Mode::Ws1s),
        "m2l-str" => Ok(Mode::M2lStr),
        _ => bail!("{word} is no mode"),
    }
}
