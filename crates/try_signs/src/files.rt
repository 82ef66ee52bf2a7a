//! Automaton files: whether a text is that of an automaton, and whether a text is one at all.
use crate::steps::LIMIT;
use anyhow::{Result, bail};
use ms_dfa::{Automaton, FileVar, Plain};
use ms_dfafile::{FileFault, read, write};
use ms_list::{List, Name, NoMemory, StepFault};
use ms_minim_canonical::canonical;
use std::alloc::Global;

/// The content of a text, if it is an automaton file.
fn content(alloc: Global, text: &str) -> Result<Option<Plain>> {
    match read(alloc, text.as_bytes()) {
        Ok(plain) => Ok(Some(plain)),
        Err(FileFault::Text) => Ok(None),
        Err(FileFault::Memory) => bail!("no memory"),
    }
}

/// Whether a text is an automaton file.
pub fn is_file(alloc: Global, text: &str) -> Result<bool> {
    Ok(content(alloc, text)?.is_some())
}

/// The names of variables.
fn names(alloc: Global, variables: &[FileVar]) -> Result<List<Name>, NoMemory> {
    let mut names = List::new(alloc);
    for variable in variables {
        match names.push(Name::new(alloc, variable.name.text())?) {
            Ok(()) => {}
            Err(_) => return Err(NoMemory),
        }
    }
    Ok(names)
}

/// Whether two lists of variables have the same orders and names.
fn are_same_variables(left: &[FileVar], right: &[FileVar]) -> bool {
    if left.len() != right.len() {
        return false;
    }
    for i in 0..left.len() {
        if left[i].order != right[i].order || left[i].name.text() != right[i].name.text() {
            return false;
        }
    }
    true
}

/// Whether two contents are equal.
fn is_same(left: &Plain, right: &Plain) -> bool {
    left.version == right.version
        && left.mode == right.mode
        && are_same_variables(left.variables.slice(), right.variables.slice())
        && left.start == right.start
        && left.states.slice() == right.states.slice()
        && left.nodes.slice() == right.nodes.slice()
}

/// Whether the text of the content that was read of a text is that text.
fn is_written_again(alloc: Global, text: &str) -> Result<bool> {
    match read(alloc, text.as_bytes()) {
        Ok(plain) => match write(alloc, &plain) {
            Ok(bytes) => Ok(bytes.slice() == text.as_bytes()),
            Err(NoMemory) => bail!("no memory"),
        },
        Err(_) => Ok(false),
    }
}

/// Whether the text is the file, in its version, of the canonical content of the automaton, whose variables have the names in the file.
pub fn is_file_of(alloc: Global, made: &Automaton, text: &str) -> Result<bool> {
    let Some(plain) = content(alloc, text)? else {
        return Ok(false);
    };
    let Ok(names) = names(alloc, plain.variables.slice()) else {
        bail!("no memory");
    };
    if names.len() != made.tracks().len() {
        return Ok(false);
    }
    match canonical(alloc, made, &names, plain.version, LIMIT) {
        Ok(content) => Ok(is_same(&plain, &content) && is_written_again(alloc, text)?),
        Err(StepFault::Memory) => bail!("no memory"),
        Err(StepFault::Nodes { limit }) => bail!("more than {limit} nodes and states"),
    }
}
