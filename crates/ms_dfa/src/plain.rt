ghost use Rattle.std.specs.Prelude.{◌≡◌, IfOk};

use ms_arena::{Node, Ref};
use ms_list::{List, Name, NoMemory};
use ms_logic::{Mode, Order};
use std::alloc::Global;

/// The version of an automaton file.
#[derive(Clone, Copy, PartialEq, Eq)]
pub enum FileVersion {
    /// A word that encodes no assignment has the sign `0`, as one at which the formula is undefined.
    One,
    /// A word that encodes no assignment has a sign of its own, `x`.
    Two,
}

/// The sign of a state in an automaton file: `+`, `-`, `0` or, in version 2, `x`.
#[derive(Clone, Copy, PartialEq, Eq)]
pub enum FileSign {
    Plus,
    Minus,
    Zero,
    Outside,
}

/// A variable of an automaton file.
#[derive(Drop)]
pub struct FileVar {
    pub order: Order,
    pub name: Name,
}

/// A state of an automaton file.
#[derive(Clone, Copy, PartialEq, Eq)]
pub struct FileState {
    pub sign: FileSign,
    pub next: Ref,
}

/// The content of an automaton file.
#[derive(Drop)]
pub struct Plain {
    pub version: FileVersion,
    pub mode: Mode,
    pub variables: List<FileVar>,
    pub start: Ref,
    pub states: List<FileState>,
    pub nodes: List<Node>,
}

impl FileVar {
    /// An equal variable.
    pub fn copy(&self, alloc: Global) -> Result<FileVar, NoMemory>
        ensures { IfOk result (λ made. made ≡ self.now) }
    {
        Ok(FileVar {
            order: self.order,
            name: Name::new(alloc, self.name.text())?,
        })
    }
}

impl Plain {
    /// An equal content.
    pub fn copy(&self, alloc: Global) -> Result<Plain, NoMemory>
        ensures { IfOk result (λ made. made ≡ self.now) }
    {
        Ok(Plain {
            version: self.version,
            mode: self.mode,
            variables: copy_variables(alloc, self.variables.slice())?,
            start: self.start,
            states: copy_states(alloc, self.states.slice())?,
            nodes: copy_nodes(alloc, self.nodes.slice())?,
        })
    }
}

fn copy_variables(alloc: Global, variables: &[FileVar]) -> Result<List<FileVar>, NoMemory>
    ensures { IfOk result (λ made. made ≡ variables.now) }
{
    let mut made = List::new(alloc);
    for variable in variables {
        if made.push(variable.copy(alloc)?).is_err() {
            return Err(NoMemory);
        }
    }
    Ok(made)
}

fn copy_states(alloc: Global, states: &[FileState]) -> Result<List<FileState>, NoMemory>
    ensures { IfOk result (λ made. made ≡ states.now) }
{
    match Vec::from_slice(alloc, states) {
        Ok(made) => Ok(List::from(made)),
        Err(_) => Err(NoMemory),
    }
}

fn copy_nodes(alloc: Global, nodes: &[Node]) -> Result<List<Node>, NoMemory>
    ensures { IfOk result (λ made. made ≡ nodes.now) }
{
    match Vec::from_slice(alloc, nodes) {
        Ok(made) => Ok(List::from(made)),
        Err(_) => Err(NoMemory),
    }
}
