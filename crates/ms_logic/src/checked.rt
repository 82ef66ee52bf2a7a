use crate::formula::Formula;
use crate::mode::{Mode, Order};
use ms_list::{At, List, Name, Text};

/// A parameter with its restriction.
#[derive(Drop)]
pub struct Param {
    pub order: Order,
    pub variable: u32,
    pub domain: Option<Formula>,
}

/// A predicate, a macro or a default restriction. Its body calls those with smaller numbers alone.
#[derive(Drop)]
pub struct Predicate {
    pub params: List<Param>,
    pub body: Formula,
}

/// A global with its restriction, its own or the default. Its number as a variable is its place among
/// the globals.
#[derive(Drop)]
pub struct Global {
    pub at: At,
    /// The number of its declaration.
    pub item: u32,
    pub order: Order,
    pub name: Name,
    pub domain: Option<Formula>,
}

/// A variable of an automaton file, by its name, and the variable that it stands for.
#[derive(Drop)]
pub struct MapPair {
    pub name: Name,
    pub variable: u32,
    pub order: Order,
}

/// One `import` of the source.
#[derive(Drop)]
pub struct ImportUse {
    pub at: At,
    pub name: Text,
    pub pairs: List<MapPair>,
}

/// One `export` of the source, with the free variables of its formula and their names.
#[derive(Drop)]
pub struct ExportUse {
    pub at: At,
    pub name: Text,
    pub variables: List<u32>,
    pub names: List<Name>,
}

/// A formula of the source: that of a formula declaration, or that of a goal under its title.
#[derive(Drop)]
pub struct Placed {
    pub at: At,
    /// The number of its declaration.
    pub item: u32,
    /// The title of a goal.
    pub title: Option<Text>,
    pub formula: Formula,
}

/// A source whose names and orders are checked.
#[derive(Drop)]
pub struct Checked {
    pub mode: Mode,
    pub globals: List<Global>,
    pub predicates: List<Predicate>,
    pub imports: List<ImportUse>,
    pub exports: List<ExportUse>,
    /// The formulas of the formula declarations and of the goals, in the order of the source.
    pub formulas: List<Placed>,
    pub files: List<Text>,
}
