ghost use Rattle.std.specs.Prelude.{◌≡◌, ◌≤◌};
ghost use Rattle.ms_parse_grammar.specs.Grammar.{depth, depth_of_all, depth_of_domains, depth_of_values};
ghost use Rattle.ms_parse_grammar.specs.Reads.{place};
ghost use Rattle.ms_parse_grammar.specs.View.{expression_of, expressions_of, variables_of, parts_of};

use ms_list::{At, List, Name};
use ms_logic::{Bound, Expr, LetPart, Order, Quant};
use ms_parse_grammar::{Junction, Listing};

/// The greatest depth of an expression.
pub const GREATEST_DEPTH: u32 = 300;

/// An expression, its place and its depth.
#[derive(Drop)]
pub struct Operand {
    pub expr: Expr,
    pub start: At,
    pub height: u32,
    ghost begins: { start ≡ place (expression_of expr) },
    ghost measured: { height ≡ depth (expression_of expr) },
    ghost bounded: { height ≤ 300 },
}

/// Expressions and the greatest of their depths.
#[derive(Drop)]
pub struct Operands {
    pub list: List<Expr>,
    pub height: u32,
    ghost measured: { height ≡ depth_of_all (expressions_of list) },
    ghost bounded: { height ≤ 300 },
}

/// Variables and the greatest depth of their restrictions.
#[derive(Drop)]
pub struct Bounds {
    pub list: List<Bound>,
    pub height: u32,
    ghost measured: { height ≡ depth_of_domains (variables_of list) },
    ghost bounded: { height ≤ 300 },
}

/// Parts of a `let` and the greatest depth of their right sides.
#[derive(Drop)]
pub struct Parts {
    pub list: List<LetPart>,
    pub height: u32,
    ghost measured: { height ≡ depth_of_values (parts_of list) },
    ghost bounded: { height ≤ 300 },
}

/// A name where it stands.
#[derive(Drop)]
pub struct Identifier {
    pub at: At,
    pub name: Name,
}

/// Operands of `&` or `|` so far, each with the operator behind it.
#[derive(Drop)]
pub struct Chain {
    pub at: At,
    pub op: Junction,
    pub operands: Operands,
}

/// A set or a call with its entries so far, each with a comma behind it.
#[derive(Drop)]
pub struct Entries {
    pub at: At,
    pub listing: Listing,
    pub operands: Operands,
}

/// A quantifier with its variables so far.
#[derive(Drop)]
pub struct Binder {
    pub at: At,
    pub quant: Quant,
    pub order: Order,
    pub bounds: Bounds,
}

/// Variables of a quantifier, and one whose restriction follows.
#[derive(Drop)]
pub struct Domain {
    pub binder: Binder,
    pub variable: Identifier,
}

/// A `let` with its parts so far.
#[derive(Drop)]
pub struct Locals {
    pub at: At,
    pub order: Order,
    pub parts: Parts,
}
