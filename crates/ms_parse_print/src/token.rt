//! Tokens behind a text, each with a blank or a line feed behind it.

ghost use Rattle.std.specs.Prelude.{◌≡◌, ◌++◌, ◌∷◌, [], OnOk, string_bytes};
ghost use Rattle.ms_parse_grammar.specs.Reads.{int_symbol};
ghost use Rattle.ms_parse_grammar.specs.Symbol as symbol;
ghost use Rattle.ms_parse_grammar.specs.declared.operator.Binary.TheVariants as binary;
ghost use Rattle.ms_parse_print.specs.inner.Printed.{blank_behind, spelled, unsigned};

use ms_list::{Name, Text};
use ms_logic::{Int, Order, PlacedInt, Quant, Rel};
use ms_parse_grammar::{Binary, Prefix};
use ms_text::{Keyword, Mark};
use std::alloc::AllocError;

#[tactic(auto, using(crate::proofs::Spellings::spelled_word))]
pub fn push_word(text: &mut String, word: Keyword) -> Result<(), AllocError>
    ensures { OnOk result (string_bytes text.new ≡ string_bytes text.old ++ spelled (symbol.word_symbol word)) }
{
    text.push_str(word.spelling())?;
    text.push_str(" ")
}

fn blank_behind(mark: Mark) -> &'static str
    ensures { result.now ≡ blank_behind (symbol.mark_symbol mark) ∷ [] }
{
    match mark {
        Mark::Semicolon => "\n",
        _ => " ",
    }
}

#[tactic(auto, using(crate::proofs::Spellings::spelled_mark))]
pub fn push_mark(text: &mut String, mark: Mark) -> Result<(), AllocError>
    ensures { OnOk result (string_bytes text.new ≡ string_bytes text.old ++ spelled (symbol.mark_symbol mark)) }
{
    text.push_str(mark.spelling())?;
    text.push_str(blank_behind(mark))
}

pub fn push_name(text: &mut String, called: &Name) -> Result<(), AllocError>
    ensures { OnOk result (string_bytes text.new ≡ string_bytes text.old ++ spelled (symbol.name called.now)) }
{
    text.push_str(called.text())?;
    text.push_str(" ")
}

pub fn push_number(text: &mut String, value: u64) -> Result<(), AllocError>
    ensures { OnOk result (string_bytes text.new ≡ string_bytes text.old ++ spelled (symbol.number value)) }
{
    write!(text, "{value} ")
}

/// A text between quotes.
pub fn push_quoted(text: &mut String, content: &Text) -> Result<(), AllocError>
    ensures { OnOk result (string_bytes text.new ≡ string_bytes text.old ++ spelled (symbol.text content.now)) }
{
    text.push_str("\"")?;
    text.push_str(content.text())?;
    text.push_str("\" ")
}

pub fn push_int(text: &mut String, value: &Int) -> Result<(), AllocError>
    ensures { OnOk result (string_bytes text.new ≡ string_bytes text.old ++ spelled (int_symbol value.now)) }
{
    match value {
        Int::Number(value) => push_number(text, *value),
        Int::Constant(called) => push_name(text, called),
    }
}

/// A number or a constant where no sign can stand; nothing that reads where it has one.
pub fn push_unsigned(text: &mut String, n: &PlacedInt) -> Result<(), AllocError>
    ensures { OnOk result (string_bytes text.new ≡ string_bytes text.old ++ spelled (unsigned n.now)) }
{
    if n.minus {
        text.push_str(" ")
    } else {
        push_int(text, &n.value)
    }
}

/// `+` or `-`, and the number or the constant.
pub fn push_shift(text: &mut String, n: &PlacedInt) -> Result<(), AllocError>
    ensures { OnOk result (string_bytes text.new ≡ string_bytes text.old ++ (spelled (symbol.sign n.now.minus) ++ spelled (int_symbol n.now.value))) }
{
    push_mark(text, sign(n.minus))?;
    push_int(text, &n.value)
}

fn sign(minus: bool) -> Mark
    ensures { symbol.mark_symbol result ≡ symbol.sign minus }
{
    if minus { Mark::Minus } else { Mark::Plus }
}

pub fn push_relation(text: &mut String, rel: Rel) -> Result<(), AllocError>
    ensures { OnOk result (string_bytes text.new ≡ string_bytes text.old ++ spelled (symbol.infix_operator (binary.Relation rel))) }
{
    match rel {
        Rel::Equal => push_mark(text, Mark::Equal),
        Rel::Differs => push_mark(text, Mark::NotEqual),
        Rel::Less => push_mark(text, Mark::Less),
        Rel::AtMost => push_mark(text, Mark::LessEqual),
        Rel::Greater => push_mark(text, Mark::Greater),
        Rel::AtLeast => push_mark(text, Mark::GreaterEqual),
        Rel::Member => push_word(text, Keyword::In),
        Rel::NotMember => push_word(text, Keyword::NotIn),
        Rel::Sub => push_word(text, Keyword::Sub),
    }
}

/// An operator between two operands.
pub fn push_infix(text: &mut String, op: Binary) -> Result<(), AllocError>
    ensures { OnOk result (string_bytes text.new ≡ string_bytes text.old ++ spelled (symbol.infix_operator op)) }
{
    match op {
        Binary::Implication => push_mark(text, Mark::Implication),
        Binary::Equivalence => push_mark(text, Mark::Equivalence),
        Binary::Relation(rel) => push_relation(text, rel),
        Binary::Union => push_word(text, Keyword::Union),
        Binary::Intersection => push_word(text, Keyword::Inter),
        Binary::Difference => push_mark(text, Mark::Backslash),
    }
}

/// An operator before its operand.
pub fn push_prefix(text: &mut String, op: Prefix) -> Result<(), AllocError>
    ensures { OnOk result (string_bytes text.new ≡ string_bytes text.old ++ spelled (symbol.prefix_operator op)) }
{
    match op {
        Prefix::Negation => push_mark(text, Mark::Not),
        Prefix::Minimum => push_word(text, Keyword::Min),
        Prefix::Maximum => push_word(text, Keyword::Max),
    }
}

// The word of a binder.
fn quantifier_word(quant: Quant, order: Order) -> Keyword
    ensures { symbol.word_symbol result ≡ symbol.quantifier quant order }
{
    match (quant, order) {
        (Quant::Ex, Order::Zero) => Keyword::Ex0,
        (Quant::Ex, Order::One) => Keyword::Ex1,
        (Quant::Ex, Order::Two) => Keyword::Ex2,
        (Quant::All, Order::Zero) => Keyword::All0,
        (Quant::All, Order::One) => Keyword::All1,
        (Quant::All, Order::Two) => Keyword::All2,
    }
}

fn let_word(order: Order) -> Keyword
    ensures { symbol.word_symbol result ≡ symbol.let_word order }
{
    match order {
        Order::Zero => Keyword::Let0,
        Order::One => Keyword::Let1,
        Order::Two => Keyword::Let2,
    }
}

/// The word that declares variables of an order.
fn kind_word(order: Order) -> Keyword
    ensures { symbol.word_symbol result ≡ symbol.kind order }
{
    match order {
        Order::Zero => Keyword::Var0,
        Order::One => Keyword::Var1,
        Order::Two => Keyword::Var2,
    }
}

pub fn push_quantifier(text: &mut String, quant: Quant, order: Order) -> Result<(), AllocError>
    ensures { OnOk result (string_bytes text.new ≡ string_bytes text.old ++ spelled (symbol.quantifier quant order)) }
{
    push_word(text, quantifier_word(quant, order))
}

/// `let0`, `let1` or `let2`.
pub fn push_let(text: &mut String, order: Order) -> Result<(), AllocError>
    ensures { OnOk result (string_bytes text.new ≡ string_bytes text.old ++ spelled (symbol.let_word order)) }
{
    push_word(text, let_word(order))
}

/// `var0`, `var1` or `var2`.
pub fn push_kind(text: &mut String, order: Order) -> Result<(), AllocError>
    ensures { OnOk result (string_bytes text.new ≡ string_bytes text.old ++ spelled (symbol.kind order)) }
{
    push_word(text, kind_word(order))
}

/// A word and the bracket that opens behind it.
pub fn push_opening(text: &mut String, word: Keyword) -> Result<(), AllocError>
    ensures { OnOk result (string_bytes text.new ≡ string_bytes text.old ++ (spelled (symbol.word_symbol word) ++ spelled symbol.open_round)) }
{
    push_word(text, word)?;
    push_mark(text, Mark::OpenParenthesis)
}
