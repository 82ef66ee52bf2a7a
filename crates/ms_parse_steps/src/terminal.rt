ghost use Rattle.std.specs.Prelude.{◌≡◌, ℕ, List};
ghost use Rattle.ms_parse_steps.specs.inner.Terminals.{symbol_with, content};
ghost use Rattle.ms_parse_grammar.specs.Symbol.{symbol_of, word_symbol, mark_symbol};

use ms_logic::{Order, Quant, Rel};
use ms_parse_grammar::{Binary, Junction, Prefix};
use ms_text::{Keyword, Kind, Mark};

/// A symbol of the grammar without the bytes of its name or text.
#[derive(Clone, Copy)]
pub enum Terminal {
    Name,
    Number(u64),
    Text,
    LeftOut,
    Prefix(Prefix),
    Infix(Binary),
    Joining(Junction),
    /// `+`, or `-` where it is true
    Shift(bool),
    Quantifier(Quant, Order),
    Let(Order),
    /// `var0`, `var1`, `var2`
    Variables(Order),
    /// `pred`, or `macro` where it is false
    Predicate(bool),
    Default(Order),
    True,
    False,
    Dollar,
    Empty,
    Pconst,
    Import,
    Export,
    Restrict,
    Where,
    Const,
    Include,
    Ws1s,
    OpenRound,
    CloseRound,
    OpenCurly,
    CloseCurly,
    Comma,
    Colon,
    Semicolon,
    Arrow,
}

pub fn terminal_of_word(word: Keyword) -> Terminal
    ensures { (bytes : List ℕ) → word_symbol word ≡ symbol_with result bytes }
{
    match word {
        Keyword::Ws1s => Terminal::Ws1s,
        Keyword::Var0 => Terminal::Variables(Order::Zero),
        Keyword::Var1 => Terminal::Variables(Order::One),
        Keyword::Var2 => Terminal::Variables(Order::Two),
        Keyword::Const => Terminal::Const,
        Keyword::Pred => Terminal::Predicate(true),
        Keyword::Macro => Terminal::Predicate(false),
        Keyword::Include => Terminal::Include,
        Keyword::DefaultWhere1 => Terminal::Default(Order::One),
        Keyword::DefaultWhere2 => Terminal::Default(Order::Two),
        Keyword::Where => Terminal::Where,
        Keyword::True => Terminal::True,
        Keyword::False => Terminal::False,
        Keyword::Ex0 => Terminal::Quantifier(Quant::Ex, Order::Zero),
        Keyword::Ex1 => Terminal::Quantifier(Quant::Ex, Order::One),
        Keyword::Ex2 => Terminal::Quantifier(Quant::Ex, Order::Two),
        Keyword::All0 => Terminal::Quantifier(Quant::All, Order::Zero),
        Keyword::All1 => Terminal::Quantifier(Quant::All, Order::One),
        Keyword::All2 => Terminal::Quantifier(Quant::All, Order::Two),
        Keyword::Let0 => Terminal::Let(Order::Zero),
        Keyword::Let1 => Terminal::Let(Order::One),
        Keyword::Let2 => Terminal::Let(Order::Two),
        Keyword::In => Terminal::Infix(Binary::Relation(Rel::Member)),
        Keyword::NotIn => Terminal::Infix(Binary::Relation(Rel::NotMember)),
        Keyword::Sub => Terminal::Infix(Binary::Relation(Rel::Sub)),
        Keyword::Empty => Terminal::Empty,
        Keyword::Min => Terminal::Prefix(Prefix::Minimum),
        Keyword::Max => Terminal::Prefix(Prefix::Maximum),
        Keyword::Union => Terminal::Infix(Binary::Union),
        Keyword::Inter => Terminal::Infix(Binary::Intersection),
        Keyword::Restrict => Terminal::Restrict,
        Keyword::Import => Terminal::Import,
        Keyword::Export => Terminal::Export,
        Keyword::PConst => Terminal::Pconst,
    }
}

pub fn terminal_of_mark(mark: Mark) -> Terminal
    ensures { (bytes : List ℕ) → mark_symbol mark ≡ symbol_with result bytes }
{
    match mark {
        Mark::Semicolon => Terminal::Semicolon,
        Mark::Comma => Terminal::Comma,
        Mark::Colon => Terminal::Colon,
        Mark::OpenParenthesis => Terminal::OpenRound,
        Mark::CloseParenthesis => Terminal::CloseRound,
        Mark::OpenBrace => Terminal::OpenCurly,
        Mark::CloseBrace => Terminal::CloseCurly,
        Mark::Equal => Terminal::Infix(Binary::Relation(Rel::Equal)),
        Mark::NotEqual => Terminal::Infix(Binary::Relation(Rel::Differs)),
        Mark::Less => Terminal::Infix(Binary::Relation(Rel::Less)),
        Mark::LessEqual => Terminal::Infix(Binary::Relation(Rel::AtMost)),
        Mark::Equivalence => Terminal::Infix(Binary::Equivalence),
        Mark::Greater => Terminal::Infix(Binary::Relation(Rel::Greater)),
        Mark::GreaterEqual => Terminal::Infix(Binary::Relation(Rel::AtLeast)),
        Mark::Implication => Terminal::Infix(Binary::Implication),
        Mark::And => Terminal::Joining(Junction::Conjunction),
        Mark::Or => Terminal::Joining(Junction::Disjunction),
        Mark::Not => Terminal::Prefix(Prefix::Negation),
        Mark::Plus => Terminal::Shift(false),
        Mark::Minus => Terminal::Shift(true),
        Mark::Arrow => Terminal::Arrow,
        Mark::Backslash => Terminal::Infix(Binary::Difference),
        Mark::Dollar => Terminal::Dollar,
    }
}

/// The terminal of a token of a kind.
pub fn terminal_of(kind: Kind) -> Terminal
    ensures { (slice : List ℕ) → symbol_of kind slice ≡ symbol_with result (content kind slice) }
{
    match kind {
        Kind::Name => Terminal::Name,
        Kind::Word(word) => terminal_of_word(word),
        Kind::LeftOut => Terminal::LeftOut,
        Kind::Number(number) => Terminal::Number(number),
        Kind::Text => Terminal::Text,
        Kind::Mark(mark) => terminal_of_mark(mark),
    }
}
