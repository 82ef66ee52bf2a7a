ghost use Rattle.std.specs.Prelude.{◌≡◌, ◌≢◌, ◌≤◌, List, ℕ, ◌++◌, length, IfSome, IfNone};
ghost use Rattle.ms_text.specs.Spelling.{mark_spelling};
ghost use Rattle.ms_text.specs.declared.mark.Mark.{Mark};

/// A mark.
#[derive(Clone, Copy, PartialEq, Eq)]
pub enum Mark {
    Semicolon,
    Comma,
    Colon,
    OpenParenthesis,
    CloseParenthesis,
    OpenBrace,
    CloseBrace,
    Equal,
    NotEqual,
    Less,
    LessEqual,
    Equivalence,
    Greater,
    GreaterEqual,
    Implication,
    And,
    Or,
    Not,
    Plus,
    Minus,
    Arrow,
    Backslash,
    Dollar,
}

// The longer marks come first.
const MARKS: [Mark; 23] = [
    Mark::Equivalence,
    Mark::NotEqual,
    Mark::LessEqual,
    Mark::GreaterEqual,
    Mark::Implication,
    Mark::Arrow,
    Mark::Semicolon,
    Mark::Comma,
    Mark::Colon,
    Mark::OpenParenthesis,
    Mark::CloseParenthesis,
    Mark::OpenBrace,
    Mark::CloseBrace,
    Mark::Equal,
    Mark::Less,
    Mark::Greater,
    Mark::And,
    Mark::Or,
    Mark::Not,
    Mark::Plus,
    Mark::Minus,
    Mark::Backslash,
    Mark::Dollar,
];

impl Mark {
    /// Its bytes in a source.
    pub fn spelling(self) -> &'static str
        ensures { result.now ≡ mark_spelling self }
    {
        match self {
            Mark::Semicolon => ";",
            Mark::Comma => ",",
            Mark::Colon => ":",
            Mark::OpenParenthesis => "(",
            Mark::CloseParenthesis => ")",
            Mark::OpenBrace => "{",
            Mark::CloseBrace => "}",
            Mark::Equal => "=",
            Mark::NotEqual => "~=",
            Mark::Less => "<",
            Mark::LessEqual => "<=",
            Mark::Equivalence => "<=>",
            Mark::Greater => ">",
            Mark::GreaterEqual => ">=",
            Mark::Implication => "=>",
            Mark::And => "&",
            Mark::Or => "|",
            Mark::Not => "~",
            Mark::Plus => "+",
            Mark::Minus => "-",
            Mark::Arrow => "->",
            Mark::Backslash => "\\",
            Mark::Dollar => "$",
        }
    }
}

/// The longest mark at the front.
pub fn mark_at(rest: &[u8]) -> Option<Mark>
    ensures mark { IfSome result (λ mark. (behind : List ℕ) × (rest.now ≡ mark_spelling mark ++ behind)) }
    ensures longest { IfSome result (λ mark. (other : Mark) (behind : List ℕ) →
        rest.now ≡ mark_spelling other ++ behind → length (mark_spelling other) ≤ length (mark_spelling mark)) }
    ensures no_mark { IfNone result ((mark : Mark) (behind : List ℕ) → rest.now ≢ mark_spelling mark ++ behind) }
{
    for mark in MARKS {
        if rest.starts_with(mark.spelling().as_bytes()) {
            return Some(mark);
        }
    }
    None
}
