ghost use Rattle.std.specs.Prelude.{◌≡◌, ◌≢◌, ◌↔◌, IfSome, IfNone, IsTrue};
ghost use Rattle.ms_text.specs.Spelling.{word_spelling, left_out_spelling, IsLeftOut};
ghost use Rattle.ms_text.specs.declared.keyword.Keyword.{Keyword};

/// A word of the language.
#[derive(Clone, Copy, PartialEq, Eq)]
pub enum Keyword {
    Ws1s,
    Var0,
    Var1,
    Var2,
    Const,
    Pred,
    Macro,
    Include,
    DefaultWhere1,
    DefaultWhere2,
    Where,
    True,
    False,
    Ex0,
    Ex1,
    Ex2,
    All0,
    All1,
    All2,
    Let0,
    Let1,
    Let2,
    In,
    NotIn,
    Sub,
    Empty,
    Min,
    Max,
    Union,
    Inter,
    Restrict,
    Import,
    Export,
    PConst,
}

/// A word of MONA that this language leaves out.
#[derive(Clone, Copy, PartialEq, Eq)]
pub enum LeftOutWord {
    Ws2s,
    Tree,
    Guide,
    Universe,
    Type,
    Assert,
    Verify,
    Execute,
    Prefix,
    AllPos,
    LastPos,
}

const WORDS: [Keyword; 34] = [
    Keyword::Ws1s,
    Keyword::Var0,
    Keyword::Var1,
    Keyword::Var2,
    Keyword::Const,
    Keyword::Pred,
    Keyword::Macro,
    Keyword::Include,
    Keyword::DefaultWhere1,
    Keyword::DefaultWhere2,
    Keyword::Where,
    Keyword::True,
    Keyword::False,
    Keyword::Ex0,
    Keyword::Ex1,
    Keyword::Ex2,
    Keyword::All0,
    Keyword::All1,
    Keyword::All2,
    Keyword::Let0,
    Keyword::Let1,
    Keyword::Let2,
    Keyword::In,
    Keyword::NotIn,
    Keyword::Sub,
    Keyword::Empty,
    Keyword::Min,
    Keyword::Max,
    Keyword::Union,
    Keyword::Inter,
    Keyword::Restrict,
    Keyword::Import,
    Keyword::Export,
    Keyword::PConst,
];

impl Keyword {
    /// Its bytes in a source.
    pub fn spelling(self) -> &'static str
        ensures { result.now ≡ word_spelling self }
    {
        match self {
            Keyword::Ws1s => "ws1s",
            Keyword::Var0 => "var0",
            Keyword::Var1 => "var1",
            Keyword::Var2 => "var2",
            Keyword::Const => "const",
            Keyword::Pred => "pred",
            Keyword::Macro => "macro",
            Keyword::Include => "include",
            Keyword::DefaultWhere1 => "defaultwhere1",
            Keyword::DefaultWhere2 => "defaultwhere2",
            Keyword::Where => "where",
            Keyword::True => "true",
            Keyword::False => "false",
            Keyword::Ex0 => "ex0",
            Keyword::Ex1 => "ex1",
            Keyword::Ex2 => "ex2",
            Keyword::All0 => "all0",
            Keyword::All1 => "all1",
            Keyword::All2 => "all2",
            Keyword::Let0 => "let0",
            Keyword::Let1 => "let1",
            Keyword::Let2 => "let2",
            Keyword::In => "in",
            Keyword::NotIn => "notin",
            Keyword::Sub => "sub",
            Keyword::Empty => "empty",
            Keyword::Min => "min",
            Keyword::Max => "max",
            Keyword::Union => "union",
            Keyword::Inter => "inter",
            Keyword::Restrict => "restrict",
            Keyword::Import => "import",
            Keyword::Export => "export",
            Keyword::PConst => "pconst",
        }
    }
}

const LEFT_OUT_WORDS: [LeftOutWord; 11] = [
    LeftOutWord::Ws2s,
    LeftOutWord::Tree,
    LeftOutWord::Guide,
    LeftOutWord::Universe,
    LeftOutWord::Type,
    LeftOutWord::Assert,
    LeftOutWord::Verify,
    LeftOutWord::Execute,
    LeftOutWord::Prefix,
    LeftOutWord::AllPos,
    LeftOutWord::LastPos,
];

impl LeftOutWord {
    fn spelling(self) -> &'static str
        ensures { result.now ≡ left_out_spelling self }
    {
        match self {
            LeftOutWord::Ws2s => "ws2s",
            LeftOutWord::Tree => "tree",
            LeftOutWord::Guide => "guide",
            LeftOutWord::Universe => "universe",
            LeftOutWord::Type => "type",
            LeftOutWord::Assert => "assert",
            LeftOutWord::Verify => "verify",
            LeftOutWord::Execute => "execute",
            LeftOutWord::Prefix => "prefix",
            LeftOutWord::AllPos => "allpos",
            LeftOutWord::LastPos => "lastpos",
        }
    }
}

/// The word that these bytes spell.
pub fn word_of(slice: &[u8]) -> Option<Keyword>
    ensures word { IfSome result (λ word. slice.now ≡ word_spelling word) }
    ensures no_word { IfNone result ((word : Keyword) → slice.now ≢ word_spelling word) }
{
    for word in WORDS {
        if slice == word.spelling().as_bytes() {
            return Some(word);
        }
    }
    None
}

/// Whether these bytes spell a word of MONA that this language leaves out.
pub fn is_left_out(slice: &[u8]) -> bool
    ensures { IsTrue result ↔ IsLeftOut slice.now }
{
    for word in LEFT_OUT_WORDS {
        if slice == word.spelling().as_bytes() {
            return true;
        }
    }
    false
}
