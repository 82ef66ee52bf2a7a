ghost use Rattle.std.specs.Prelude.{ℕ, true};
ghost use Rattle.ms_parse_grammar.specs.Declarations.{Fits, ReadsAs};
ghost use Rattle.ms_logic.specs.declared.source.Source.{Source};
ghost use Rattle.ms_text.specs.TokenList.{IsTokenList, Lexed};

/// A source that tokens read as fits, so it can be printed.
pub fn read_sources_fit()
    ensures { (file : ℕ) (lexed : Lexed) (source : Source) →
        IsTokenList 0 lexed.bytes lexed.tokens → ReadsAs true file lexed source → Fits source }
{}
