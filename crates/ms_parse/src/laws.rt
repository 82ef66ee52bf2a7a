ghost use Rattle.std.specs.Prelude.{◌≡◌, List, true};
ghost use Rattle.ms_parse_grammar.specs.Declarations.{Reads};
ghost use Rattle.ms_parse_grammar.specs.Symbol.{Placed};
ghost use Rattle.ms_parse_grammar.specs.Tree.{Document};

/// Symbols read as one document at most.
pub fn one_document()
    ensures { (all : List Placed) (one two : Document) → Reads true all one → Reads true all two → one ≡ two }
{}
