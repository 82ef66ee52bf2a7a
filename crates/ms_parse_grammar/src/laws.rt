ghost use Rattle.std.specs.Prelude.{◌≤◌, Bool, List, length};
ghost use Rattle.ms_parse_grammar.specs.Declarations.{Reads};
ghost use Rattle.ms_parse_grammar.specs.Size.{size_of_declarations};
ghost use Rattle.ms_parse_grammar.specs.Symbol.{Placed};
ghost use Rattle.ms_parse_grammar.specs.Tree.{Document};

/// A document has no more parts than symbols.

pub fn no_more_parts_than_symbols()
    ensures { (exact : Bool) (all : List Placed) (d : Document) → Reads exact all d → size_of_declarations d.declarations ≤ length all }
{}
