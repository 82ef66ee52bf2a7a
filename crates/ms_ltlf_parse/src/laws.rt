ghost use Rattle.std.specs.Prelude.{◌≡◌, List};
ghost use Rattle.ms_ltlf.specs.Tree.{Temporal};
ghost use Rattle.ms_ltlf_parse.specs.Grammar.{Names};
ghost use Rattle.ms_ltlf_parse.specs.Reading.{Reads};
ghost use Rattle.ms_ltlf_parse.specs.Symbol.{Symbol};

/// Symbols read as one formula over one list of names at most.
pub fn one_trace()
    ensures { (all : List Symbol) (names others : Names) (f g : Temporal) → Reads all names f → Reads all others g → (names ≡ others) × (f ≡ g) }
{}
