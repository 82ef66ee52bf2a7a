ghost use Rattle.std.specs.Prelude.{◌≡◌, List};
ghost use Rattle.ms_presburger.specs.Tree.{Arithmetic};
ghost use Rattle.ms_presburger_parse.specs.Reading.{Reads};
ghost use Rattle.ms_presburger_parse.specs.Symbol.{Symbol};

/// Symbols read as one formula at most.
pub fn one_problem()
    ensures { (all : List Symbol) (f g : Arithmetic) → Reads all f → Reads all g → f ≡ g }
{}
