//! Worked examples of the definitions. The function has an empty body, and its contract states the examples.

ghost use Rattle.ms_names_checked.specs.Spellings.{DeclaresNames};
ghost use Rattle.ms_include_laws.specs.inner.spellings.Examples.{declares, goal_imports, imports};
ghost use Rattle.std.specs.Prelude.{codes};

/// Declarations.
pub fn worked_declarations()
    // var2 X;
    ensures name { DeclaresNames (declares (codes "X")) }

    // var2 where; and var2 with no name
    ensures word { ¬ DeclaresNames (declares (codes "where")) }
    ensures nothing { ¬ DeclaresNames (declares (codes "")) }

    // import("a", X -> X); and import("a", where -> X);
    ensures import { DeclaresNames (imports (codes "X")) }
    ensures import_of_word { ¬ DeclaresNames (imports (codes "where")) }

    // goal "where" import("a", X -> X); and goal "where" import("a", where -> X);
    ensures goal { DeclaresNames (goal_imports (codes "X")) }
    ensures goal_of_word { ¬ DeclaresNames (goal_imports (codes "where")) }
{}
