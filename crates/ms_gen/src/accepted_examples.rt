//! Worked examples of the definitions. The function has an empty body, and its contract states the examples.

ghost use Rattle.std.specs.Prelude.{ℕ, List, codes};
ghost use Rattle.ms_gen.specs.Accepted.{IsAccepted};
ghost use Rattle.ms_gen.specs.Generated.{generated};

/// The source of one set is accepted, and a text that ends within quotes is not.
pub fn worked_texts()
    // var2 P0; and that P0 is within P0
    ensures one { (name : List ℕ) → IsAccepted name (generated 1) }
    // a quote that is never closed
    ensures unclosed { (name : List ℕ) → ¬ IsAccepted name (codes "\"") }
{}
