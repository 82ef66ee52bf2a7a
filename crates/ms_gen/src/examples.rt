ghost use Rattle.std.specs.Prelude.{◌≡◌, ◌≤◌, ◌∷◌, ◌++◌, ℕ, [], codes, length};
ghost use Rattle.ms_gen.specs.Generated.{IsNumber, generated};

/// The source of one set, that of three, and numbers that are none of a source.
pub fn worked_sources()
    ensures one { generated 1 ≡ codes "ws1s;" ++ 10 ∷ codes "var2 P0;" ++ 10 ∷ codes "true => P0 sub P0;" ++ 10 ∷ codes "all1 x: ex1 y: x < y & y notin P0;" ++ 10 ∷ [] }
    ensures three { generated 3 ≡ codes "ws1s;" ++ 10 ∷ codes "var2 P0, P1, P2;" ++ 10 ∷ codes "true & P0 sub P1 & P1 sub P2 => P0 sub P2;"
        ++ 10 ∷ codes "all1 x: ex1 y: x < y & y notin P2;" ++ 10 ∷ [] }
    ensures zero { ¬ IsNumber 0 }
    ensures too_great { ¬ IsNumber 2001 }
{}

/// A generated source has at most 1 MiB.
pub fn law_of_length()
    ensures { (number : ℕ) → IsNumber number → length (generated number) ≤ 1048576 }
{}
