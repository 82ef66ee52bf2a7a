ghost use Rattle.std.specs.Prelude.{◌≡◌, [], ◌∷◌};
ghost use Rattle.ms_logic.specs.declared.mode.Order.TheVariants.{One, Two, Zero};
ghost use Rattle.ms_rename.specs.inner.Choice.{choice_of};
ghost use Rattle.ms_rename.specs.Renamed.{renamed, renamed_places};
ghost use Rattle.ms_rename.specs.Whole.{HasNoNumber};

/// Variables that are renamed, and the places that they have then: turned round, and two that become one.
pub fn worked_renamings()
    ensures variables { renamed (5 ∷ 2 ∷ []) (record { name = 0; order = One } ∷ record { name = 1; order = Two } ∷ [])
        ≡ record { name = 5; order = One } ∷ record { name = 2; order = Two } ∷ [] }
    ensures turned_round { renamed_places (5 ∷ 2 ∷ []) (record { name = 0; order = One } ∷ record { name = 1; order = Two } ∷ []) ≡ 1 ∷ 0 ∷ [] }
    ensures in_order { renamed_places (2 ∷ 5 ∷ []) (record { name = 0; order = One } ∷ record { name = 1; order = Two } ∷ []) ≡ 0 ∷ 1 ∷ [] }
    ensures one_of_two { renamed_places (4 ∷ 4 ∷ []) (record { name = 0; order = Two } ∷ record { name = 1; order = Two } ∷ []) ≡ 0 ∷ 0 ∷ [] }
    ensures low_end { choice_of ((7, 8) ∷ []) (0, 0) ≡ 7 }
    ensures high_end { choice_of ((7, 8) ∷ []) (1, 0) ≡ 8 }
{}

/// Variables of which none is a number, and such as have one.
pub fn worked_numbers()
    ensures none { HasNoNumber [] }
    ensures sets { HasNoNumber (record { name = 0; order = Two } ∷ record { name = 1; order = Zero } ∷ []) }
    ensures one { ¬ HasNoNumber (record { name = 0; order = Two } ∷ record { name = 1; order = One } ∷ []) }
{}
