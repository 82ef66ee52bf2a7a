ghost use Rattle.std.specs.Prelude.{◌≡◌};
ghost use Rattle.ms_logic_words.specs.declared.sign.Sign.TheVariants.{Yes, No, Undefined, Outside};
ghost use Rattle.ms_product.specs.declared.op.Op.TheVariants.{And, Or, Implies, Iff};
ghost use Rattle.ms_product.specs.Signs.{negated, restricted, strict};

/// The connectives of signs: those of truth values, Undefined where an operand is, and Outside above all.
pub fn worked_connectives()
    ensures conjunction { strict And Yes No ≡ No }
    ensures disjunction { strict Or No Yes ≡ Yes }
    ensures implication { strict Implies No No ≡ Yes }
    ensures equivalence { strict Iff No No ≡ Yes }
    ensures no_equivalence { strict Iff Yes No ≡ No }
    ensures disjunction_with_undefined { strict Or Yes Undefined ≡ Undefined }
    ensures conjunction_with_undefined { strict And No Undefined ≡ Undefined }
    ensures nothing_follows_from_undefined { strict Implies Undefined Yes ≡ Undefined }
    ensures outside_above_yes { strict Or Yes Outside ≡ Outside }
    ensures outside_above_undefined { strict And Undefined Outside ≡ Outside }
{}

/// Signs that are negated, and those of a restriction.
pub fn worked_changes()
    ensures yes { negated Yes ≡ No }
    ensures undefined { negated Undefined ≡ Undefined }
    ensures outside { negated Outside ≡ Outside }
    ensures met { restricted Yes ≡ Yes }
    ensures not_met { restricted No ≡ Undefined }
    ensures no_word { restricted Outside ≡ Outside }
{}
