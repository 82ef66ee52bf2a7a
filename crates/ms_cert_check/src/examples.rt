//! Worked examples of what a check prints. The function has an empty body, and its contract states the examples.

ghost use Rattle.std.specs.Prelude.{◌≡◌, codes, None, Some};
ghost use Rattle.ms_cert_check.specs.Check.{check_text};
ghost use Rattle.ms_cert_check.specs.Files.{cert_name};

/// An automaton of two states, whose shortest word with the sign + is empty, and with the sign - has one letter; one whose words all have the
/// sign -; and a certificate that certifies nothing.
pub fn worked_checks()
    ensures both { check_text (Some (record { states = 2; plus = Some 0; minus = Some 1 })) ≡ codes "yes\nstates 2\nexample length 0\ncounterexample length 1\n" }
    ensures no_example { check_text (Some (record { states = 1; plus = None; minus = Some 0 })) ≡ codes "yes\nstates 1\nno example\ncounterexample length 0\n" }
    ensures nothing { check_text None ≡ codes "no\n" }
    ensures name { cert_name (codes "sub.dfa") ≡ codes "sub.dfa.cert" }
{}
