ghost use Rattle.std.specs.Prelude.{◌≡◌, length};
ghost use Rattle.ms_dfafile.specs.inner.Examples.{subset};
ghost use Rattle.ms_cert.specs.Certificate.{IsCertified};
ghost use Rattle.ms_cert.specs.ShortestWords.{AreShortest};
ghost use Rattle.ms_dfa.specs.Files.{content_of_file};
ghost use Rattle.ms_cert.specs.Text.{cert_text};
ghost use Rattle.ms_cert.specs.inner.Examples.{cert, cert_bytes, other_state, too_long, turned_round};

/// A certificate of the file of `P sub Q`, and certificates that do not certify it.
pub fn worked_certificates()
    ensures certified { IsCertified subset cert }
    ensures other_state { ¬ IsCertified subset other_state }
    ensures too_long { ¬ IsCertified subset too_long }
    ensures turned_round { ¬ IsCertified subset turned_round }
    ensures shortest { AreShortest (content_of_file subset) cert.words }
    ensures not_shortest { ¬ AreShortest (content_of_file subset) too_long.words }
{}

/// The text of that certificate.
pub fn worked_texts()
    ensures text { cert_text cert ≡ cert_bytes }
    ensures bytes { length cert_bytes ≡ 53 }
{}
