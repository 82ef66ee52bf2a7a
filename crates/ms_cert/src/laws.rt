//! Laws of certificates. Each function has an empty body, and its contract states its laws.

ghost use Rattle.ms_cert.specs.Laws.{BytesSpellOneCertificate, CertifiedHaveFewestStates, CertifiedWordsAreShortest};

/// A certified automaton has fewest states, the words of its certificate are shortest, and bytes are the text of one certificate at most.
pub fn laws_of_certificates()
    ensures fewest { CertifiedHaveFewestStates }
    ensures shortest { CertifiedWordsAreShortest }
    ensures one { BytesSpellOneCertificate }
{}
