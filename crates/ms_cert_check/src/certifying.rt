//! The certificate of an automaton file, made of its bytes.

ghost use Rattle.std.specs.Prelude.{IfOk};
ghost use Rattle.ms_cert_check.specs.Certified.{IsCanonicalFile, IsCertificateOf};

use ms_cert::{certificate, write_cert};
use ms_dfafile::read;
use ms_list::{Bytes, NoMemory};
use std::alloc::Global;

/// The text of a certificate of the automaton file with these bytes, whose states are all reached and all differ.
pub fn certify(alloc: Global, automaton: &[u8]) -> Result<Bytes, NoMemory>
    requires { IsCanonicalFile automaton.now }
    ensures { IfOk result (IsCertificateOf automaton.now) }
{
    let Ok(plain) = read(alloc, automaton) else {
        return Err(NoMemory);
    };
    let cert = certificate(alloc, &plain)?;
    write_cert(alloc, &cert)
}
