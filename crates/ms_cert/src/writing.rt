ghost use Rattle.std.specs.Prelude.{◌≡◌, ◌++◌, IfOk, string_bytes};
ghost use Rattle.ms_cert.specs.Text.{IsCertText, IsWhole, cert_text};

use crate::cert::Cert;
use crate::lines::append_lines;
use ms_list::{Bytes, List, NoMemory};
use std::alloc::{AllocError, Global};

fn text(alloc: Global, cert: &Cert) -> Result<String, AllocError>
    ensures { IfOk result (λ text. string_bytes text ≡ cert_text cert.now) }
{
    let count = cert.words.len();
    let mut out = String::from_str(alloc, "monastr-cert 1\n")?;
    out.push_str("states ")?;
    write!(out, "{count}\n")?;
    append_lines(&mut out, cert.words.slice())?;
    append_lines(&mut out, cert.tree.slice())?;
    out.push_str("end\n")?;
    Ok(out)
}

/// The text of a certificate.
pub fn write_cert(alloc: Global, cert: &Cert) -> Result<Bytes, NoMemory>
    requires { IsWhole cert.now }
    ensures { IfOk result (λ bytes. IsCertText bytes cert.now) }
{
    match text(alloc, cert) {
        Ok(text) => Ok(List::from(text.into_bytes())),
        Err(_) => Err(NoMemory),
    }
}
