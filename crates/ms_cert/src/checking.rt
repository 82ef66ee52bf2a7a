ghost use Rattle.std.specs.Prelude.{◌↔◌, IfNone, IfOk, IfSome, IsTrue};
ghost use Rattle.ms_dfa.specs.Files.{content_of_file};
ghost use Rattle.ms_dfafile.specs.File.{IsFile};
ghost use Rattle.ms_cert.specs.Certificate.{IsCertified};
ghost use Rattle.ms_cert.specs.Proven.{IsProven};

use crate::cert::{Cert, Proven};
use crate::laid_out::LaidOut;
use crate::layout::lay_out;
use crate::lengths::grow_by_letters;
use crate::separation::are_apart;
use crate::shortest::shortest;
use crate::words::{are_lines_over, are_words};
use ms_dfa::{FileSign, Plain};
use ms_list::NoMemory;
use std::alloc::Global;

/// Whether the certificate certifies the file.
fn certifies(alloc: Global, plain: &Plain, cert: &Cert) -> Result<bool, NoMemory>
    requires { IsFile plain.now }
    ensures { IfOk result (λ certifies. IsTrue certifies ↔ IsCertified plain.now cert.now) }
{
    let layout = lay_out(alloc, plain.variables.slice())?;
    if !are_words(plain, &layout, cert.words.slice()) {
        return Ok(false);
    }
    if !are_lines_over(plain, &layout, cert.tree.slice()) {
        return Ok(false);
    }
    if !grow_by_letters(alloc, plain, cert.words.slice())? {
        return Ok(false);
    }
    let file = LaidOut {
        alloc,
        plain,
        slots: layout.slots.slice(),
    };
    are_apart(&file, cert.tree.slice())
}

/// What the certificate proves of the file; None where it does not certify it.
pub fn checked(alloc: Global, plain: &Plain, cert: &Cert) -> Result<Option<Proven>, NoMemory>
    requires { IsFile plain.now }
    ensures certified { IfOk result (λ found. IfSome found (λ _. IsCertified plain.now cert.now)) }
    ensures proven { IfOk result (λ found. IfSome found (IsProven (content_of_file plain.now))) }
    ensures none { IfOk result (λ found. IfNone found (¬ IsCertified plain.now cert.now)) }
{
    if !certifies(alloc, plain, cert)? {
        return Ok(None);
    }
    let words = cert.words.slice();
    let plus = shortest(plain, words, FileSign::Plus);
    let minus = shortest(plain, words, FileSign::Minus);
    Ok(Some(Proven {
        states: plain.states.len() as u32,
        plus,
        minus,
    }))
}
