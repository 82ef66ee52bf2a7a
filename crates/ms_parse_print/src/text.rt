ghost use Rattle.std.specs.Prelude.{◌≡◌, ◌++◌, ℕ, List, IfOk, OnOk, OnErr};
ghost use Rattle.ms_parse_grammar.specs.Declarations.{Fits};
ghost use Rattle.ms_parse_grammar.specs.View.{document_of};
ghost use Rattle.ms_parse_print.specs.inner.Printed.{text_of};
ghost use Rattle.ms_parse_print.specs.Text.{IsTextOf};

use crate::declaration::push_source;
use ms_list::{Bytes, NoMemory};
use ms_logic::Source;
use std::alloc::{AllocError, Global};

// The text of the source behind these bytes.
fn with_source(alloc: Global, before: &[u8], source: &Source) -> Result<Vec<u8>, AllocError>
    ensures { IfOk result (λ made. made.items ≡ before.now ++ text_of (document_of source.now)) }
{
    let mut printed = String::new(alloc);
    push_source(&mut printed, source)?;
    let mut made = Vec::from_slice(alloc, before)?;
    made.extend_from_slice(printed.as_bytes())?;
    Ok(made)
}

/// Appends a text whose tokens read as the source, places aside. Where memory is refused, the text is as it was.
#[tactic(auto, using(crate::proofs::Printing::is_text_of))]
pub fn print(alloc: Global, source: &Source, text: &mut Bytes) -> Result<(), NoMemory>
    requires { Fits source.now }
    ensures ok { OnOk result ((printed : List ℕ) × (text.new ≡ text.old ++ printed) × IsTextOf source.now printed) }
    ensures err { OnErr result (text.new ≡ text.old) }
{
    match with_source(alloc, text.slice(), source) {
        Ok(made) => {
            *text = Bytes::from(made);
            Ok(())
        }
        Err(_) => Err(NoMemory),
    }
}
