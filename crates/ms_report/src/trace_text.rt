ghost use Rattle.std.specs.Prelude.{◌≡◌, IfOk, string_bytes};
ghost use Rattle.ms_report.specs.Report.{trace_report_of};

use crate::found::Answer;
use crate::report_text::verdict;
use crate::shown_text::{Spelling, push_shown};
use ms_list::{Bytes, List, Name, NoMemory};
use std::alloc::{AllocError, Global};

/// The report on a formula of temporal logic over propositions with these names: the verdict, a trace on which it holds, and
/// one on which it does not.
pub fn trace_report(alloc: Global, names: &List<Name>, answer: &Answer) -> Result<Bytes, NoMemory>
    ensures { IfOk result (λ text. text ≡ trace_report_of names.now answer.now) }
{
    match text(alloc, names, answer) {
        Ok(text) => Ok(List::from(text.into_bytes())),
        Err(_) => Err(NoMemory),
    }
}

fn text(alloc: Global, names: &List<Name>, answer: &Answer) -> Result<String, AllocError>
    ensures { IfOk result (λ text. string_bytes text ≡ trace_report_of names.now answer.now) }
{
    let mut text = String::from_str(alloc, verdict(answer.verdict))?;
    text.push_str("\n")?;
    push_shown(
        &mut text,
        Spelling::AsValue,
        "trace",
        names,
        &answer.example,
    )?;
    push_shown(
        &mut text,
        Spelling::AsValue,
        "countertrace",
        names,
        &answer.counterexample,
    )?;
    Ok(text)
}
