ghost use Rattle.std.specs.Prelude.{◌≡◌, ◌++◌, IfOk, OnOk, Some, string_bytes};
ghost use Rattle.ms_report.specs.declared.found.Answer.{Answer as FoundAnswer};
ghost use Rattle.ms_report.specs.Report.{size_text, summary_of};

use crate::found::{Answer, Found, Stats};
use crate::report_text::{push_count, verdict};
use crate::shown_text::push_head;
use ms_list::{Bytes, List, NoMemory};
use std::alloc::{AllocError, Global};

/// The summary of what was found of the generated source with this number, whose text has so many bytes: the verdict on its
/// main value, which was asked for, the lengths of the example and the counterexample, and the states and nodes where these
/// were counted.
pub fn summary(alloc: Global, number: u64, bytes: u64, found: &Found) -> Result<Bytes, NoMemory>
    requires main { (main : FoundAnswer) × (found.now.main ≡ Some main) }
    ensures { IfOk result (λ text. (main : FoundAnswer) → found.now.main ≡ Some main → text ≡ summary_of number bytes main found.now.stats) }
{
    let Some(main) = &found.main else {
        unreachable!();
    };
    match text(alloc, number, bytes, main, found.stats) {
        Ok(text) => Ok(List::from(text.into_bytes())),
        Err(_) => Err(NoMemory),
    }
}

fn text(
    alloc: Global,
    number: u64,
    bytes: u64,
    main: &Answer,
    stats: Option<Stats>,
) -> Result<String, AllocError>
    ensures { IfOk result (λ text. string_bytes text ≡ summary_of number bytes main.now stats) }
{
    let mut text = String::new(alloc);
    push_count(&mut text, "generated", number)?;
    push_count(&mut text, "bytes", bytes)?;
    text.push_str(verdict(main.verdict))?;
    text.push_str("\n")?;
    push_head(&mut text, "example", " length ", &main.example)?;
    push_head(
        &mut text,
        "counterexample",
        " length ",
        &main.counterexample,
    )?;
    push_size(&mut text, stats)?;
    Ok(text)
}

fn push_size(text: &mut String, stats: Option<Stats>) -> Result<(), AllocError>
    ensures { OnOk result (string_bytes text.new ≡ string_bytes text.old ++ size_text stats) }
{
    let Some(stats) = stats else {
        return Ok(());
    };
    push_count(text, "states", stats.states)?;
    push_count(text, "nodes", stats.nodes)
}
