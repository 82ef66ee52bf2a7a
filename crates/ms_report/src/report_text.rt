ghost use Rattle.std.specs.Prelude.{◌≡◌, ◌++◌, IfOk, OnOk, string_bytes};
ghost use Rattle.std.specs.List.{flat_map};
ghost use Rattle.ms_report.specs.Report.{count_line, goal_text, main_text, report_of, stats_text, verdict_text};
ghost use Rattle.ms_report.specs.inner.Shown.{IsBlock, block_text};

use crate::found::{Answer, Found, GoalAnswer, Stats, Verdict};
use crate::number::push_number;
use crate::shown_text::{Spelling, push_shown};
use ms_list::{Bytes, List, Name, NoMemory};
use std::alloc::{AllocError, Global};

/// The report: for each question the verdict, the example and the counterexample; and the counts where there are any.
pub fn report(alloc: Global, found: &Found) -> Result<Bytes, NoMemory>
    ensures { IfOk result (λ text. text ≡ report_of found.now) }
{
    match text(alloc, found) {
        Ok(text) => Ok(List::from(text.into_bytes())),
        Err(_) => Err(NoMemory),
    }
}

fn text(alloc: Global, found: &Found) -> Result<String, AllocError>
    ensures { IfOk result (λ text. string_bytes text ≡ report_of found.now) }
{
    let mut text = String::new(alloc);
    push_main(&mut text, &found.globals, &found.main)?;
    push_goals(&mut text, &found.globals, found.goals.slice())?;
    push_stats(&mut text, found.stats)?;
    Ok(text)
}

fn push_main(text: &mut String, names: &List<Name>, main: &Option<Answer>) -> Result<(), AllocError>
    ensures { OnOk result (string_bytes text.new ≡ string_bytes text.old ++ main_text names.now main.now) }
{
    match main {
        None => Ok(()),
        Some(answer) => push_answer(text, Spelling::AsValue, names, answer),
    }
}

/// A block for each goal.
fn push_goals(text: &mut String, names: &List<Name>, goals: &[GoalAnswer]) -> Result<(), AllocError>
    ensures { OnOk result (string_bytes text.new ≡ string_bytes text.old ++ flat_map (goal_text names.now) goals.now) }
{
    for goal in goals {
        push_goal(text, names, goal)?;
    }
    Ok(())
}

fn push_goal(text: &mut String, names: &List<Name>, goal: &GoalAnswer) -> Result<(), AllocError>
    ensures { OnOk result (string_bytes text.new ≡ string_bytes text.old ++ goal_text names.now goal.now) }
{
    text.push_str("goal ")?;
    text.push_str(goal.title.text())?;
    text.push_str("\n")?;
    push_answer(text, Spelling::AsValue, names, &goal.answer)
}

/// The verdict, the example and the counterexample.
pub(crate) fn push_answer(
    text: &mut String,
    spelling: Spelling,
    names: &List<Name>,
    answer: &Answer,
) -> Result<(), AllocError>
    requires { IsBlock spelling answer.now }
    ensures { OnOk result (string_bytes text.new ≡ string_bytes text.old ++ block_text spelling names.now answer.now) }
{
    text.push_str(verdict(answer.verdict))?;
    text.push_str("\n")?;
    push_shown(text, spelling, "example", names, &answer.example)?;
    push_shown(
        text,
        spelling,
        "counterexample",
        names,
        &answer.counterexample,
    )
}

pub(crate) fn verdict(verdict: Verdict) -> &'static str
    ensures { result.now ≡ verdict_text verdict }
{
    match verdict {
        Verdict::Valid => "valid",
        Verdict::Unsatisfiable => "unsatisfiable",
        Verdict::Contingent => "contingent",
        Verdict::Vacuous => "vacuous",
    }
}

fn push_stats(text: &mut String, stats: Option<Stats>) -> Result<(), AllocError>
    ensures { OnOk result (string_bytes text.new ≡ string_bytes text.old ++ stats_text stats) }
{
    let Some(stats) = stats else {
        return Ok(());
    };
    push_count(text, "files", u64::from(stats.files))?;
    push_count(text, "size", stats.size)?;
    push_count(text, "depth", u64::from(stats.depth))?;
    push_count(text, "states", stats.states)?;
    push_count(text, "nodes", stats.nodes)
}

pub(crate) fn push_count(text: &mut String, word: &str, count: u64) -> Result<(), AllocError>
    ensures { OnOk result (string_bytes text.new ≡ string_bytes text.old ++ count_line word.now count) }
{
    text.push_str(word)?;
    text.push_str(" ")?;
    push_number(text, count)?;
    text.push_str("\n")
}
