//! Reports, and the lines of refusals.
ghost use Rattle.std.specs.Prelude.{◌≡◌, [], ◌∷◌, codes, IfOk};
ghost use Rattle.ms_edge.specs.Refusal.{IsPlaced, place_of};
ghost use Rattle.ms_report.specs.Line.{HasLine};

use crate::shown;
use anyhow::Result;
use ms_edge::Refusal;
use ms_list::{At, List, Name, NoMemory, Text, Word, push};
use ms_logic::{Assignment, Value};
use ms_report::{Answer, Found, GoalAnswer, Stats, Verdict, refusal_line, report};
use std::alloc::Global;

const AT: At = At { file: 1, place: 10 };

pub fn tell(rt: &HostRuntime) -> Result<()> {
    println!(rt; "Reports")?;
    full_report(rt)?;
    bare_report(rt)?;
    report_of_goals(rt)?;
    println!(rt; "Lines of refusals")?;
    lines_of_texts(rt)?;
    lines_of_names(rt)?;
    lines_of_files(rt)?;
    lines_of_imports(rt)?;
    lines_of_limits(rt)
}

fn print_report(rt: &HostRuntime, found: &Found) -> Result<()> {
    let text = report(rt.alloc(), found)?;
    rt.print(shown(text.slice()))?;
    Ok(())
}

/// A report with all its lines.
fn full_report(rt: &HostRuntime) -> Result<()> {
    let found = full(rt.alloc())?;
    print_report(rt, &found)
}

fn full(alloc: Global) -> Result<Found> {
    let stats = Stats {
        files: 1,
        size: 6,
        depth: 3,
        states: 2,
        nodes: 18_446_744_073_709_551_615,
    };
    let globals = names(alloc, &["P", "x'", "a"])?;
    let main = contingent(alloc)?;
    let goals = two_goals(alloc)?;
    Ok(Found {
        globals,
        main: Some(main),
        goals,
        stats: Some(stats),
    })
}

fn contingent(alloc: Global) -> Result<Answer> {
    let example = assignment(alloc, 5, (&[0, 1, 4], 3, true))?;
    let counterexample = assignment(alloc, 1, (&[], 0, false))?;
    Ok(Answer {
        verdict: Verdict::Contingent,
        example: Some(example),
        counterexample: Some(counterexample),
    })
}

fn two_goals(alloc: Global) -> Result<List<GoalAnswer>> {
    let mut goals = List::new(alloc);
    push(&mut goals, valid_goal(alloc)?)?;
    push(&mut goals, goal(alloc, "", Verdict::Vacuous)?)?;
    Ok(goals)
}

fn valid_goal(alloc: Global) -> Result<GoalAnswer> {
    let title = Text::new(alloc, "P is caf\u{e9}")?;
    let example = assignment(alloc, 0, (&[], 0, true))?;
    let answer = Answer {
        verdict: Verdict::Valid,
        example: Some(example),
        counterexample: None,
    };
    Ok(GoalAnswer { title, answer })
}

/// A goal of which nothing is shown but the verdict.
fn goal(alloc: Global, title: &str, verdict: Verdict) -> Result<GoalAnswer, NoMemory> {
    Ok(GoalAnswer {
        title: Text::new(alloc, title)?,
        answer: nothing_shown(verdict),
    })
}

fn nothing_shown(verdict: Verdict) -> Answer {
    Answer {
        verdict,
        example: None,
        counterexample: None,
    }
}

fn bare_report(rt: &HostRuntime) -> Result<()> {
    let found = bare(rt.alloc(), Verdict::Vacuous);
    print_report(rt, &found)
}

fn bare(alloc: Global, verdict: Verdict) -> Found {
    Found {
        globals: List::new(alloc),
        main: Some(nothing_shown(verdict)),
        goals: List::new(alloc),
        stats: None,
    }
}

/// A report on a goal, where the main value is not asked for.
fn report_of_goals(rt: &HostRuntime) -> Result<()> {
    let found = goals_alone(rt.alloc())?;
    print_report(rt, &found)
}

fn goals_alone(alloc: Global) -> Result<Found, NoMemory> {
    let mut goals = List::new(alloc);
    push(&mut goals, goal(alloc, "never", Verdict::Unsatisfiable)?)?;
    Ok(Found {
        globals: List::new(alloc),
        main: None,
        goals,
        stats: None,
    })
}

fn names(alloc: Global, all: &[&str]) -> Result<List<Name>, NoMemory> {
    let mut names = List::new(alloc);
    for name in all {
        push(&mut names, Name::new(alloc, name)?)?;
    }
    Ok(names)
}

fn assignment(alloc: Global, length: u64, parts: (&[u64], u64, bool)) -> Result<Assignment> {
    let members = List::from(Vec::from_slice(alloc, parts.0)?);
    let mut values = List::new(alloc);
    push(&mut values, Value::Set(members))?;
    push(&mut values, Value::Number(parts.1))?;
    push(&mut values, Value::Truth(parts.2))?;
    Ok(Assignment { length, values })
}

fn two_files(alloc: Global) -> Result<List<Text>, NoMemory>
    ensures { IfOk result (λ files. files ≡ (codes "t.mona") ∷ (codes "u.mona") ∷ []) }
{
    let first = Text::new(alloc, "t.mona")?;
    let second = Text::new(alloc, "u.mona")?;
    match vec![in alloc; first, second] {
        Ok(files) => Ok(List::from(files)),
        Err(_) => Err(NoMemory),
    }
}

/// Prints the line of a refusal, where the files are `t.mona` and `u.mona`.
fn line(rt: &HostRuntime, refusal: Refusal) -> Result<()>
    requires has_line { HasLine refusal }
    requires is_placed { IsPlaced (place_of refusal) ((codes "t.mona") ∷ (codes "u.mona") ∷ []) }
{
    print_line(rt, &refusal)
}

fn print_line(rt: &HostRuntime, refusal: &Refusal) -> Result<()>
    requires has_line { HasLine refusal.now }
    requires is_placed { IsPlaced (place_of refusal.now) ((codes "t.mona") ∷ (codes "u.mona") ∷ []) }
{
    let files = two_files(rt.alloc())?;
    let made = refusal_line(rt.alloc(), refusal, &files)?;
    rt.print(shown(made.slice()))?;
    Ok(())
}

fn lines_of_texts(rt: &HostRuntime) -> Result<()> {
    let at = AT;
    line(rt, Refusal::Word { at, byte: 0x2f })?;
    line(rt, Refusal::Word { at, byte: 0xc3 })?;
    line(rt, Refusal::NumberTooLarge { at })?;
    line(rt, Refusal::Grammar { at })?;
    line(rt, Refusal::Unclosed { at })
}

fn lines_of_names(rt: &HostRuntime) -> Result<()> {
    let at = AT;
    unknown_name(rt)?;
    named_twice(rt)?;
    line(rt, Refusal::WrongOrder { at })?;
    arity(rt)?;
    line(rt, Refusal::ConstRange { at: None })?;
    line(rt, Refusal::ConstRange { at: Some(at) })?;
    line(rt, Refusal::NotHere { at })?;
    left_out(rt)?;
    line(rt, Refusal::VarsDiffer)
}

fn unknown_name(rt: &HostRuntime) -> Result<()> {
    let name = Name::new(rt.alloc(), "x'")?;
    line(rt, Refusal::UnknownName { at: AT, name })
}

fn named_twice(rt: &HostRuntime) -> Result<()> {
    let name = Text::new(rt.alloc(), "caf\u{e9}")?;
    line(rt, Refusal::Twice { at: AT, name })
}

fn arity(rt: &HostRuntime) -> Result<()> {
    let name = Name::new(rt.alloc(), "p")?;
    line(
        rt,
        Refusal::Arity {
            at: AT,
            name,
            given: 2,
            wanted: 3,
        },
    )
}

fn left_out(rt: &HostRuntime) -> Result<()> {
    let word = Name::new(rt.alloc(), "tree")?;
    line(rt, Refusal::LeftOut { at: AT, word })
}

fn file_name(rt: &HostRuntime) -> Result<Text> {
    Ok(Text::new(rt.alloc(), "f")?)
}

fn lines_of_files(rt: &HostRuntime) -> Result<()> {
    let name = file_name(rt)?;
    line(rt, Refusal::FileMissing { at: None, name })?;
    let name = file_name(rt)?;
    line(rt, Refusal::FileMissing { at: Some(AT), name })?;
    include_cycle(rt)?;
    let name = file_name(rt)?;
    line(rt, Refusal::FileSize { name, limit: 9 })?;
    let name = file_name(rt)?;
    line(rt, Refusal::ReadFault { name })?;
    let name = file_name(rt)?;
    line(rt, Refusal::WriteFault { name })
}

fn include_cycle(rt: &HostRuntime) -> Result<()> {
    let name = file_name(rt)?;
    let chain = List::from(vec![in rt.alloc(); 0u32, 1]?);
    line(
        rt,
        Refusal::IncludeCycle {
            at: AT,
            name,
            chain,
        },
    )
}

fn lines_of_imports(rt: &HostRuntime) -> Result<()> {
    let at = AT;
    let name = file_name(rt)?;
    line(rt, Refusal::ImportMissing { at, name })?;
    let name = file_name(rt)?;
    line(rt, Refusal::ImportText { at, name })?;
    let name = file_name(rt)?;
    line(rt, Refusal::ImportMode { at, name })?;
    let name = file_name(rt)?;
    line(rt, Refusal::ImportVars { at, name })?;
    import_open(rt)?;
    let name = file_name(rt)?;
    line(rt, Refusal::AutomatonText { name })?;
    let name = file_name(rt)?;
    line(rt, Refusal::CertText { name })
}

fn import_open(rt: &HostRuntime) -> Result<()> {
    let name = file_name(rt)?;
    let word = Word {
        truth: List::new(rt.alloc()),
        letters: List::new(rt.alloc()),
    };
    line(
        rt,
        Refusal::ImportOpen {
            at: AT,
            name,
            length: 12,
            word,
        },
    )
}

fn lines_of_limits(rt: &HostRuntime) -> Result<()> {
    line(rt, Refusal::Includes { at: AT, limit: 16 })?;
    line(rt, Refusal::Depth { at: AT })?;
    line(rt, Refusal::CoreSize)?;
    line(rt, Refusal::Nodes { step: 3, limit: 1 })?;
    line(rt, Refusal::Memory)
}
