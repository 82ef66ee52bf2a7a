ghost use Rattle.std.specs.Prelude.{◌≡◌, [], IfOk};
ghost use Rattle.ms_names_checked.specs.Checked.{MeetsRules};
ghost use Rattle.ms_names_rules.specs.Numbers.{IsWellNumbered};

use anyhow::{Result, bail};
use ms_build_source::{Solution, solve};
use ms_dfa::FileVersion;
use ms_edge::Refusal;
use ms_include::load_bytes;
use ms_list::{Bytes, List, let_go};
use ms_logic::{Checked, Loaded};
use ms_names::check;

/// The most nodes and states of a step.
const LIMIT: u64 = 1_000;

pub fn tell(rt: &HostRuntime) -> Result<()> {
    tell_text(rt, "var1 x; restrict(x = 0);")?;
    tell_text(rt, "var2 P, Q; P sub Q; export(\"sub\", P sub Q);")
}

fn tell_text(rt: &HostRuntime, text: &str) -> Result<()> {
    let bytes = Bytes::from(Vec::from_slice(rt.alloc(), text.as_bytes())?);
    if bytes.len() > 1_048_576 {
        bail!("the text is too long");
    }
    let loaded = load_bytes(rt.alloc(), "text", bytes);
    let told = tell_loaded(rt, &loaded);
    let_go(loaded);
    told
}

fn tell_loaded(rt: &HostRuntime, loaded: &Result<Loaded, Refusal>) -> Result<()> {
    match loaded {
        Ok(loaded) => check_loaded(rt, loaded),
        Err(_) => bail!("the text is refused"),
    }
}

fn check_loaded(rt: &HostRuntime, loaded: &Loaded) -> Result<()> {
    let answer = check(rt.alloc(), loaded);
    let told = tell_answer(rt, &answer);
    let_go(answer);
    told
}

fn tell_answer(rt: &HostRuntime, answer: &Result<Checked, Refusal>) -> Result<()>
    requires numbered { IfOk answer.now IsWellNumbered }
    requires rules { IfOk answer.now MeetsRules }
{
    match answer {
        Ok(checked) => tell_source(rt, checked),
        Err(_) => bail!("the source is refused"),
    }
}

fn tell_source(rt: &HostRuntime, checked: &Checked) -> Result<()>
    requires numbered { IsWellNumbered checked.now }
    requires rules { MeetsRules checked.now }
{
    if !checked.imports.is_empty() {
        bail!("the source imports");
    }
    tell_checked(rt, checked)
}

fn tell_checked(rt: &HostRuntime, checked: &Checked) -> Result<()>
    requires numbered { IsWellNumbered checked.now }
    requires rules { MeetsRules checked.now }
    requires none { checked.now.imports ≡ [] }
{
    let imports = List::new(rt.alloc());
    let answer = solve(rt.alloc(), checked, &imports, LIMIT, Some(FileVersion::Two));
    let told = tell_solved(rt, &answer);
    let_go(answer);
    told
}

fn tell_solved(rt: &HostRuntime, answer: &Result<Solution, Refusal>) -> Result<()> {
    match answer {
        Ok(solution) => tell_solution(rt, solution),
        Err(_) => bail!("the source is not solved"),
    }
}

fn tell_solution(rt: &HostRuntime, solution: &Solution) -> Result<()> {
    println!(rt;
        "size {}, depth {}, {} states, {} exports",
        solution.size,
        solution.depth,
        solution.automaton.states(),
        solution.exports.len()
    )?;
    Ok(())
}
