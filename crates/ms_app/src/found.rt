ghost use Rattle.std.specs.List.{AllZip};
ghost use Rattle.std.specs.Option.{is_none, is_some};
ghost use Rattle.std.specs.Prelude.{◌≡◌, filter, length, IfOk};
ghost use Rattle.ms_dfa.specs.declared.plain.FileVersion.TheVariants.{Two};
ghost use Rattle.ms_dfa.specs.Files.{content_of_file};
ghost use Rattle.ms_logic.specs.Verdict.{Problem};
ghost use Rattle.ms_logic.specs.declared.checked.Checked.{Checked as Source};
ghost use Rattle.ms_logic.specs.declared.checked.Placed.{Placed as Goal};
ghost use Rattle.ms_logic.specs.View.{Answers, declared_in, goal_question, goals_in, main_question};
ghost use Rattle.ms_logic_words.specs.Content.{Content};
ghost use Rattle.ms_logic_words.specs.declared.sign.Sign.{Sign};
ghost use Rattle.ms_app_answer.specs.Answer.{IsAnswer};
ghost use Rattle.ms_app.specs.Counts.{HasCounts, IsCanonicalOf};
ghost use Rattle.ms_app.specs.Decision.{AnswersMain, IsFound, IsGoalAnswer, asks_main};
ghost use Rattle.ms_build_source.specs.Solution.{IsSolution};
ghost use Rattle.ms_build_source.specs.Values.{HasMainValue};

use ms_app_answer::answer;
use ms_build_source::Solution;
use ms_dfa::{Automaton, Plain};
use ms_list::{List, NoMemory, Text, push};
use ms_logic::{Checked, Placed};
use ms_report::{Answer, Found, GoalAnswer, Stats};
use std::alloc::Global;

/// The counts of a source of so many files, by its solution and the canonical content of its main value in version 2.
pub fn counts(solution: &Solution, content: &Plain, files: u32) -> Stats
    ensures { (checked : Source) (answers : Answers) → IsSolution checked answers solution.now →
        IsCanonicalOf Two (main_question checked answers) (content_of_file content.now) → HasCounts checked answers files result }
{
    Stats {
        files,
        size: solution.size,
        depth: solution.depth,
        states: content.states.len() as u64,
        nodes: content.nodes.len() as u64,
    }
}

/// Whether the main question is asked of a source with these formulas.
fn is_main_asked(formulas: &[Placed]) -> bool
    ensures { result ≡ asks_main (filter (λ placed. is_none placed.title) formulas.now) (filter (λ placed. is_some placed.title) formulas.now) }
{
    for placed in formulas {
        if placed.title.is_none() {
            return true;
        }
    }
    formulas.is_empty()
}

/// The answer to the main question, where it is asked.
fn main_answer(
    alloc: Global,
    checked: &Checked,
    automaton: &Automaton,
) -> Result<Option<Answer>, NoMemory>
    ensures { IfOk result (λ main. (problem : Problem) → HasMainValue problem automaton.now →
        AnswersMain (asks_main (declared_in checked.now) (goals_in checked.now)) problem main) }
{
    if is_main_asked(checked.formulas.slice()) {
        Ok(Some(answer(alloc, automaton)?))
    } else {
        Ok(None)
    }
}

/// The answer to a goal under its title, by the automaton of its value.
fn goal_answer(alloc: Global, title: &Text, automaton: &Automaton) -> Result<GoalAnswer, NoMemory>
    ensures title { IfOk result (λ given. given.title ≡ title.now) }
    ensures answer { IfOk result (λ given. (problem : Problem) → HasMainValue problem automaton.now → IsAnswer problem given.answer) }
{
    Ok(GoalAnswer {
        title: Text::new(alloc, title.text())?,
        answer: answer(alloc, automaton)?,
    })
}

/// The answers to the goals among some formulas, in order, by the automata of their values.
fn goal_answers(
    alloc: Global,
    formulas: &[Placed],
    automata: &[Automaton],
) -> Result<List<GoalAnswer>, NoMemory>
    requires { length (filter (λ placed. is_some placed.title) formulas.now) ≡ length automata.now }
    ensures { IfOk result (λ given. (checked : Source) (answers : Answers) →
        AllZip (λ (goal : Goal) (content : Content Sign). HasMainValue (goal_question checked answers goal) content)
        (filter (λ placed. is_some placed.title) formulas.now) automata.now →
        AllZip (IsGoalAnswer checked answers) (filter (λ placed. is_some placed.title) formulas.now) given) }
{
    let mut given = List::new(alloc);
    let mut place = 0;
    for placed in formulas {
        match &placed.title {
            None => {}
            Some(title) => {
                push(&mut given, goal_answer(alloc, title, &automata[place])?)?;
                place += 1;
            }
        }
    }
    Ok(given)
}

/// What a solution says of its source, with counts or without.
pub fn found(
    alloc: Global,
    checked: &Checked,
    solution: Solution,
    stats: Option<Stats>,
) -> Result<Found, NoMemory>
    requires { length (goals_in checked.now) ≡ length solution.goals }
    ensures found { IfOk result (λ found. (answers : Answers) → IsSolution checked.now answers solution → IsFound checked.now answers found) }
    ensures stats { IfOk result (λ found. found.stats ≡ stats) }
{
    let main = main_answer(alloc, checked, &solution.automaton)?;
    let goals = goal_answers(alloc, checked.formulas.slice(), solution.goals.slice())?;
    Ok(Found {
        globals: solution.names,
        main,
        goals,
        stats,
    })
}
