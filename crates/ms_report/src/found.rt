use ms_list::{List, Name, Text};
use ms_logic::Assignment;

/// What a question comes to: whether some assignment makes it Yes, and whether some makes it No.
#[derive(Clone, Copy, PartialEq, Eq)]
pub enum Verdict {
    Valid,
    Unsatisfiable,
    Contingent,
    Vacuous,
}

/// Counts of a source and of the canonical automaton of its main value.
#[derive(Clone, Copy, PartialEq, Eq)]
pub struct Stats {
    pub files: u32,
    pub size: u64,
    pub depth: u32,
    pub states: u64,
    pub nodes: u64,
}

/// The verdict on a question, the first assignment that makes it Yes and the first that makes it No.
#[derive(Drop)]
pub struct Answer {
    pub verdict: Verdict,
    pub example: Option<Assignment>,
    pub counterexample: Option<Assignment>,
}

/// The answer to a goal, which goes by its title.
#[derive(Drop)]
pub struct GoalAnswer {
    pub title: Text,
    pub answer: Answer,
}

/// What was found of a source with these globals: the answer to its main value, where that is asked for, and to each goal.
#[derive(Drop)]
pub struct Found {
    pub globals: List<Name>,
    pub main: Option<Answer>,
    pub goals: List<GoalAnswer>,
    pub stats: Option<Stats>,
}
