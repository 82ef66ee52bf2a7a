ghost use Rattle.std.specs.Prelude.{◌≡◌, ℕ, [], codes, map, option_map, IfErr, IfOk, MatchOption, None, Some};
ghost use Rattle.clap.specs.Words.{Text as Word};
ghost use Rattle.clap.specs.Words.{app_of, fault_of, first_of, found_of, matches_of, rows_of};
ghost use Rattle.ms_app_words.specs.declared.command.Command.{Command as Asked};
ghost use Rattle.ms_dfa.specs.declared.plain.FileVersion.{FileVersion as Version};
ghost use Rattle.ms_app_words.specs.Command.{AsksBy, AsksOfFile, HasFormat, HasLimit, HasNumber, IsCommand, app_for, first_verb, is_given, verb_in};

use crate::apps::app;
use crate::command::{Command, Verb, WordsFault};
use clap::ArgMatches;
use clap::error::ErrorKind;
use ms_dfa::FileVersion;
use ms_edge::CommandLine;
use ms_list::{NoMemory, Text};
use std::alloc::{AllocError, Global};

/// The most nodes and states of a step, where the words name none.
const NODE_LIMIT: u64 = 16_777_216;

/// The greatest limit on nodes and states that the words can name.
const GREATEST_LIMIT: u64 = 4_000_000_000;

/// The words as texts.
fn texts<'a>(alloc: Global, words: &'a [Text]) -> Result<Vec<&'a str>, AllocError>
    ensures { IfOk result (λ made. map (λ s. s.now) made.items ≡ words.entry.now) }
{
    let mut texts = Vec::new(alloc);
    for word in words {
        texts.push(word.text())?;
    }
    Ok(texts)
}

/// The limit that the words name, or where they name none the one that holds then.
fn max_nodes(text: Option<&str>) -> Option<u64>
    ensures { MatchOption result ((limit : ℕ) → ¬ HasLimit (option_map (λ s. s.now) text.entry) limit) (HasLimit (option_map (λ s. s.now) text.entry)) }
{
    let Some(text) = text else {
        return Some(NODE_LIMIT);
    };
    match text.parse::<u64>() {
        Ok(limit) if (1..=GREATEST_LIMIT).contains(&limit) => Some(limit),
        _ => None,
    }
}

/// The version of automaton files that the words name, or where they name none version 2.
fn format(text: Option<&str>) -> Option<FileVersion>
    ensures { MatchOption result ((version : Version) → ¬ HasFormat (option_map (λ s. s.now) text.entry) version) (HasFormat (option_map (λ s. s.now) text.entry)) }
{
    let Some(text) = text else {
        return Some(FileVersion::Two);
    };
    match text.parse::<u64>() {
        Ok(1) => Some(FileVersion::One),
        Ok(2) => Some(FileVersion::Two),
        _ => None,
    }
}

/// The number that the words name.
fn number(text: Option<&str>) -> Option<u64>
    ensures { MatchOption result ((number : ℕ) → ¬ HasNumber (option_map (λ s. s.now) text.entry) number) (HasNumber (option_map (λ s. s.now) text.entry)) }
{
    match text?.parse::<u64>() {
        Ok(number) => Some(number),
        Err(_) => None,
    }
}

/// The first value that matches have under a name.
fn value_of<'a>(matches: &ArgMatches<'a>, name: &str) -> Option<&'a str>
    ensures { option_map (λ s. s.now) result ≡ first_of name.now (rows_of (found_of matches.now)) }
{
    matches.get_str(name)
}

/// Whether a flag was given.
fn is_given(matches: &ArgMatches, name: &str) -> bool
    ensures { result ≡ is_given name.now (rows_of (found_of matches.now)) }
{
    match value_of(matches, name) {
        Some(text) => text == "true",
        None => false,
    }
}

/// The limit that matches name.
fn limit_of(matches: &ArgMatches) -> Option<u64>
    ensures { MatchOption result ((limit : ℕ) → ¬ HasLimit (first_of (codes "max-nodes") (rows_of (found_of matches.now))) limit)
        (HasLimit (first_of (codes "max-nodes") (rows_of (found_of matches.now)))) }
{
    max_nodes(value_of(matches, "max-nodes"))
}

/// The version of automaton files that matches name.
fn format_of(matches: &ArgMatches) -> Option<FileVersion>
    ensures { MatchOption result ((version : Version) → ¬ HasFormat (first_of (codes "format") (rows_of (found_of matches.now))) version)
        (HasFormat (first_of (codes "format") (rows_of (found_of matches.now)))) }
{
    format(value_of(matches, "format"))
}

/// The number that matches name.
fn number_of(matches: &ArgMatches) -> Option<u64>
    ensures { MatchOption result ((number : ℕ) → ¬ HasNumber (first_of (codes "K") (rows_of (found_of matches.now))) number)
        (HasNumber (first_of (codes "K") (rows_of (found_of matches.now)))) }
{
    number(value_of(matches, "K"))
}

/// The text of a value by its position.
fn text_of(alloc: Global, matches: &ArgMatches, name: &str) -> Result<Text, WordsFault>
    ensures text { IfOk result (λ text. first_of name.now (rows_of (found_of matches.now)) ≡ Some text) }
    ensures usage { IfErr result (λ fault. fault ≡ WordsFault.Usage → first_of name.now (rows_of (found_of matches.now)) ≡ None) }
{
    let Some(text) = value_of(matches, name) else {
        return Err(WordsFault::Usage);
    };
    match Text::new(alloc, text) {
        Ok(text) => Ok(text),
        Err(NoMemory) => Err(WordsFault::NoMemory),
    }
}

/// The text of an option's value, where the option was given.
fn option_of(alloc: Global, matches: &ArgMatches, name: &str) -> Result<Option<Text>, NoMemory>
    ensures { IfOk result (λ text. text ≡ first_of name.now (rows_of (found_of matches.now))) }
{
    match value_of(matches, name) {
        Some(text) => Ok(Some(Text::new(alloc, text)?)),
        None => Ok(None),
    }
}

/// A file, and a limit on the nodes and states of a step.
#[derive(Drop)]
struct LimitedFile {
    file: Text,
    max_nodes: u64,
}

/// What the matches of `FILE [--max-nodes N]` name.
fn limited_file(alloc: Global, matches: &ArgMatches) -> Result<LimitedFile, WordsFault>
    ensures named { IfOk result (λ made. AsksOfFile (rows_of (found_of matches.now)) made.file made.max_nodes) }
    ensures usage { IfErr result (λ fault. fault ≡ WordsFault.Usage → (file : Word) (limit : ℕ) → ¬ AsksOfFile (rows_of (found_of matches.now)) file limit) }
{
    let Some(max_nodes) = limit_of(matches) else {
        return Err(WordsFault::Usage);
    };
    let file = match text_of(alloc, matches, "FILE") {
        Ok(file) => file,
        Err(fault) => return Err(fault),
    };
    Ok(LimitedFile { file, max_nodes })
}

/// What the matches of `decide FILE [--out NAME] [--max-nodes N] [--stats] [--format V]` ask for.
fn decide_by(alloc: Global, matches: &ArgMatches) -> Result<Command, WordsFault>
    ensures command { IfOk result (AsksBy Verb.Decide (rows_of (found_of matches.now))) }
    ensures usage { IfErr result (λ fault. fault ≡ WordsFault.Usage → (command : Asked) → ¬ AsksBy Verb.Decide (rows_of (found_of matches.now)) command) }
{
    let Some(format) = format_of(matches) else {
        return Err(WordsFault::Usage);
    };
    let LimitedFile { file, max_nodes } = match limited_file(alloc, matches) {
        Ok(limited) => limited,
        Err(fault) => return Err(fault),
    };
    let Ok(out) = option_of(alloc, matches, "out") else {
        return Err(WordsFault::NoMemory);
    };
    let stats = is_given(matches, "stats");
    Ok(Command::Decide {
        file,
        out,
        max_nodes,
        stats,
        format,
    })
}

/// What the matches of `same LEFT RIGHT [--max-nodes N]` ask for.
fn same_by(alloc: Global, matches: &ArgMatches) -> Result<Command, WordsFault>
    ensures command { IfOk result (AsksBy Verb.Same (rows_of (found_of matches.now))) }
    ensures usage { IfErr result (λ fault. fault ≡ WordsFault.Usage → (command : Asked) → ¬ AsksBy Verb.Same (rows_of (found_of matches.now)) command) }
{
    let Some(max_nodes) = limit_of(matches) else {
        return Err(WordsFault::Usage);
    };
    let left = match text_of(alloc, matches, "LEFT") {
        Ok(left) => left,
        Err(fault) => return Err(fault),
    };
    let right = match text_of(alloc, matches, "RIGHT") {
        Ok(right) => right,
        Err(fault) => return Err(fault),
    };
    Ok(Command::Same {
        left,
        right,
        max_nodes,
    })
}

/// What the matches of `gen K [--decide]` ask for.
fn gen_by(matches: &ArgMatches) -> Result<Command, WordsFault>
    ensures command { IfOk result (AsksBy Verb.Gen (rows_of (found_of matches.now))) }
    ensures usage { IfErr result (λ fault. fault ≡ WordsFault.Usage → (command : Asked) → ¬ AsksBy Verb.Gen (rows_of (found_of matches.now)) command) }
{
    let Some(number) = number_of(matches) else {
        return Err(WordsFault::Usage);
    };
    let decide = is_given(matches, "decide");
    Ok(Command::Gen { number, decide })
}

/// What the matches of `ltl FILE [--max-nodes N]` ask for.
fn ltl_by(alloc: Global, matches: &ArgMatches) -> Result<Command, WordsFault>
    ensures command { IfOk result (AsksBy Verb.Ltl (rows_of (found_of matches.now))) }
    ensures usage { IfErr result (λ fault. fault ≡ WordsFault.Usage → (command : Asked) → ¬ AsksBy Verb.Ltl (rows_of (found_of matches.now)) command) }
{
    match limited_file(alloc, matches) {
        Ok(LimitedFile { file, max_nodes }) => Ok(Command::Ltl { file, max_nodes }),
        Err(fault) => Err(fault),
    }
}

/// What the matches of `presburger FILE [--max-nodes N]` ask for.
fn presburger_by(alloc: Global, matches: &ArgMatches) -> Result<Command, WordsFault>
    ensures command { IfOk result (AsksBy Verb.Presburger (rows_of (found_of matches.now))) }
    ensures usage { IfErr result (λ fault. fault ≡ WordsFault.Usage → (command : Asked) → ¬ AsksBy Verb.Presburger (rows_of (found_of matches.now)) command) }
{
    match limited_file(alloc, matches) {
        Ok(LimitedFile { file, max_nodes }) => Ok(Command::Presburger { file, max_nodes }),
        Err(fault) => Err(fault),
    }
}

/// What the matches of `check NAME` ask for.
fn check_by(alloc: Global, matches: &ArgMatches) -> Result<Command, WordsFault>
    ensures command { IfOk result (AsksBy Verb.Check (rows_of (found_of matches.now))) }
    ensures usage { IfErr result (λ fault. fault ≡ WordsFault.Usage → (command : Asked) → ¬ AsksBy Verb.Check (rows_of (found_of matches.now)) command) }
{
    match text_of(alloc, matches, "NAME") {
        Ok(name) => Ok(Command::Check { name }),
        Err(fault) => Err(fault),
    }
}

/// What the matches of `certify FILE NAME [--max-nodes N]` ask for.
fn certify_by(alloc: Global, matches: &ArgMatches) -> Result<Command, WordsFault>
    ensures command { IfOk result (AsksBy Verb.Certify (rows_of (found_of matches.now))) }
    ensures usage { IfErr result (λ fault. fault ≡ WordsFault.Usage → (command : Asked) → ¬ AsksBy Verb.Certify (rows_of (found_of matches.now)) command) }
{
    let LimitedFile { file, max_nodes } = match limited_file(alloc, matches) {
        Ok(limited) => limited,
        Err(fault) => return Err(fault),
    };
    match text_of(alloc, matches, "NAME") {
        Ok(name) => Ok(Command::Certify {
            file,
            name,
            max_nodes,
        }),
        Err(fault) => Err(fault),
    }
}

/// What the matches of a command's words ask for.
fn asked_by(alloc: Global, verb: Verb, matches: &ArgMatches) -> Result<Command, WordsFault>
    ensures command { IfOk result (AsksBy verb (rows_of (found_of matches.now))) }
    ensures usage { IfErr result (λ fault. fault ≡ WordsFault.Usage → (command : Asked) → ¬ AsksBy verb (rows_of (found_of matches.now)) command) }
{
    match verb {
        Verb::Decide => decide_by(alloc, matches),
        Verb::Same => same_by(alloc, matches),
        Verb::Gen => gen_by(matches),
        Verb::Ltl => ltl_by(alloc, matches),
        Verb::Presburger => presburger_by(alloc, matches),
        Verb::Check => check_by(alloc, matches),
        Verb::Certify => certify_by(alloc, matches),
    }
}

/// Whether an error is want of memory, or that the words are no command.
fn fault(kind: ErrorKind) -> WordsFault
    ensures { result ≡ WordsFault.Usage → ¬ (kind ≡ ErrorKind.OutOfMemory) }
{
    match kind {
        ErrorKind::OutOfMemory => WordsFault::NoMemory,
        _ => WordsFault::Usage,
    }
}

/// What the words of a command ask for.
fn asked(alloc: Global, verb: Verb, words: &[Text]) -> Result<Command, WordsFault>
    ensures command { IfOk result (λ command. (fault_of (app_for verb) words.now ≡ []) × AsksBy verb (matches_of (app_for verb) words.now) command) }
    ensures usage { IfErr result (λ fault. fault ≡ WordsFault.Usage → (command : Asked) → fault_of (app_for verb) words.now ≡ [] → ¬ AsksBy verb (matches_of (app_for verb) words.now) command) }
{
    let Ok(texts) = texts(alloc, words) else {
        return Err(WordsFault::NoMemory);
    };
    let Ok(app) = app(alloc, verb) else {
        return Err(WordsFault::NoMemory);
    };
    match app.try_get_matches_from(texts.as_slice()) {
        Ok(matches) => asked_by(alloc, verb, &matches),
        Err(error) => Err(fault(error.kind())),
    }
}

/// Which command the word says that it is.
fn verb_in(word: &str) -> Option<Verb>
    ensures { result ≡ verb_in word.now }
{
    if word == "decide" {
        Some(Verb::Decide)
    } else if word == "same" {
        Some(Verb::Same)
    } else if word == "gen" {
        Some(Verb::Gen)
    } else if word == "ltl" {
        Some(Verb::Ltl)
    } else if word == "presburger" {
        Some(Verb::Presburger)
    } else if word == "check" {
        Some(Verb::Check)
    } else if word == "certify" {
        Some(Verb::Certify)
    } else {
        None
    }
}

/// Which command the first word says that it is.
fn first_verb(words: &[Text]) -> Option<Verb>
    ensures { result ≡ first_verb words.now }
{
    match words {
        [word, ..] => verb_in(word.text()),
        [] => None,
    }
}

/// What the words ask for: the first says which command it is, and `clap` reads the others.
pub fn options(alloc: Global, words: &CommandLine) -> Result<Command, WordsFault>
    ensures command { IfOk result (IsCommand words.now) }
    ensures usage { IfErr result (λ fault. fault ≡ WordsFault.Usage → (command : Asked) → ¬ IsCommand words.now command) }
{
    let words = words.slice();
    match first_verb(words) {
        Some(verb) => asked(alloc, verb, words),
        None => Err(WordsFault::Usage),
    }
}
