ghost use Rattle.std.specs.Prelude.{◌≡◌, [], true, IfErr, IfOk};
ghost use Rattle.std.specs.Option.{option_copied};
ghost use Rattle.ms_build.specs.Built.{IsLimit};
ghost use Rattle.ms_cert_check.specs.Check.{IsRefusedCheck};
ghost use Rattle.ms_edge.specs.Files.{OnlyRead, Seen, between};
ghost use Rattle.ms_app_words.specs.declared.command.Command.TheVariants.{Decide, Same, Gen, Ltl, Presburger, Check};
ghost use Rattle.ms_app.specs.Answer.{IsGivenFor, IsRefusedFor};
ghost use Rattle.ms_app.specs.Comparison.{comparison_text};
ghost use Rattle.ms_app.specs.Source.{names_for};
ghost use Rattle.ms_app.specs.inner.Files.{HaveOwnNames, pairs_of};

use crate::compare::{Pair, compare};
use crate::decide::{decide, decide_file};
use crate::files::AutomatonFile;
use crate::options::Options;
use crate::source::accept_text;
use crate::taken::Taken;
use ms_cert_check::check;
use ms_dfa::FileVersion;
use ms_edge::{Files, Refusal};
use ms_gen::generate;
use ms_list::{Bytes, List, Text};
use ms_ltlf_decide::decide_formula;
use ms_presburger_decide::decide_problem;
use ms_report::{report, summary};
use std::alloc::Global;

/// The most nodes and states of a step of a generated source.
const NODE_LIMIT: u64 = 16_777_216;

/// What a command asks for: the text to be printed, and the files to be written before.
pub struct Given {
    pub text: Bytes,
    pub files: List<AutomatonFile>,
}

impl Drop for Given {
    fn drop(self) {
        let Given { text: _, files: _ } = self;
    }
}

/// A text to be printed, with no file to be written.
fn text_alone(alloc: Global, text: Bytes) -> Given
    ensures text { result.text ≡ text }
    ensures files { pairs_of result.files ≡ [] }
{
    Given {
        text,
        files: List::new(alloc),
    }
}

/// The report on a file, and its automaton files.
pub fn decision<F: Files>(
    alloc: Global,
    name: &Text,
    options: Options,
    files: &mut F,
    names: &mut List<Text>,
) -> Result<Given, Refusal>
    requires first { names.old ≡ [] }
    requires limit { IsLimit options.max_nodes }
    requires named { options.outs.now ≡ names_for (option_copied options.out) }
    ensures given { IfOk result (λ given. IsGivenFor (Decide name.now (option_copied options.entry.out) options.entry.max_nodes options.entry.stats options.entry.format)
        (between (F.told files.old) (F.told files.new)) given.text (pairs_of given.files)) }
    ensures own_names { IfOk result (λ given. HaveOwnNames (pairs_of given.files)) }
    ensures refused { IfErr result (λ refusal. IsRefusedFor (Decide name.now (option_copied options.entry.out) options.entry.max_nodes options.entry.stats options.entry.format)
        (between (F.told files.old) (F.told files.new)) refusal names.new) }
    ensures only_read { OnlyRead (F.told files.old) (F.told files.new) }
{
    let decided = match decide_file(alloc, name, options, files, names) {
        Ok(decided) => decided,
        Err(refusal) => return Err(refusal),
    };
    match report(alloc, &decided.found) {
        Ok(text) => Ok(Given {
            text,
            files: decided.files,
        }),
        Err(_) => Err(Refusal::Memory),
    }
}

/// A line on the heap.
fn line(alloc: Global, text: &str) -> Result<Bytes, Refusal>
    ensures text { IfOk result (λ made. made ≡ text.now) }
    ensures refused { IfErr result (λ refusal. refusal ≡ Refusal.Memory) }
{
    match String::from_str(alloc, text) {
        Ok(text) => Ok(List::from(text.into_bytes())),
        Err(_) => Err(Refusal::Memory),
    }
}

/// The line on whether two files agree.
fn comparison_line(alloc: Global, agree: bool) -> Result<Bytes, Refusal>
    ensures text { IfOk result (λ made. made ≡ comparison_text agree) }
    ensures refused { IfErr result (λ refusal. refusal ≡ Refusal.Memory) }
{
    if agree {
        line(alloc, "agree\n")
    } else {
        line(alloc, "differ\n")
    }
}

/// Whether two files agree.
pub fn comparison<F: Files>(
    alloc: Global,
    pair: Pair,
    limit: u64,
    files: &mut F,
    names: &mut List<Text>,
) -> Result<Given, Refusal>
    requires first { names.old ≡ [] }
    requires limit { IsLimit limit }
    ensures given { IfOk result (λ given. IsGivenFor (Same pair.entry.left.now pair.entry.right.now limit) (between (F.told files.old) (F.told files.new)) given.text (pairs_of given.files)) }
    ensures own_names { IfOk result (λ given. HaveOwnNames (pairs_of given.files)) }
    ensures refused { IfErr result (λ refusal. IsRefusedFor (Same pair.entry.left.now pair.entry.right.now limit) (between (F.told files.old) (F.told files.new)) refusal names.new) }
    ensures only_read { OnlyRead (F.told files.old) (F.told files.new) }
{
    let agree = match compare(alloc, pair, limit, files, names) {
        Ok(agree) => agree,
        Err(refusal) => return Err(refusal),
    };
    match comparison_line(alloc, agree) {
        Ok(text) => Ok(text_alone(alloc, text)),
        Err(_) => Err(Refusal::Memory),
    }
}

/// The report on a formula of temporal logic.
pub fn formula_report<F: Files>(
    alloc: Global,
    name: &Text,
    limit: u64,
    files: &mut F,
    names: &mut List<Text>,
) -> Result<Given, Refusal>
    requires first { names.old ≡ [] }
    requires limit { IsLimit limit }
    ensures given { IfOk result (λ given. IsGivenFor (Ltl name.now limit) (between (F.told files.old) (F.told files.new)) given.text (pairs_of given.files)) }
    ensures no_files { IfOk result (λ given. pairs_of given.files ≡ []) }
    ensures refused { IfErr result (λ refusal. IsRefusedFor (Ltl name.now limit) (between (F.told files.old) (F.told files.new)) refusal names.new) }
    ensures only_read { OnlyRead (F.told files.old) (F.told files.new) }
{
    match decide_formula(alloc, name, limit, files, names) {
        Ok(text) => Ok(text_alone(alloc, text)),
        Err(refusal) => Err(refusal),
    }
}

/// The report on a formula of linear arithmetic.
pub fn problem_report<F: Files>(
    alloc: Global,
    name: &Text,
    limit: u64,
    files: &mut F,
    names: &mut List<Text>,
) -> Result<Given, Refusal>
    requires first { names.old ≡ [] }
    requires limit { IsLimit limit }
    ensures given { IfOk result (λ given. IsGivenFor (Presburger name.now limit) (between (F.told files.old) (F.told files.new)) given.text (pairs_of given.files)) }
    ensures own_names { IfOk result (λ given. HaveOwnNames (pairs_of given.files)) }
    ensures refused { IfErr result (λ refusal. IsRefusedFor (Presburger name.now limit) (between (F.told files.old) (F.told files.new)) refusal names.new) }
    ensures only_read { OnlyRead (F.told files.old) (F.told files.new) }
{
    match decide_problem(alloc, name, limit, files, names) {
        Ok(text) => Ok(text_alone(alloc, text)),
        Err(refusal) => Err(refusal),
    }
}

/// What the certificate of an automaton file proves.
pub fn certificate_report<F: Files>(
    alloc: Global,
    name: &Text,
    files: &mut F,
) -> Result<Given, Refusal>
    ensures given { IfOk result (λ given. IsGivenFor (Check name.now) (between (F.told files.old) (F.told files.new)) given.text (pairs_of given.files)) }
    ensures own_names { IfOk result (λ given. HaveOwnNames (pairs_of given.files)) }
    ensures refused { IfErr result (IsRefusedCheck (between (F.told files.old) (F.told files.new)) name.now) }
    ensures only_read { OnlyRead (F.told files.old) (F.told files.new) }
{
    match check(alloc, name, files) {
        Ok(text) => Ok(text_alone(alloc, text)),
        Err(refusal) => Err(refusal),
    }
}

/// The summary of the generated source with this number.
fn generation_summary(alloc: Global, number: u64, names: &mut List<Text>) -> Result<Given, Refusal>
    requires first { names.old ≡ [] }
    ensures given { IfOk result (λ given. (seen : Seen) → IsGivenFor (Gen number true) seen given.text (pairs_of given.files)) }
    ensures no_files { IfOk result (λ given. pairs_of given.files ≡ []) }
    ensures refused { IfErr result (λ refusal. (seen : Seen) → IsRefusedFor (Gen number true) seen refusal names.new) }
{
    let text = match generate(alloc, number) {
        Ok(text) => text,
        Err(refusal) => return Err(refusal),
    };
    let bytes = text.len() as u64;
    let source = match accept_text(alloc, "generated", text, names) {
        Ok(source) => source,
        Err(refusal) => return Err(refusal),
    };
    let taken = Taken {
        source,
        imports: List::new(alloc),
    };
    let options = Options {
        max_nodes: NODE_LIMIT,
        stats: true,
        out: None,
        outs: &[],
        format: FileVersion::Two,
    };
    let decided = match decide(alloc, &taken, options) {
        Ok(decided) => decided,
        Err(refusal) => return Err(refusal),
    };
    match summary(alloc, number, bytes, &decided.found) {
        Ok(text) => Ok(Given {
            text,
            files: decided.files,
        }),
        Err(_) => Err(Refusal::Memory),
    }
}

/// The generated source with this number, or the summary of it where it is decided.
pub fn generation(
    alloc: Global,
    number: u64,
    decide: bool,
    names: &mut List<Text>,
) -> Result<Given, Refusal>
    requires first { names.old ≡ [] }
    ensures given { IfOk result (λ given. (seen : Seen) → IsGivenFor (Gen number decide) seen given.text (pairs_of given.files)) }
    ensures no_files { IfOk result (λ given. pairs_of given.files ≡ []) }
    ensures refused { IfErr result (λ refusal. (seen : Seen) → IsRefusedFor (Gen number decide) seen refusal names.new) }
{
    if decide {
        generation_summary(alloc, number, names)
    } else {
        match generate(alloc, number) {
            Ok(text) => Ok(text_alone(alloc, text)),
            Err(refusal) => Err(refusal),
        }
    }
}
