ghost use Rattle.std.specs.Prelude.{◌≡◌, ℕ, [], List, IfErr, IfOk};
ghost use Rattle.ms_edge.specs.Counts.{Rose};
ghost use Rattle.ms_edge.specs.Files.{OnlyRead, between};
ghost use Rattle.ms_edge.specs.Sink.{grown};
ghost use Rattle.ms_app_words.specs.Command.{IsCommand};
ghost use Rattle.ms_app_words.specs.declared.command.Command.{Command as Asked};
ghost use Rattle.ms_app.specs.Answer.{IsAnswered, IsAnsweredFor, IsDelivered, IsDone, IsGeneration, IsGivenFor, IsLimited, IsRefusedFor};
ghost use Rattle.ms_app.specs.Completeness.{IsComplete, IsDoneIfFavoured};
ghost use Rattle.ms_app.specs.Source.{names_for};
ghost use Rattle.ms_app.specs.inner.Delivery.{WasDelivered};
ghost use Rattle.ms_app.specs.inner.Files.{HaveOwnNames, pairs_of};

use crate::certification::{ToCertify, certification};
use crate::compare::Pair;
use crate::options::Options;
use crate::print::{out_of_memory, print, print_unwritten, refuse};
use crate::text::{
    Given, certificate_report, comparison, decision, formula_report, generation, problem_report,
};
use crate::write::write_each;
use ms_app_words::{Command, WordsFault, options};
use ms_edge::{CommandLine, Files, Refusal, Sink, Status};
use ms_list::{List, Text};
use std::alloc::Global;
use std::slice;

/// The name of the file of the main value, if one is named, in a list.
fn names_of(out: &Option<Text>) -> &[Text]
    ensures { result.now ≡ names_for out.now }
{
    match out {
        Some(name) => slice::from_ref(name),
        None => &[],
    }
}

/// What a command asks for, by what the files hold. The files that a refusal numbers are in `names`.
fn given<F: Files>(
    alloc: Global,
    command: &Command,
    files: &mut F,
    names: &mut List<Text>,
) -> Result<Given, Refusal>
    requires first { names.old ≡ [] }
    requires limited { IsLimited command.now }
    ensures given { IfOk result (λ given. IsGivenFor command.now (between (F.told files.old) (F.told files.new)) given.text (pairs_of given.files)) }
    ensures own_names { IfOk result (λ given. HaveOwnNames (pairs_of given.files)) }
    ensures refused { IfErr result (λ refusal. IsRefusedFor command.now (between (F.told files.old) (F.told files.new)) refusal names.new) }
    ensures only_read { OnlyRead (F.told files.old) (F.told files.new) }
    ensures generated { IsGeneration command.now → F.told files.new ≡ F.told files.old }
    ensures no_files { IsGeneration command.now → IfOk result (λ given. pairs_of given.files ≡ []) }
{
    match command {
        Command::Decide {
            file,
            out,
            max_nodes,
            stats,
            format,
        } => {
            let options = Options {
                max_nodes: *max_nodes,
                stats: *stats,
                out: out.as_ref(),
                outs: names_of(out),
                format: *format,
            };
            decision(alloc, file, options, files, names)
        }
        Command::Same {
            left,
            right,
            max_nodes,
        } => comparison(alloc, Pair { left, right }, *max_nodes, files, names),
        Command::Gen { number, decide } => generation(alloc, *number, *decide, names),
        Command::Ltl { file, max_nodes } => formula_report(alloc, file, *max_nodes, files, names),
        Command::Presburger { file, max_nodes } => {
            problem_report(alloc, file, *max_nodes, files, names)
        }
        Command::Check { name } => certificate_report(alloc, name, files),
        Command::Certify {
            file,
            name,
            max_nodes,
        } => {
            let wanted = ToCertify {
                file,
                name,
                max_nodes: *max_nodes,
            };
            certification(alloc, wanted, files, names)
        }
    }
}

/// Writes the files, and prints the text, or the line of a file that was not written.
fn deliver<F: Files, S: Sink>(given: &Given, files: &mut F, out: &mut S) -> Status
    requires { HaveOwnNames (pairs_of given.now.files) }
    ensures delivered { WasDelivered (F.told files.old) (F.told files.new) (S.told out.old) (S.told out.new) given.now.text (pairs_of given.now.files) result }
    ensures untouched { pairs_of given.now.files ≡ [] → F.told files.new ≡ F.told files.old }
    ensures not_usage { ¬ (result ≡ Status.Usage) }
    ensures sink_only { result ≡ Status.SinkFault → Rose (S.told out.old).faults (S.told out.new).faults }
{
    match write_each(given.files.slice(), files) {
        Ok(()) => print(out, Status::Done, given.text.slice()),
        Err(place) => print_unwritten(&given.files.get(place).name, out),
    }
}

/// Does what a command asks for, and prints its text or the line of its refusal.
fn answer<F: Files, S: Sink>(alloc: Global, command: &Command, files: &mut F, out: &mut S) -> Status
    requires { IsLimited command.now }
    ensures answered { IsAnsweredFor command.now (S.told out.old) (S.told out.new) (between (F.told files.old) (F.told files.new)) result }
    ensures done { result ≡ Status.Done → (text : List ℕ) × IsDelivered command.now (between (F.told files.old) (F.told files.new)) text
        × ((S.told out.new).taken ≡ grown (S.told out.old).taken text) }
    ensures generated { IsGeneration command.now → F.told files.new ≡ F.told files.old }
    ensures not_usage { ¬ (result ≡ Status.Usage) }
    ensures sink_only { result ≡ Status.SinkFault → Rose (S.told out.old).faults (S.told out.new).faults }
{
    let mut names = List::new(alloc);
    match given(alloc, command, files, &mut names) {
        Ok(given) => deliver(&given, files, out),
        Err(refusal) => refuse(alloc, &refusal, &names, out),
    }
}

/// Does what the words ask: `decide FILE [--out NAME] [--max-nodes N] [--stats] [--format V]` reads the file, writes the automata that it
/// exports and that of its main value to NAME, in version V, and reports on its formula; `same LEFT RIGHT [--max-nodes N]` says whether the main values of
/// two files agree; `gen K [--decide]` prints the generated source with this number, or decides it; `ltl FILE [--max-nodes N]` reports on a
/// formula of linear temporal logic on finite traces, and `presburger FILE [--max-nodes N]` on one of linear arithmetic over the natural
/// numbers; `certify FILE NAME [--max-nodes N]` does what `decide FILE --out NAME` does, and writes a certificate of NAME to NAME.cert; `check NAME`
/// says what the certificate NAME.cert proves of the automaton file NAME. The words are those after the program's name. What is printed goes to the sink: the text, or one line where the request is refused or a file is not written
/// (docs/FORMATS.md).
pub fn run<F: Files, S: Sink>(
    alloc: Global,
    words: &CommandLine,
    files: &mut F,
    out: &mut S,
) -> Status
    // Words that are no command are answered so. A file is decided, its automata are written, and the report on it is printed; two files
    // are compared; a source is generated, and decided; a formula is decided over all traces, or over all natural numbers; an automaton file
    // is checked by its certificate, or written with one; or the request is refused for a cause, with nothing written, or one of the files
    // is not, and the line of this is printed.
    ensures answered { IsAnswered words.now (S.told out.old) (S.told out.new) (between (F.told files.old) (F.told files.new)) result }

    // Done comes only with what the words asked for; usage only where the words are no command; and a fault of the sink
    // only where the sink's faults rose.
    ensures done { result ≡ Status.Done → IsDone words.now (S.told out.old) (S.told out.new) (between (F.told files.old) (F.told files.new)) }
    ensures usage_only { result ≡ Status.Usage → (command : Asked) → ¬ IsCommand words.now command }
    ensures sink_only { result ≡ Status.SinkFault → Rose (S.told out.old).faults (S.told out.new).faults }

    // To generate a source, or to decide it, no file is read and none is changed.
    ensures generated { (command : Asked) → IsCommand words.now command → IsGeneration command → F.told files.new ≡ F.told files.old }

    // What can be done is done where nothing outside fails, unless memory is wanting; or nodes in a step, under a limit that is not enough.
    ensures complete { IsComplete words.now (S.told out.old) (S.told out.new) (between (F.told files.old) (F.told files.new)) result }

    // So where the limit is enough, it is done, unless memory is wanting.
    ensures favoured { IsDoneIfFavoured words.now (S.told out.old) (S.told out.new) (between (F.told files.old) (F.told files.new)) result }
{
    match options(alloc, words) {
        Ok(command) => answer(alloc, &command, files, out),
        Err(WordsFault::Usage) => print(
            out,
            Status::Usage,
            b"usage: the words are not a command of monastr\n",
        ),
        Err(WordsFault::NoMemory) => out_of_memory(out),
    }
}
