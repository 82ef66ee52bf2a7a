ghost use Rattle.std.specs.Prelude.{◌≡◌, [], IfErr, IfOk};
ghost use Rattle.ms_build.specs.Built.{IsLimit};
ghost use Rattle.ms_cert_check.specs.Certified.{IsCanonicalFile};
ghost use Rattle.ms_cert_check.specs.Files.{cert_name};
ghost use Rattle.ms_edge.specs.Files.{OnlyRead, between};
ghost use Rattle.ms_app_words.specs.declared.command.Command.TheVariants.{Certify};
ghost use Rattle.ms_app.specs.Answer.{IsGivenFor, IsRefusedFor};
ghost use Rattle.ms_app.specs.Certification.{names_to_certify};
ghost use Rattle.ms_app.specs.Written.{File};
ghost use Rattle.ms_app.specs.inner.Files.{HaveOwnNames, IsLast, IsWithCertificate, pairs_of};

use crate::decide::decide_file;
use crate::files::AutomatonFile;
use crate::options::Options;
use crate::text::Given;
use ms_cert_check::{cert_name, certify};
use ms_dfa::FileVersion;
use ms_edge::{Files, Refusal};
use ms_list::{List, NoMemory, Text, push};
use ms_report::report;
use std::alloc::Global;

/// A source that is to be certified: its file, the name of the automaton file of its main value, and the greatest number of nodes
/// and states of a step.
#[derive(Clone, Copy)]
pub struct ToCertify<'a> {
    pub file: &'a Text,
    pub name: &'a Text,
    pub max_nodes: u64,
}

/// The names of the automaton file of the main value and of its certificate.
fn names_to_certify(alloc: Global, name: &Text) -> Result<List<Text>, Refusal>
    ensures names { IfOk result (λ made. made ≡ names_to_certify name.now) }
    ensures refused { IfErr result (λ refusal. refusal ≡ Refusal.Memory) }
{
    let Ok(own) = Text::new(alloc, name.text()) else {
        return Err(Refusal::Memory);
    };
    let beside = match cert_name(alloc, name) {
        Ok(beside) => beside,
        Err(refusal) => return Err(refusal),
    };
    let mut names = List::new(alloc);
    let Ok(()) = push(&mut names, own) else {
        return Err(Refusal::Memory);
    };
    match push(&mut names, beside) {
        Ok(()) => Ok(names),
        Err(_) => Err(Refusal::Memory),
    }
}

/// The files with one more, a certificate of the last of them, under this name.
fn add_certificate(
    alloc: Global,
    mut files: List<AutomatonFile>,
    name: Text,
) -> Result<List<AutomatonFile>, NoMemory>
    requires { (last : File) × IsLast (pairs_of files) last × IsCanonicalFile last.1 }
    ensures { IfOk result (λ more. IsWithCertificate (pairs_of files) name (pairs_of more)) }
{
    let Some(last) = files.slice().last() else {
        return Err(NoMemory);
    };
    let bytes = certify(alloc, last.bytes.slice())?;
    push(&mut files, AutomatonFile { name, bytes })?;
    Ok(files)
}

/// The report on a file, its automaton files, and behind them the certificate of that of its main value.
pub fn certification<F: Files>(
    alloc: Global,
    wanted: ToCertify,
    files: &mut F,
    names: &mut List<Text>,
) -> Result<Given, Refusal>
    requires first { names.old ≡ [] }
    requires limit { IsLimit wanted.max_nodes }
    ensures given { IfOk result (λ given. IsGivenFor (Certify wanted.entry.file.now wanted.entry.name.now wanted.entry.max_nodes)
        (between (F.told files.old) (F.told files.new)) given.text (pairs_of given.files)) }
    ensures own_names { IfOk result (λ given. HaveOwnNames (pairs_of given.files)) }
    ensures refused { IfErr result (λ refusal. IsRefusedFor (Certify wanted.entry.file.now wanted.entry.name.now wanted.entry.max_nodes)
        (between (F.told files.old) (F.told files.new)) refusal names.new) }
    ensures only_read { OnlyRead (F.told files.old) (F.told files.new) }
{
    let outs = match names_to_certify(alloc, wanted.name) {
        Ok(outs) => outs,
        Err(refusal) => return Err(refusal),
    };
    let options = Options {
        max_nodes: wanted.max_nodes,
        stats: false,
        out: Some(wanted.name),
        outs: outs.slice(),
        format: FileVersion::Two,
    };
    let decided = match decide_file(alloc, wanted.file, options, files, names) {
        Ok(decided) => decided,
        Err(refusal) => return Err(refusal),
    };
    let Ok(text) = report(alloc, &decided.found) else {
        return Err(Refusal::Memory);
    };
    let beside = match cert_name(alloc, wanted.name) {
        Ok(beside) => beside,
        Err(refusal) => return Err(refusal),
    };
    match add_certificate(alloc, decided.files, beside) {
        Ok(files) => Ok(Given { text, files }),
        Err(_) => Err(Refusal::Memory),
    }
}
