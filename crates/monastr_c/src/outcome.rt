ghost use Rattle.std.specs.Prelude.{◌≡◌, ◌↔◌, ◌≢◌, IfErr, IfOk, IsErrOf, IsTrue};
ghost use Rattle.ms_edge.specs.declared.refusal.Status.TheVariants as statuses;
ghost use Rattle.monastr_c.specs.declared.outcome.Fault.TheVariants.{Lengths, NoMemory, NotText};
ghost use Rattle.monastr_c.specs.Buffers.{FilesAddUp, files_in};
ghost use Rattle.monastr_c.specs.Ran.{Ran, number_of};
ghost use Rattle.monastr_c.specs.Reply.{sizes_of};
ghost use Rattle.monastr_c.specs.Request.{AddUp, AreTexts, IsOutcome, given_in};
ghost use Rattle.monastr_c.specs.inner.Outcomes.{outcome_of};

use crate::buffers::{Unread, add_up, files_add_up, names_are_text, words_of};
use crate::folder::Folder;
use crate::printed::Printed;
use crate::request::{Answer, FileLengths, Request};
use ms_app::run;
use ms_edge::{CommandLine, Status};
use std::alloc::Global;

/// Why a request comes to nothing.
#[derive(Clone, Copy)]
pub enum Fault {
    Lengths,
    NotText,
    NoMemory,
}

/// What a request came to: how it ended, what was printed, and the names and contents of the written files, with their lengths.
#[derive(Drop)]
pub struct Held {
    pub status: Status,
    pub text: Vec<u8>,
    pub written: Vec<u8>,
    pub lengths: Vec<FileLengths>,
}

impl Held {
    /// How much it needs.
    pub fn sizes(&self) -> Answer
        ensures { result ≡ sizes_of (outcome_of self.now) }
    {
        let text = self.text.len() as u64;
        Answer {
            text,
            bytes: text + self.written.len() as u64,
            files: self.lengths.len() as u64,
        }
    }

    /// The status of the program.
    pub fn number(&self) -> u32
        ensures { result ≡ number_of self.now.status }
    {
        match self.status {
            Status::Done => 0,
            Status::Usage => 1,
            Status::Refused => 2,
            Status::Limit => 3,
            Status::FileFault => 4,
            Status::SinkFault => 5,
            Status::NoMemory => 6,
        }
    }
}

/// Whether the lengths of a request add up to its bytes.
fn has_its_bytes(request: &Request<'_>) -> bool
    ensures { IsTrue result ↔ AddUp request.now }
{
    add_up(request.words.len() as u64, request.word_lengths)
        && files_add_up(request.files, request.file_lengths)
}

/// What a request comes to.
pub fn outcome(alloc: Global, request: &Request<'_>) -> Result<Held, Fault>
    ensures outcome { IfOk result (λ held. IsOutcome request.now (outcome_of held)) }
    ensures memory { IfOk result (λ held. held.status ≢ statuses.NoMemory) }
    ensures lengths { IsErrOf result Lengths ↔ (¬ AddUp request.now) }
    ensures not_text { IsErrOf result NotText → AddUp request.now × ¬ AreTexts request.now }
{
    if !has_its_bytes(request) {
        return Err(Fault::Lengths);
    }
    if !names_are_text(request.files, request.file_lengths) {
        return Err(Fault::NotText);
    }
    match words_of(alloc, request.words, request.word_lengths) {
        Ok(words) => come_to(alloc, &words, request),
        Err(Unread::NotText) => Err(Fault::NotText),
        Err(Unread::NoMemory) => Err(Fault::NoMemory),
    }
}

/// What the words come to over the files of the request, or nothing where there was no memory for it.
fn come_to(alloc: Global, words: &CommandLine, request: &Request<'_>) -> Result<Held, Fault>
    ensures ran { IfOk result (λ held. Ran words.now (given_in request.now) held.status held.text.items
        (files_in held.written.items held.lengths.items)) }
    ensures adds_up { IfOk result (λ held. FilesAddUp held.written.items held.lengths.items) }
    ensures memory { IfOk result (λ held. held.status ≢ statuses.NoMemory) }
    ensures only_memory { IfErr result (λ fault. fault ≡ NoMemory) }
{
    let mut folder = Folder::new(alloc, request.files, request.file_lengths);
    let mut printed = Printed::new(alloc);
    let status = run(alloc, words, &mut folder, &mut printed);
    if status == Status::NoMemory
        || folder.faults != 0
        || printed.faults != 0
        || !folder.is_over(request)
    {
        return Err(Fault::NoMemory);
    }
    Ok(Held {
        status,
        text: printed.taken,
        written: folder.written,
        lengths: folder.written_lengths,
    })
}
