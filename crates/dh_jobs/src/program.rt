//! What the words behind the program's name ask for, done.

ghost use Rattle.std.specs.Prelude.{◌≡◌, ℕ, List, [], ◌∷◌, MatchResult, codes, map, string_bytes};
ghost use Rattle.sqlite_wal.specs.Files.{image_at};
ghost use Rattle.dh_arguments.specs.Jobs.{IsBadFor, usual_first};
ghost use Rattle.dh_types.specs.Output.{Puts};
ghost use Rattle.dh_jobs.specs.Desk.{AskedEnds, BadPrints, BatchEnds, DeskEnds, IsLineOf, MessagePrints, SaysMessage, SaysNoMessage};
ghost use Rattle.dh_jobs.specs.Desk.{said_status, unsaid_status};
ghost use Rattle.dh_jobs.specs.Ends.{MemoryLinesEnd};
ghost use Rattle.dh_jobs.specs.Statuses.{IsBad};

use crate::files::{begin_in_memory, do_on_file, make_on_file};
use crate::jobs::Work;
use crate::messages::{end_by_fault, print_fault, print_refusal, status_if_written};
use crate::status::{Failure, Status};
use crate::store_jobs::FileJob;
use clap::Error;
use clap::error::ErrorKind;
use dh_arguments::{BadWords, Job, Words, job};
use dh_http::{Patience, Service};
use dh_types::text_writer::put_pieces;
use dh_types::{EntryMonth, Fault, Output, Request};
use sqlite::{FileFrom, Start, Unknown};
use sqlite_disk::Disk;
use std::alloc::{AllocError, Global};
use std::io::{Read, Write};

/// Words that ask for nothing are bad, whether it could be written why or not; the status says which.
pub(crate) fn refused(outcome: Result<(), Output>) -> Status
    ensures { result ≡ Status.BadWords outcome }
{
    Status::BadWords(outcome)
}

// How the program ends where a message was written so: help is all that was asked for, or the words are bad.
fn said(kind: ErrorKind, outcome: Result<(), Output>) -> Status
    ensures { result ≡ said_status kind outcome }
{
    match kind {
        ErrorKind::DisplayHelp | ErrorKind::DisplayVersion => status_if_written(
            outcome,
            Status::Done,
        ),
        _ => refused(outcome),
    }
}

// The same where there was no memory for the message, and the line of that fault was written so.
fn unsaid(kind: ErrorKind, outcome: Result<(), Output>) -> Status
    ensures { result ≡ unsaid_status kind outcome }
{
    match kind {
        ErrorKind::DisplayHelp | ErrorKind::DisplayVersion => {
            Status::Failed(Failure::Fault(Fault::Memory, outcome))
        }
        _ => refused(outcome),
    }
}

// Writes the text of a message, with one line feed at its end.
fn put_message<W: Write>(writer: &mut W, text: &str) -> Result<(), Output>
    ensures { (line : List ℕ) × IsLineOf text.now line × Puts (W.contents writer.old) (W.contents writer.new) result line }
{
    let message = text.trim_end_matches('\n');
    put_pieces(writer, &[message.as_bytes(), b"\n"])
}

// Prints a message of this kind. Where there is no memory for it, that is told.
fn print_text<W: Write>(kind: ErrorKind, text: Result<String, AllocError>, writer: &mut W) -> Status
    ensures { MatchResult text (λ text. SaysMessage kind (string_bytes text) (W.contents writer.old) (W.contents writer.new) result)
        (λ _. SaysNoMessage kind (W.contents writer.old) (W.contents writer.new) result) }
{
    match text {
        Ok(text) => {
            let outcome = put_message(writer, text.as_str());
            said(kind, outcome)
        }
        Err(_) => {
            let outcome = print_fault(writer, Fault::Memory);
            unsaid(kind, outcome)
        }
    }
}

// Prints what `clap` says of the words: that they are bad, or help.
fn print_message<W: Write>(alloc: Global, error: &Error, writer: &mut W) -> Status
    ensures { MessagePrints error.now (W.contents writer.old) (W.contents writer.new) result }
{
    print_text(error.kind(), error.to_string(alloc), writer)
}

// Says why the words ask for no job.
fn refuse<W: Write>(alloc: Global, bad: &BadWords, writer: &mut W) -> Status
    ensures { BadPrints bad.now (W.contents writer.old) (W.contents writer.new) result }
{
    match bad {
        BadWords::Refused(error) => print_message(alloc, error, writer),
        BadWords::Value(option) => {
            refused(put_pieces(writer, &[b"bad ", option.as_bytes(), b"\n"]))
        }
        BadWords::Question(refusal) => refused(print_refusal(writer, *refusal)),
        BadWords::Memory => end_by_fault(writer, Fault::Memory),
    }
}

// Answers lines on a file, or in memory where none is named.
fn do_batch<S: Start, R: Read, W: Write>(
    rt: &HostRuntime,
    start: S,
    file: Option<&str>,
    first: EntryMonth,
    reader: &mut R,
    writer: &mut W,
) -> Status
    ensures { BatchEnds ⟦<FileFrom<S> as Disk>⟧ (image_at S.Start) file.entry first (R.remaining reader.old)
        (W.contents writer.old) (W.contents writer.new) result }
{
    match file {
        Some(file) => do_on_file(rt, start, file, FileJob::Work(Work::Lines), reader, writer),
        None => begin_in_memory(rt.alloc(), first, reader, writer),
    }
}

// Does the job.
fn do_asked<S: Start, R: Read, W: Write>(
    rt: &HostRuntime,
    start: S,
    job: &Job<'_>,
    reader: &mut R,
    writer: &mut W,
) -> Status
    ensures { AskedEnds ⟦<FileFrom<S> as Disk>⟧ (image_at S.Start) job.now (R.remaining reader.old) (W.contents writer.old) (W.contents writer.new) result }
{
    match job {
        Job::Init { file, first } => make_on_file(rt, start, file, *first, writer),
        Job::Batch { file, first } => do_batch(rt, start, *file, *first, reader, writer),
        Job::Run {
            file,
            order,
            batches,
        } => do_on_file(
            rt,
            start,
            file,
            FileJob::Work(Work::run(*order, *batches)),
            reader,
            writer,
        ),
        Job::Recover { file } => do_on_file(rt, start, file, FileJob::Recover, reader, writer),
        Job::Migrate { file } => do_on_file(rt, start, file, FileJob::Migrate, reader, writer),
        Job::Report { file, question } => do_on_file(
            rt,
            start,
            file,
            FileJob::Work(Work::Ask(Request::Question(*question), None)),
            reader,
            writer,
        ),
        Job::Serve { file, port, count } => {
            let service = Service {
                port: *port,
                count: *count,
                patience: Patience::standard(),
            };
            do_on_file(rt, start, file, FileJob::Serve(service), reader, writer)
        }
    }
}

/// Does what the words behind the program's name ask for, with these as its input and output, and tells how the program ends. The words
/// are judged first; help and what is said of bad words goes to the output too. `start` stands for what the file holds as it is opened.
pub fn desk_from<S: Start, R: Read, W: Write>(
    rt: &HostRuntime,
    start: S,
    words: &[&str],
    reader: &mut R,
    writer: &mut W,
) -> Status
    ensures ends { DeskEnds ⟦<FileFrom<S> as Disk>⟧ (image_at S.Start)
        (map (λ word. word.now) words.now) (R.remaining reader.old) (W.contents writer.old) (W.contents writer.new) result }
    // The lines are answered in memory, from 2025-01 on.
    ensures batch { map (λ word. word.now) words.now ≡ codes "batch" ∷ []
        → MemoryLinesEnd (W.contents writer.old) (W.contents writer.new) usual_first (R.remaining reader.old) result }
    ensures bad_words { IsBad result → (why : BadWords) × IsBadFor (map (λ word. word.now) words.now) why }
{
    let Ok(words) = Words::join(rt.alloc(), words) else {
        return end_by_fault(writer, Fault::Memory);
    };
    match job(rt.alloc(), &words) {
        Ok(job) => do_asked(rt, start, &job, reader, writer),
        Err(bad) => refuse(rt.alloc(), &bad, writer),
    }
}

/// The same, for code that states nothing of what the file held: of a file that is not empty only what is printed is said.
pub fn desk<R: Read, W: Write>(
    rt: &HostRuntime,
    words: &[&str],
    reader: &mut R,
    writer: &mut W,
) -> Status
    ensures ends { DeskEnds ⟦<FileFrom<Unknown> as Disk>⟧ (image_at ⟦<Unknown as Start>⟧)
        (map (λ word. word.now) words.now) (R.remaining reader.old) (W.contents writer.old) (W.contents writer.new) result }
    ensures batch { map (λ word. word.now) words.now ≡ codes "batch" ∷ []
        → MemoryLinesEnd (W.contents writer.old) (W.contents writer.new) usual_first (R.remaining reader.old) result }
    ensures bad_words { IsBad result → (why : BadWords) × IsBadFor (map (λ word. word.now) words.now) why }
{
    desk_from(rt, Unknown, words, reader, writer)
}
