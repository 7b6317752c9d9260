//! The words of the process, the program's name first, and how it ends.

ghost use Rattle.std.specs.Prelude.{◌≡◌, IfOk, MatchResult, map, string_bytes};
ghost use Rattle.std.specs.IoError.{error_kind};
ghost use Rattle.std.specs.Vec.Iter.{into_iter_items};
ghost use Rattle.sqlite_wal.specs.Files.{image_at};
ghost use Rattle.dh_jobs.specs.Process.{UnreadPrints, WordsEnd, behind_name};
ghost use Rattle.dh_jobs.specs.Statuses.{status_code};
ghost use Rattle.dh_jobs.specs.declared.status.Status.{Status};

use crate::messages::end_by_fault;
use crate::program::{desk_from, refused};
use crate::status::Status;
use dh_types::Fault;
use dh_types::text_writer::put;
use sqlite::{FileFrom, Start};
use sqlite_disk::Disk;
use std::alloc::{AllocError, Global};
use std::env::Args;
use std::io;
use std::io::{ErrorKind, Read, Write};

// The words behind the program's name.
fn behind_name(words: &[String]) -> &[String]
    ensures { result.now ≡ behind_name words.now }
{
    match words.split_first() {
        Some((_, behind)) => behind,
        None => words,
    }
}

// The texts of the words.
fn texts_of<'a>(alloc: Global, words: &'a [String]) -> Result<Vec<&'a str>, AllocError>
    ensures { IfOk result (λ texts. map (λ text. text.now) texts.items ≡ map string_bytes words.now) }
{
    let mut texts = Vec::new(alloc);
    for word in words {
        texts.push(word.as_str())?;
    }
    Ok(texts)
}

// All the words, in their order.
fn all_of(alloc: Global, words: Args) -> Result<Vec<String>, AllocError>
    ensures { IfOk result (λ all. all.items ≡ into_iter_items words) }
{
    let mut all = Vec::new(alloc);
    for word in words {
        all.push(word)?;
    }
    Ok(all)
}

/// Does what the words of a process ask for, of which the first is the program's name, with these as its input and output, and tells how
/// the process ends: its exit status is the `code` of that. `start` stands for what the file holds as it is opened: a program passes
/// `Unknown`.
pub fn run_words<S: Start, R: Read, W: Write>(
    rt: &HostRuntime,
    start: S,
    words: &[String],
    reader: &mut R,
    writer: &mut W,
) -> Status
    ensures { WordsEnd ⟦<FileFrom<S> as Disk>⟧ (image_at S.Start) (map string_bytes words.now) (R.remaining reader.old) (W.contents writer.old)
        (W.contents writer.new) result }
{
    match texts_of(rt.alloc(), behind_name(words)) {
        Ok(texts) => desk_from(rt, start, &texts, reader, writer),
        Err(_) => end_by_fault(writer, Fault::Memory),
    }
}

/// Says why the words of a process can't be had, and tells how it ends: `BadWords` where one of the words is no text, and fault 21 where
/// memory ran out.
pub fn refuse_words<W: Write>(error: &io::Error, writer: &mut W) -> Status
    ensures { UnreadPrints (error_kind error.now) (W.contents writer.old) (W.contents writer.new) result }
{
    if error.kind() == ErrorKind::InvalidData {
        return refused(put(
            writer,
            b"error: invalid UTF-8 was detected in one or more arguments\n",
        ));
    }
    end_by_fault(writer, Fault::Memory)
}

// Does what the words ask for that `std` gives of a process, or tells why it gives none.
fn answer_process<S: Start, R: Read, W: Write>(
    rt: &HostRuntime,
    start: S,
    words: io::Result<Args>,
    reader: &mut R,
    writer: &mut W,
) -> Status
    ensures { MatchResult words
        (λ words. WordsEnd ⟦<FileFrom<S> as Disk>⟧ (image_at S.Start) (map string_bytes (into_iter_items words)) (R.remaining reader.old)
        (W.contents writer.old) (W.contents writer.new) result)
        (λ error. UnreadPrints (error_kind error) (W.contents writer.old) (W.contents writer.new) result) }
{
    match words {
        Ok(words) => match all_of(rt.alloc(), words) {
            Ok(words) => run_words(rt, start, &words, reader, writer),
            Err(_) => end_by_fault(writer, Fault::Memory),
        },
        Err(error) => refuse_words(&error, writer),
    }
}

/// The whole process: does what its words ask for, as `std` gives them, with these as its input and output, and gives its exit status. `start`
/// stands for what the file holds as it is opened: a program passes `Unknown`.
pub fn exit_code<S: Start, R: Read, W: Write>(
    rt: &HostRuntime,
    start: S,
    words: io::Result<Args>,
    reader: &mut R,
    writer: &mut W,
) -> u8
    ensures { (status : Status) × (result ≡ status_code status) × MatchResult words
        (λ words. WordsEnd ⟦<FileFrom<S> as Disk>⟧ (image_at S.Start) (map string_bytes (into_iter_items words)) (R.remaining reader.old)
        (W.contents writer.old) (W.contents writer.new) status)
        (λ error. UnreadPrints (error_kind error) (W.contents writer.old) (W.contents writer.new) status) }
{
    answer_process(rt, start, words, reader, writer).code()
}
