//! From words to a job.

ghost use Rattle.std.specs.Prelude.{◌≡◌, codes, is_some, true, IfErr, IfOk, List};
ghost use Rattle.clap.specs.Words.{Text, first_of, found_of, rows_of};
ghost use Rattle.dh_arguments.specs.Jobs.{HandsOn, IsAnswer, IsBadFor, IsJobOf, IsReport, IsTyped, is_complete, question_fields};

use crate::commands::letting;
use crate::options::read_options;
use crate::questions::line_of;
use crate::typed_words::Words;
use crate::{BadWords, Job};
use clap::error::ErrorKind;
use clap::{ArgMatches, Error};
use dh_fields::read_question;
use dh_types::{EntryMonth, RunOrder};
use std::alloc::Global;

/// The first month of an agency in memory where none is given: 2025-01, counted as 12 * year + month - 1.
pub(crate) const DEFAULT_MONTH: u32 = 24300;

// Why the words ask for no job, where `clap` answers this.
fn refused(error: Error) -> BadWords
    ensures { HandsOn error result }
{
    match error.kind() {
        ErrorKind::OutOfMemory => BadWords::Memory,
        _ => BadWords::Refused(error),
    }
}

// The job of `report` at this file, where its words have these values.
fn report<'a>(alloc: Global, file: &'a str, values: &ArgMatches<'a>) -> Result<Job<'a>, BadWords>
    requires { is_some (first_of (codes "word") (rows_of (found_of values.now))) ≡ true }
    ensures { IsReport file.now (question_fields (rows_of (found_of values.now))) result }
{
    let fields = line_of(alloc, values.get_strs("word").unwrap())?;
    match read_question(&fields) {
        Ok(question) => Ok(Job::Report { file, question }),
        Err(refusal) => Err(BadWords::Question(refusal)),
    }
}

// The job of the subcommand of this name, where its words have these values.
fn job_of<'a>(alloc: Global, name: &str, values: &ArgMatches<'a>) -> Result<Job<'a>, BadWords>
    requires { is_complete name.now (rows_of (found_of values.now)) ≡ true }
    ensures { IsAnswer name.now (rows_of (found_of values.now)) result }
{
    let options = match read_options(values) {
        Ok(options) => options,
        Err(option) => return Err(BadWords::Value(option.name())),
    };
    match name {
        "init" => Ok(Job::Init {
            file: options.file.unwrap(),
            first: options.first.unwrap(),
        }),
        "batch" => Ok(Job::Batch {
            file: options.file,
            first: options
                .first
                .unwrap_or(EntryMonth::of_number(DEFAULT_MONTH)),
        }),
        "run" => Ok(Job::Run {
            file: options.file.unwrap(),
            order: RunOrder {
                key: options.key.unwrap(),
                month: options.month.unwrap(),
            },
            batches: options.batches,
        }),
        "recover" => Ok(Job::Recover {
            file: options.file.unwrap(),
        }),
        "migrate" => Ok(Job::Migrate {
            file: options.file.unwrap(),
        }),
        "report" => report(alloc, options.file.unwrap(), values),
        "serve" => Ok(Job::Serve {
            file: options.file.unwrap(),
            port: options.port.unwrap(),
            count: options.count.unwrap(),
        }),
        _ => unreachable!(),
    }
}

/// The job that the words behind the program's name ask for, as they were typed. `Refused` comes where `clap` does not take the words: they are
/// none of the table of subcommands, or ask for help. `Value` has the first option, in the order first, key, month,
/// batches, port, count, whose text is none of its values, even one that is then passed over. `Question` has the first bad
/// field of the question of a `report`, where `show` is field 1. `Memory` is want of memory.
pub fn job<'a>(alloc: Global, words: &'a Words) -> Result<Job<'a>, BadWords>
    ensures ok { (typed : List Text) → IsTyped typed words.now → IfOk result (IsJobOf typed) }
    ensures err { (typed : List Text) → IsTyped typed words.now → IfErr result (IsBadFor typed) }
{
    let matches = match letting(alloc)?.try_get_matches_from(words.texts.as_slice()) {
        Ok(matches) => matches,
        Err(error) => return Err(refused(error)),
    };
    match matches.subcommand() {
        Some((name, values)) => job_of(alloc, name, values),
        None => unreachable!(),
    }
}
