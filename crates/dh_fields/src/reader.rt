//! Reading the lines that an agency is given.

ghost use Rattle.std.specs.Prelude.{◌≡◌, map, bytes_eq, codes, MatchResult};
ghost use Rattle.csv.specs.Records.{fields_of};
ghost use Rattle.dh_fields.specs.Lines.{IsShown, a_question, field, request_of};
ghost use Rattle.dh_fields.specs.Readings.{IsAsWanted, WantsText, wants_text};

use crate::commands::read_command;
use crate::line::Line;
use crate::questions::read_shown;
use crate::unread::Unread;
use csv::ByteRecord;
use dh_types::{Question, Refusal, Request};
use std::alloc::{AllocError, Global};

fn read_request(alloc: Global, line: &Line) -> Result<Request, Unread>
    ensures { IsAsWanted result (request_of line.now) (wants_text line.now) }
{
    if line.text(1)? == "show" {
        Ok(Request::Question(read_shown(line)?))
    } else {
        Ok(Request::Command(read_command(alloc, line)?))
    }
}

fn judge(alloc: Global, line: &Line) -> Result<Result<Request, Refusal>, AllocError>
    ensures { MatchResult result (λ r. r ≡ request_of line.now) (λ _. WantsText line.now) }
{
    match read_request(alloc, line) {
        Ok(request) => Ok(Ok(request)),
        Err(Unread::Field(number)) => Ok(Err(Refusal::BadLine(number))),
        Err(Unread::Memory) => Err(AllocError),
    }
}

/// The request that the fields of a line are. A `BadLine` has the number of the first field, from 1 on,
/// that is wrong, missing or too many. An error comes only for want of memory, and only of a line
/// with texts: each field before its first text is good, and that text is there.
pub fn read_fields(alloc: Global, fields: &[&[u8]]) -> Result<Result<Request, Refusal>, AllocError>
    ensures { MatchResult result (λ r. r ≡ request_of (map (λ f. f.now) fields.now)) (λ _. WantsText (map (λ f. f.now) fields.now)) }
{
    judge(alloc, &Line::of_fields(fields))
}

/// The question that the fields of a line are, the first of which is `show`. A `BadLine` has the number of the first field, from 1
/// on, that is wrong, missing or too many. No memory is wanted for it.
pub fn read_question(fields: &[&[u8]]) -> Result<Question, Refusal>
    requires { IsShown (map (λ f. f.now) fields.now) }
    ensures { a_question result ≡ request_of (map (λ f. f.now) fields.now) }
{
    match read_shown(&Line::of_fields(fields)) {
        Ok(question) => Ok(question),
        Err(Unread::Field(number)) => Err(Refusal::BadLine(number)),
        Err(Unread::Memory) => unreachable!(),
    }
}

/// The request that a record's fields are. A `BadLine` has the number of the first field, from 1 on,
/// that is wrong, missing or too many. An error comes only for want of memory, and only of a line
/// with texts: each field before its first text is good, and that text is there.
pub fn read_line(alloc: Global, record: &ByteRecord) -> Result<Result<Request, Refusal>, AllocError>
    ensures { MatchResult result (λ r. r ≡ request_of (fields_of «record».now)) (λ _. WantsText (fields_of «record».now)) }
{
    judge(alloc, &Line::of_record(record))
}
