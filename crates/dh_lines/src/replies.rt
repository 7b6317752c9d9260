//! Writing the lines that an agency answers: each has the number of its record, a space and the answer. A line is one write.
//! It takes no memory.

ghost use Rattle.std.specs.Prelude.{[], ◌∷◌, ◌++◌};
ghost use Rattle.std.specs.Fmt.{decimal};
ghost use Rattle.dh_types.specs.Output.{Puts};
ghost use Rattle.dh_types.specs.Reports.{report_of};
ghost use Rattle.dh_types.specs.Replies.{refusal_text, reply_text};
ghost use Rattle.dh_reports.specs.Columns.{newline};
ghost use Rattle.dh_agency.specs.Requests.{said_in};
ghost use Rattle.dh_lines.specs.Session.{fault_line, numbered, reported_text, said_text};
ghost use Rattle.dh_lines.specs.LineBodies.{body_line, body_text};

use arrayvec::ArrayVec;
use dh_agency::Response;
use dh_reports::{lines, write};
use dh_types::text_writer::{put, put_pieces};
use dh_types::{Answer, Fault, Output, Refusal, Reply, put_fault, put_reply};
use itoa::Buffer;
use std::io::Write;

/// A line, with room for the longest: a number of 20 digits, and `part` with a month and two numbers of 39.
type LineBuffer = ArrayVec<u8, 128>;

/// What a line says behind the number of its record.
#[derive(Clone, Copy)]
enum LineBody {
    Reply(Reply),
    Fault(Fault),
    /// So many lines of a report follow.
    Shown(u64),
}

// The number and the space.
fn put_number<W: Write>(writer: &mut W, number: u64) -> Result<(), Output>
    ensures { Puts (W.contents writer.old) (W.contents writer.new) result (decimal number ++ 32 ∷ []) }
{
    put_pieces(writer, &[Buffer::new().format(number).as_bytes(), b" "])
}

// What the line says.
fn put_body<W: Write>(writer: &mut W, body: &LineBody) -> Result<(), Output>
    ensures { Puts (W.contents writer.old) (W.contents writer.new) result (body_text body.now) }
{
    match body {
        LineBody::Reply(reply) => put_reply(writer, *reply),
        LineBody::Fault(fault) => put_fault(writer, *fault),
        LineBody::Shown(count) => put_pieces(
            writer,
            &[b"shown ", Buffer::new().format(*count).as_bytes()],
        ),
    }
}

// Writes a line part by part.
fn put_line_in_pieces<W: Write>(writer: &mut W, number: u64, body: &LineBody) -> Result<(), Output>
    ensures { Puts (W.contents writer.old) (W.contents writer.new) result (body_line number body.now) }
{
    put_number(writer, number)?;
    put_body(writer, body)?;
    put(writer, b"\n")
}

// Writes a line at once; one that had no room would be written part by part.
fn put_line<W: Write>(writer: &mut W, number: u64, body: &LineBody) -> Result<(), Output>
    ensures { Puts (W.contents writer.old) (W.contents writer.new) result (body_line number body.now) }
{
    let mut line: LineBuffer = ArrayVec::new();
    match put_line_in_pieces(&mut line, number, body) {
        Ok(()) => put(writer, &line),
        Err(_) => put_line_in_pieces(writer, number, body),
    }
}

/// Writes the line of a record whose command was answered so; `number` is the record's, from 1 on.
/// At an `Output` the writer failed, and a beginning of the line was written.
pub fn put_reply_line<W: Write>(writer: &mut W, number: u64, reply: Reply) -> Result<(), Output>
    ensures { Puts (W.contents writer.old) (W.contents writer.new) result (numbered number (reply_text reply ++ newline)) }
{
    put_line(writer, number, &LineBody::Reply(reply))
}

/// Writes the line of a refused record; `number` is the record's, from 1 on.
/// At an `Output` the writer failed, and a beginning of the line was written.
pub fn put_refused_line<W: Write>(
    writer: &mut W,
    number: u64,
    refusal: Refusal,
) -> Result<(), Output>
    ensures { Puts (W.contents writer.old) (W.contents writer.new) result (numbered number (refusal_text refusal ++ newline)) }
{
    put_line(writer, number, &LineBody::Reply(Reply::Refused(refusal)))
}

/// Writes the line of a record that met a fault; `number` is the record's, from 1 on.
/// At an `Output` the writer failed, and a beginning of the line was written.
pub fn put_fault_line<W: Write>(writer: &mut W, number: u64, fault: Fault) -> Result<(), Output>
    ensures { Puts (W.contents writer.old) (W.contents writer.new) result (fault_line number fault) }
{
    put_line(writer, number, &LineBody::Fault(fault))
}

/// Writes the line of a record that asked a question, and the report that answers it; `number` is the
/// record's, from 1 on. At an `Output` the writer failed, and a beginning of both was written.
pub fn put_answer_line<W: Write>(writer: &mut W, number: u64, answer: &Answer) -> Result<(), Output>
    ensures { Puts (W.contents writer.old) (W.contents writer.new) result (numbered number (reported_text (report_of answer.now))) }
{
    if let Answer::Refused(refusal) = answer {
        return put_refused_line(writer, number, *refusal);
    }
    put_line(writer, number, &LineBody::Shown(lines(answer)))?;
    write(answer, writer)
}

/// Writes the line of a record that was answered so, and behind it the report if there is one. At an `Output` the writer failed, and a beginning
/// of both was written.
pub fn put_response_line<W: Write>(
    writer: &mut W,
    number: u64,
    response: &Response,
) -> Result<(), Output>
    ensures { Puts (W.contents writer.old) (W.contents writer.new) result (numbered number (said_text (said_in response.now))) }
{
    match response {
        Response::Reply(reply) => put_reply_line(writer, number, *reply),
        Response::Report(answer) => put_answer_line(writer, number, answer),
    }
}
