//! What is done over tables that were taken, and how that ends.

ghost use Rattle.std.specs.Prelude.{◌≡◌, false, IfOk, IfSome, None, Ok, OnErr, OnOk};
ghost use Rattle.dh_agency.specs.Agency.{Ends, IsClean, IsOpen, Leaves, LeavesItsTables, WasClean, machine, shown_by, stand};
ghost use Rattle.dh_agency.specs.Requests.{is_order, is_question, is_report, said_in};
ghost use Rattle.dh_jobs.specs.Ends.{AskEnds, Finishes, LinesEnd, WorkEnds};
ghost use Rattle.dh_jobs.specs.Leaving.{IsKept, LinesLeave, WorkLeaves};
ghost use Rattle.dh_jobs.specs.Jobs.{IsAskCut, is_opened, run_work, said_in_parts};
ghost use Rattle.dh_jobs.specs.Printed.{IsAskEnd, IsOfLines, Prints, PrintsWork};
ghost use Rattle.dh_jobs.specs.Statuses.{IsFailed};

use crate::messages::{end_by_fault, print_response};
use crate::open_run::has_open_run;
use crate::status::{Failure, Status};
use dh_agency::{Agency, Response, respond};
use dh_lines::batch;
use dh_types::{BatchCount, Command, Fault, Reply, Request, RunOrder};
use sqlite::Alter;
use std::alloc::Global;
use std::io::{Read, Write};

/// What is done over tables that were taken.
#[derive(Drop)]
pub(crate) enum Work {
    /// Answers the lines of the input.
    Lines,
    /// Answers the request; where that opens a run, so many batches of it are posted, if a count is named.
    Ask(Request, Option<BatchCount>),
}

impl Work {
    /// A month's run, in one step or in parts.
    pub(crate) fn run(order: RunOrder, batches: Option<BatchCount>) -> Work
        ensures { result ≡ run_work order batches }
    {
        match batches {
            Some(_) => Work::Ask(Request::Command(Command::Open(order)), batches),
            None => Work::Ask(Request::Command(Command::Run(order)), None),
        }
    }
}

// How a job ends whose text is printed. A fault is told.
fn finish<S: Alter, W: Write>(
    alloc: Global,
    agency: &mut Agency<S>,
    is_refused: bool,
    writer: &mut W,
) -> Status
    requires { agency.old.is_stopped ≡ false }
    ensures ends { Finishes (shown_by S.Store agency.old) (shown_by S.Store agency.new) (W.contents writer.old) (W.contents writer.new) is_refused result }
    ensures crash { IsClean S.Store agency.new → LeavesItsTables S.Store agency.old → Leaves S.Store agency.new (λ left. left ≡ machine S.Store agency.old) }
    ensures kept { LeavesItsTables S.Store agency.old → IsKept (shown_by S.Store agency.new) result }
    ensures was_clean { WasClean S.Store agency.old agency.new }
{
    if is_refused {
        return Status::SomeRefused;
    }
    match has_open_run(alloc, agency) {
        Ok(true) => Status::RunOpen,
        Ok(false) => Status::Done,
        Err(fault) => end_by_fault(writer, fault),
    }
}

/// Answers each line of the input.
pub(crate) fn answer_lines<S: Alter, R: Read, W: Write>(
    alloc: Global,
    agency: &mut Agency<S>,
    reader: &mut R,
    writer: &mut W,
) -> Status
    requires { agency.old.is_stopped ≡ false }
    ensures printed { IsOfLines result }
    ensures ends { IsClean S.Store agency.new → IfSome (R.remaining reader.old)
        (λ input. LinesEnd (shown_by S.Store agency.new) agency.new.is_stopped (W.contents writer.old) (W.contents writer.new) (stand S.Store agency.old)
        input result) }
    ensures crash { IsClean S.Store agency.new → LeavesItsTables S.Store agency.old → LinesLeave (shown_by S.Store agency.new) (stand S.Store agency.old) }
    ensures kept { LeavesItsTables S.Store agency.old → IsKept (shown_by S.Store agency.new) result }
    ensures was_clean { WasClean S.Store agency.old agency.new }
{
    match batch(alloc, agency, reader, writer) {
        Ok(summary) => finish(alloc, agency, summary.refused > 0, writer),
        Err(fault) => Status::Failed(Failure::Lines(fault)),
    }
}

// Whether it says that a run is opened.
fn is_opened(response: &Response) -> bool
    ensures { result ≡ is_opened (said_in response.now) }
{
    matches!(response, Response::Reply(Reply::Opened(_)))
}

// What the request is answered; or where that opens a run and a count is named, what posting so many batches is.
fn respond_in_parts<S: Alter>(
    alloc: Global,
    agency: &mut Agency<S>,
    request: Request,
    batches: Option<BatchCount>,
) -> Result<Response, Fault>
    requires { agency.old.is_stopped ≡ false }
    ensures said { IsClean S.Store agency.new
        → IfOk result (λ it. said_in_parts (stand S.Store agency.old) request batches ≡ (stand S.Store agency.new, said_in it)) }
    ensures kind { IfOk result (λ it. is_report (said_in it) ≡ is_question (Ok request)) }
    ensures same { IsClean S.Store agency.new → is_order (Ok request) ≡ false → batches ≡ None
        → OnOk result (machine S.Store agency.new ≡ machine S.Store agency.old) }
    ensures left { IsClean S.Store agency.new → LeavesItsTables S.Store agency.old → OnOk result (LeavesItsTables S.Store agency.new) }
    ensures crash { IsClean S.Store agency.new → LeavesItsTables S.Store agency.old
        → Leaves S.Store agency.new (IsAskCut (machine S.Store agency.old) request batches) }
    ensures halted { IsClean S.Store agency.new → IsOpen S.Store agency.new
        → OnErr result (IsAskCut (machine S.Store agency.old) request batches (machine S.Store agency.new)) }
    ensures ends { Ends S.Store agency.old agency.new result }
{
    let response = respond(alloc, agency, Ok(request))?;
    match batches {
        Some(count) if is_opened(&response) => {
            drop(response);
            respond(alloc, agency, Ok(Request::Command(Command::Post(count))))
        }
        _ => Ok(response),
    }
}

// Answers the request, and prints what is said.
fn ask<S: Alter, W: Write>(
    alloc: Global,
    agency: &mut Agency<S>,
    request: Request,
    batches: Option<BatchCount>,
    writer: &mut W,
) -> Status
    requires { agency.old.is_stopped ≡ false }
    ensures printed { Prints (IsAskEnd (is_question (Ok request))) (W.contents writer.old) (W.contents writer.new) result }
    ensures ends { IsClean S.Store agency.new → AskEnds (shown_by S.Store agency.new) (W.contents writer.old) (W.contents writer.new)
        (machine S.Store agency.old) request batches result }
    ensures same { IsClean S.Store agency.new → is_order (Ok request) ≡ false → batches ≡ None → ¬ IsFailed result
        → machine S.Store agency.new ≡ machine S.Store agency.old }
    ensures crash { IsClean S.Store agency.new → LeavesItsTables S.Store agency.old
        → Leaves S.Store agency.new (IsAskCut (machine S.Store agency.old) request batches) }
    ensures kept { LeavesItsTables S.Store agency.old → IsKept (shown_by S.Store agency.new) result }
    ensures was_clean { WasClean S.Store agency.old agency.new }
{
    match respond_in_parts(alloc, agency, request, batches) {
        Ok(response) => {
            let outcome = print_response(writer, &response);
            let is_refused = response.is_refusal();
            drop(response);
            if let Err(output) = outcome {
                return Status::Failed(Failure::Output(output));
            }
            finish(alloc, agency, is_refused, writer)
        }
        Err(fault) => end_by_fault(writer, fault),
    }
}

/// Does the work over tables that were taken.
pub(crate) fn work_on<S: Alter, R: Read, W: Write>(
    alloc: Global,
    agency: &mut Agency<S>,
    work: Work,
    reader: &mut R,
    writer: &mut W,
) -> Status
    requires { agency.old.is_stopped ≡ false }
    ensures printed { PrintsWork work (W.contents writer.old) (W.contents writer.new) result }
    ensures ends { IsClean S.Store agency.new → WorkEnds (shown_by S.Store agency.new) agency.new.is_stopped (W.contents writer.old) (W.contents writer.new)
        (machine S.Store agency.old) (R.remaining reader.old) work result }
    ensures crash { IsClean S.Store agency.new → LeavesItsTables S.Store agency.old
        → WorkLeaves (shown_by S.Store agency.new) (machine S.Store agency.old) work }
    ensures kept { LeavesItsTables S.Store agency.old → IsKept (shown_by S.Store agency.new) result }
    ensures was_clean { WasClean S.Store agency.old agency.new }
{
    match work {
        Work::Lines => answer_lines(alloc, agency, reader, writer),
        Work::Ask(request, batches) => ask(alloc, agency, request, batches, writer),
    }
}
