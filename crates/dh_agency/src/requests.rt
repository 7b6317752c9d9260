//! Answering what is asked for by fields.

ghost use Rattle.std.specs.Prelude.{◌≡◌, false, IfOk, OnOk, OnErr};
ghost use Rattle.dh_agency.specs.Agency.{IsClean, IsOpen, Leaves, LeavesItsTables, machine, stand};
ghost use Rattle.dh_agency.specs.Requests.{EndsFor, IsCutIn, is_order, is_question, is_report, said_in, said_to, says_no};

use crate::Agency;
use dh_types::{Answer, Fault, Refusal, Reply, Request};
use sqlite::Alter;
use std::alloc::Global;

/// What a request is answered.
#[derive(Drop)]
pub enum Response {
    /// The reply to a command, or the refusal of fields that are no request.
    Reply(Reply),
    /// The answer to a question.
    Report(Answer),
}

impl Response {
    /// Whether it is a refusal.
    pub fn is_refusal(&self) -> bool
        ensures { result ≡ says_no (said_in self.now) }
    {
        match self {
            Response::Reply(reply) => reply.is_refusal(),
            Response::Report(answer) => answer.is_refusal(),
        }
    }
}

/// Carries out the command or answers the question that fields are, or refuses them where they are none. The refusals and faults are those of
/// [`Agency::step`] and [`Agency::show`]. It is said where the machine stands: a question is answered alike by the tables and by their whole.
pub fn respond<S: Alter>(
    alloc: Global,
    agency: &mut Agency<S>,
    request: Result<Request, Refusal>,
) -> Result<Response, Fault>
    ensures said { IsClean S.Store agency.new
        → IfOk result (λ it. said_to (stand S.Store agency.old) request ≡ (stand S.Store agency.new, said_in it)) }
    ensures kind { IfOk result (λ it. is_report (said_in it) ≡ is_question request) }
    ensures same { IsClean S.Store agency.new → is_order request ≡ false → OnOk result (machine S.Store agency.new ≡ machine S.Store agency.old) }
    ensures left { IsClean S.Store agency.new → LeavesItsTables S.Store agency.old → agency.new.is_stopped ≡ false → LeavesItsTables S.Store agency.new }
    ensures crash { IsClean S.Store agency.new → agency.old.is_stopped ≡ false → LeavesItsTables S.Store agency.old
        → Leaves S.Store agency.new (IsCutIn request (machine S.Store agency.old)) }
    ensures halted { IsClean S.Store agency.new → IsOpen S.Store agency.new
        → OnErr result (IsCutIn request (machine S.Store agency.old) (machine S.Store agency.new)) }
    ensures ends { EndsFor S.Store agency.old agency.new request result }
{
    match request {
        Ok(Request::Command(command)) => {
            let reply = agency.step(alloc, &command);
            drop(command);
            match reply {
                Ok(reply) => Ok(Response::Reply(reply)),
                Err(fault) => Err(fault),
            }
        }
        Ok(Request::Question(question)) => match agency.show(alloc, &question) {
            Ok(answer) => Ok(Response::Report(answer)),
            Err(fault) => Err(fault),
        },
        Err(why) => Ok(Response::Reply(Reply::Refused(why))),
    }
}
