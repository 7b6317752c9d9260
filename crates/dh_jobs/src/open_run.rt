//! Whether a rent run stands open.

ghost use Rattle.std.specs.Prelude.{◌≡◌, false, is_some, IfOk, OnOk, OnErr};
ghost use Rattle.dh_types.specs.Reports.{report_of};
ghost use Rattle.dh_agency.specs.Agency.{Ends, IsClean, IsOpen, Leaves, LeavesItsTables, machine};
ghost use Rattle.dh_jobs.specs.Jobs.{says_open};

use dh_agency::Agency;
use dh_days::limits::FIRST_MONTH;
use dh_types::{Answer, EntryMonth, Fault, Question, Refusal};
use sqlite::Alter;
use std::alloc::Global;

// Whether a run is open where the question for the run of a month is answered so.
fn says_open(answer: &Answer) -> bool
    ensures { result ≡ says_open (report_of answer.now) }
{
    matches!(answer, Answer::Refused(Refusal::RunOpen(_)))
}

/// Whether a run stands open. It changes nothing.
pub(crate) fn has_open_run<S: Alter>(alloc: Global, agency: &mut Agency<S>) -> Result<bool, Fault>
    requires { agency.old.is_stopped ≡ false }
    ensures said { IsClean S.Store agency.new → IfOk result (λ is_open. is_open ≡ is_some (machine S.Store agency.old).open_run) }
    ensures same { IsClean S.Store agency.new → OnOk result (machine S.Store agency.new ≡ machine S.Store agency.old) }
    ensures left { IsClean S.Store agency.new → OnOk result (LeavesItsTables S.Store agency.new) }
    ensures halted { IsClean S.Store agency.new → IsOpen S.Store agency.new → OnErr result (machine S.Store agency.new ≡ machine S.Store agency.old) }
    ensures crash { IsClean S.Store agency.new → Leaves S.Store agency.new (λ left. left ≡ machine S.Store agency.old) }
    ensures ends { Ends S.Store agency.old agency.new result }
{
    // The first month that there is: whether it was run makes no difference here.
    let question = Question::Run(EntryMonth::of_number(FIRST_MONTH));
    let answer = agency.show(alloc, &question)?;
    Ok(says_open(&answer))
}
