//! An agency over a store, and its calls.

ghost use Rattle.std.specs.Prelude.{◌≡◌, false, IfOk, OnOk, OnErr};
ghost use Rattle.sqlite.specs.State.{HasCleanDisk};
ghost use Rattle.sqlite.specs.Held.{state};
ghost use Rattle.dh_types.specs.declared.command.Command.TheVariants as command;
ghost use Rattle.dh_types.specs.Reports.{report_of};
ghost use Rattle.dh_model.specs.Answers.{report};
ghost use Rattle.dh_laws.specs.Batches.{IsPostedInPart};
ghost use Rattle.dh_agency.specs.Agency.{Ends, IsClean, IsOpen, IsServed, LeavesItsTables, Leaves, ReadsAs, machine, stand};
ghost use Rattle.dh_agency.specs.Outcomes.{IsInterrupted, IsAnsweredBy, reply_of};

use crate::commands::carry_out;
use dh_laws::frozen::{answers_pass_the_run, open_runs_refuse_put_off};
use dh_runs::{RunState, post_some};
use dh_store::look_up;
use dh_types::{Answer, Command, Fault, Question, Reply};
use sqlite::{Alter, Connection};
use std::alloc::Global;
use std::marker::Model;

/// An agency. After fault 21 or 22 it answers 23 to every call and touches nothing.
pub struct Agency<S: Alter> {
    conn: Connection<S>,
    is_stopped: bool,
}

impl<S: Alter> Model for Agency<S> {
    ghost use Rattle.std.specs.Prelude.{◌≡◌, false};
    ghost use Rattle.sqlite.specs.State.{HasCleanDisk};
    ghost use Rattle.sqlite.specs.Held.{state};
    ghost use Rattle.dh_agency.specs.Agency.{IsServed};
    ghost use Rattle.dh_agency.specs.AgencyView.{AgencyView, agency_view_code};

    ghost Value = { AgencyView S };

    ghost coded = { agency_view_code S.code };

    ghost view = { λ a. record { conn = a.conn; is_stopped = a.is_stopped } };

    ghost invariant = { λ a. a.is_stopped ≡ false → HasCleanDisk (state S.Store a.conn) → IsServed (state S.Store a.conn) };
}

impl<S: Alter> Agency<S> {
    /// The agency over tables of the second version that are ready.
    pub(crate) fn over(conn: Connection<S>) -> Agency<S>
        requires { HasCleanDisk (state S.Store conn) → IsServed (state S.Store conn) }
        ensures made { result ≡ record { conn = conn; is_stopped = false } }
        ensures left { IsClean S.Store result → LeavesItsTables S.Store result }
    {
        Agency {
            conn,
            is_stopped: false,
        }
    }

    /// Carries out the command and gives its reply; a refusal is a reply and changes nothing. At fault 21 or 22 the
    /// command happened or not, and the agency has stopped: while the store is open its tables are sound, and no transaction
    /// is. Where the agency had stopped, fault 23.
    pub fn step(&mut self, alloc: Global, command: &Command) -> Result<Reply, Fault>
        ensures said { IsClean S.Store self.new → IfOk result (λ reply. IsAnsweredBy command.now reply (machine S.Store self.old) (machine S.Store self.new)) }
        ensures left { IsClean S.Store self.new → OnOk result (LeavesItsTables S.Store self.new) }
        ensures crash { IsClean S.Store self.new → self.old.is_stopped ≡ false
            → Leaves S.Store self.new (IsInterrupted command.now (machine S.Store self.old)) }
        ensures halted { IsClean S.Store self.new → self.old.is_stopped ≡ false → IsOpen S.Store self.new
            → OnErr result (ReadsAs S.Store self.new (IsInterrupted command.now (machine S.Store self.old))) }
        ensures ends { Ends S.Store self.old self.new result }
    {
        if self.is_stopped {
            return Err(Fault::Stopped);
        }
        match carry_out(alloc, &mut self.conn, command) {
            Ok(reply) => Ok(reply),
            Err(fault) => {
                self.is_stopped = true;
                Err(fault.fault())
            }
        }
    }

    /// Carries out at most so many batches of the open run, and closes it where none is left; it tells how far the run is. At
    /// fault 21 or 22 some of these batches are posted, and the agency has stopped: while the store is open its tables are sound,
    /// and no transaction is. Where the agency had stopped, fault 23.
    pub fn resume(&mut self, alloc: Global, most: u32) -> Result<RunState, Fault>
        ensures said { IsClean S.Store self.new
            → IfOk result (λ it. IsAnsweredBy (command.Post most) (reply_of it) (machine S.Store self.old) (machine S.Store self.new)) }
        ensures left { IsClean S.Store self.new → OnOk result (LeavesItsTables S.Store self.new) }
        ensures crash { IsClean S.Store self.new → self.old.is_stopped ≡ false
            → Leaves S.Store self.new (IsPostedInPart most (machine S.Store self.old)) }
        ensures halted { IsClean S.Store self.new → self.old.is_stopped ≡ false → IsOpen S.Store self.new
            → OnErr result (ReadsAs S.Store self.new (IsPostedInPart most (machine S.Store self.old))) }
        ensures ends { Ends S.Store self.old self.new result }
    {
        if self.is_stopped {
            return Err(Fault::Stopped);
        }
        match post_some(alloc, &mut self.conn, u128::from(most)) {
            Ok(state) => Ok(state),
            Err(fault) => {
                self.is_stopped = true;
                Err(fault.fault())
            }
        }
    }

    /// Answers the question and changes nothing, by the tables as by their whole. At fault 21 or 22 the agency has stopped; where it had stopped, fault 23.
    pub fn show(&mut self, alloc: Global, question: &Question) -> Result<Answer, Fault>
        ensures said { IsClean S.Store self.new → IfOk result (λ answer. report_of answer ≡ report (machine S.Store self.old) question.now) }
        ensures whole { IsClean S.Store self.new → IfOk result (λ answer. report_of answer ≡ report (stand S.Store self.old) question.now) }
        ensures same { IsClean S.Store self.new → OnOk result (machine S.Store self.new ≡ machine S.Store self.old) }
        ensures left { IsClean S.Store self.new → OnOk result (LeavesItsTables S.Store self.new) }
        ensures crash { IsClean S.Store self.new → self.old.is_stopped ≡ false → Leaves S.Store self.new (λ left. left ≡ machine S.Store self.old) }
        ensures halted { IsClean S.Store self.new → self.old.is_stopped ≡ false → IsOpen S.Store self.new
            → OnErr result (ReadsAs S.Store self.new (λ now. now ≡ machine S.Store self.old)) }
        ensures ends { Ends S.Store self.old self.new result }
    {
        if self.is_stopped {
            return Err(Fault::Stopped);
        }
        answers_pass_the_run();
        open_runs_refuse_put_off();
        match look_up(alloc, &mut self.conn, question) {
            Ok(answer) => Ok(answer),
            Err(fault) => {
                self.is_stopped = true;
                Err(fault.fault())
            }
        }
    }

    /// Whether a call met fault 21 or 22, so that each further call answers 23. It takes no memory.
    pub fn is_stopped(&self) -> bool
        ensures { result ≡ self.now.is_stopped }
    {
        self.is_stopped
    }

    /// The store, as it is. It takes no memory.
    pub fn into_store(self) -> Connection<S>
        ensures { result ≡ self.conn }
    {
        let Agency {
            conn,
            is_stopped: _,
        } = self;
        conn
    }
}
