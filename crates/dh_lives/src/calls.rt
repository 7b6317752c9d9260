//! Each call of an agency, and that what its contract says is what a history says of it. Each function makes that call and no other.

ghost use Rattle.std.specs.Prelude.{◌≡◌, ◌≤◌, true, false, IfOk, IfErr, OnOk, OnErr};
ghost use Rattle.sqlite.specs.State.{HasCleanDisk};
ghost use Rattle.sqlite.specs.Held.{state};
ghost use Rattle.dh_days.specs.declared.limits.TheConstants.{LAST_ENTRY_MONTH};
ghost use Rattle.dh_types.specs.Reports.{report_of};
ghost use Rattle.dh_model.specs.Answers.{report};
ghost use Rattle.dh_model.specs.Books.{start};
ghost use Rattle.dh_laws.specs.Batches.{IsPostedInPart};
ghost use Rattle.dh_laws.specs.InOrder.{IsEntered};
ghost use Rattle.dh_laws.specs.Repeating.{is_of_nothing_new};
ghost use Rattle.dh_runs.specs.Taking.{IsResting};
ghost use Rattle.dh_runs.specs.Outcomes.{IsInterrupted};
ghost use Rattle.dh_agency.specs.Agency.{IsClean, Leaves, machine, shown_by};
ghost use Rattle.dh_agency.specs.Taken.{TakesForward};
ghost use Rattle.dh_lives.specs.Calls.{Tells};
ghost use Rattle.dh_lives.specs.Calls.{AttachInterrupted, Attached, Recovered, RecoveryInterrupted, ResumeInterrupted};
ghost use Rattle.dh_lives.specs.Calls.{Resumed, ShowInterrupted, Shown, StepInterrupted, Stepped};
ghost use Rattle.dh_lives.specs.Histories.{IsSoundIn};
ghost use Rattle.dh_lives.specs.Migrations.{EndsWith, IsRefusal, Migrated, Migrates, Refused};

use crate::answers::nothing_new_leaves_the_tables;
use dh_agency::{
    Agency, NotOpened, Problem, RunState, attach, create, migrate, recover, recover_1,
};
use dh_laws::entries::commands_are_entered;
use dh_types::{Answer, Command, Fault, Month, Question, Reply};
use sqlite::{Alter, Connection};
use std::alloc::Global;

/// `create`, where it makes the tables.
pub fn create_tells<S: Alter>(
    alloc: Global,
    conn: Connection<S>,
    first: Month,
) -> Result<Agency<S>, NotOpened<Fault, S>>
    requires { first ≤ LAST_ENTRY_MONTH }
    ensures { IfOk result (λ a. IsClean S.Store a → IsSoundIn S.Store a.conn × (machine S.Store a ≡ start first)) }
{
    create(alloc, conn, first)
}

/// `step`, with its reply and its faults.
pub fn step_tells<S: Alter>(
    alloc: Global,
    agency: &mut Agency<S>,
    command: &Command,
) -> Result<Reply, Fault>
    ensures answered { agency.old.is_stopped ≡ false
        → IfOk result (λ reply. Tells (Stepped command.now reply) (shown_by S.Store agency.old) (shown_by S.Store agency.new)) }
    ensures cut { agency.old.is_stopped ≡ false
        → OnErr result (Tells (StepInterrupted command.now) (shown_by S.Store agency.old) (shown_by S.Store agency.new)) }
    // Whatever the result, a crash as the call returns leaves this.
    ensures stop { agency.old.is_stopped ≡ false → IsClean S.Store agency.new
        → Leaves S.Store agency.new (IsInterrupted command.now (machine S.Store agency.old)) }
    ensures line { IsEntered command.now }
    // Where nothing new comes of it, no row of sound tables moves, while a run is open too.
    ensures stays { IsClean S.Store agency.new → IsSoundIn S.Store agency.old.conn
        → IfOk result (λ reply. is_of_nothing_new reply ≡ true → machine S.Store agency.new ≡ machine S.Store agency.old) }
{
    commands_are_entered(command);
    nothing_new_leaves_the_tables();
    agency.step(alloc, command)
}

/// `resume`, with what it answers and its faults.
pub fn resume_tells<S: Alter>(
    alloc: Global,
    agency: &mut Agency<S>,
    most: u32,
) -> Result<RunState, Fault>
    ensures answered { agency.old.is_stopped ≡ false
        → IfOk result (λ it. Tells (Resumed most it) (shown_by S.Store agency.old) (shown_by S.Store agency.new)) }
    ensures cut { agency.old.is_stopped ≡ false
        → OnErr result (Tells (ResumeInterrupted most) (shown_by S.Store agency.old) (shown_by S.Store agency.new)) }
    // Whatever the result, a crash as the call returns leaves this.
    ensures stop { agency.old.is_stopped ≡ false → IsClean S.Store agency.new
        → Leaves S.Store agency.new (IsPostedInPart most (machine S.Store agency.old)) }
{
    agency.resume(alloc, most)
}

/// `show`, with its answer and its faults.
pub fn show_tells<S: Alter>(
    alloc: Global,
    agency: &mut Agency<S>,
    question: &Question,
) -> Result<Answer, Fault>
    ensures answered { agency.old.is_stopped ≡ false → OnOk result (Tells Shown (shown_by S.Store agency.old) (shown_by S.Store agency.new)) }
    ensures cut { agency.old.is_stopped ≡ false → OnErr result (Tells ShowInterrupted (shown_by S.Store agency.old) (shown_by S.Store agency.new)) }
    // The answer is the report of the tables.
    ensures said { IsClean S.Store agency.new → IfOk result (λ answer. report_of answer ≡ report (machine S.Store agency.old) question.now) }
    // Whatever the result, a crash as the call returns leaves this.
    ensures stop { agency.old.is_stopped ≡ false → IsClean S.Store agency.new
        → Leaves S.Store agency.new (λ left. left ≡ machine S.Store agency.old) }
{
    agency.show(alloc, question)
}

/// `attach`, with its refusals and faults.
pub fn attach_tells<S: Alter>(
    alloc: Global,
    conn: Connection<S>,
) -> Result<Agency<S>, NotOpened<Problem, S>>
    requires { HasCleanDisk (state S.Store conn) → IsResting (state S.Store conn) }
    ensures attached { IfOk result (λ a. (a.is_stopped ≡ false) × Tells Attached (state S.Store conn) (shown_by S.Store a)) }
    ensures cut { IfErr result (λ e. Tells AttachInterrupted (state S.Store conn) (state S.Store e.conn)) }
    // Whatever the result, a crash as the call returns leaves this.
    ensures stop { IfOk result (λ a. Tells AttachInterrupted (state S.Store conn) (shown_by S.Store a)) }
{
    attach(alloc, conn)
}

/// `recover`, with its refusals and faults.
pub fn recover_tells<S: Alter>(
    alloc: Global,
    conn: Connection<S>,
) -> Result<Agency<S>, NotOpened<Problem, S>>
    requires { HasCleanDisk (state S.Store conn) → IsResting (state S.Store conn) }
    ensures recovered { IfOk result (λ a. (a.is_stopped ≡ false) × Tells Recovered (state S.Store conn) (shown_by S.Store a)) }
    ensures cut { IfErr result (λ e. Tells RecoveryInterrupted (state S.Store conn) (state S.Store e.conn)) }
    // Whatever the result, a crash as the call returns leaves this.
    ensures stop { IfOk result (λ a. TakesForward (state S.Store conn) (shown_by S.Store a)) }
{
    recover(alloc, conn)
}

/// `migrate`, with its refusals and faults.
pub fn migrate_tells<S: Alter>(
    alloc: Global,
    conn: Connection<S>,
) -> Result<Agency<S>, NotOpened<Problem, S>>
    requires { HasCleanDisk (state S.Store conn) → IsResting (state S.Store conn) }
    ensures migrated { IfOk result (λ a. (a.is_stopped ≡ false) × Migrates (state S.Store conn) (shown_by S.Store a)) }
    ensures cut { IfErr result (λ e. Migrates (state S.Store conn) (state S.Store e.conn)) }
    ensures answered { IfOk result (λ a. EndsWith Migrated (state S.Store conn) (shown_by S.Store a)) }
    ensures refused { IfErr result (λ e. IsRefusal e.cause → EndsWith Refused (state S.Store conn) (state S.Store e.conn)) }
{
    migrate(alloc, conn)
}

/// `recover_1`, with its refusals and faults.
pub fn recover_1_tells<S: Alter>(
    alloc: Global,
    conn: Connection<S>,
) -> Result<Connection<S>, NotOpened<Problem, S>>
    requires { HasCleanDisk (state S.Store conn) → IsResting (state S.Store conn) }
    ensures recovered { IfOk result (λ c. Tells Recovered (state S.Store conn) (state S.Store c)) }
    ensures cut { IfErr result (λ e. Tells RecoveryInterrupted (state S.Store conn) (state S.Store e.conn)) }
    // Whatever the result, a crash as the call returns leaves this.
    ensures stop { IfOk result (λ c. TakesForward (state S.Store conn) (state S.Store c)) }
{
    recover_1(alloc, conn)
}
