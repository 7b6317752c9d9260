//! What may be asked while a run is open, and what is refused because of it. Read `open_runs_refuse_frozen` first.

ghost use Rattle.std.specs.Prelude.{ℕ};
ghost use Rattle.dh_laws.specs.Asking.{AnswersPassTheRun, BatchesPassTheRun, OpenRunsRefuseFrozen, OpenRunsRefusePutOff};

/// What is not put off is answered as by the books with the run made to its end.
pub fn answers_pass_the_run()
    ensures { (size : ℕ) → AnswersPassTheRun size }
{}

/// The open month has as many batches in the books as in the whole of them.
pub fn batches_pass_the_run()
    ensures { (size : ℕ) → BatchesPassTheRun size }
{}

/// A command is refused for an open run of a month exactly where such a run is open and the command is frozen.
pub fn open_runs_refuse_frozen()
    ensures { OpenRunsRefuseFrozen }
{}

/// A question is refused for an open run of a month exactly where such a run is open and the question is put off.
pub fn open_runs_refuse_put_off()
    ensures { OpenRunsRefusePutOff }
{}
