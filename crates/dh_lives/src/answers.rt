//! Laws of answered commands. Each function does nothing but name the laws that it follows from, and its clause is the law.
//! Read `answers_move_balances` first.

ghost use Rattle.dh_lives.specs.Answered.{AnswersKeepTheRules, AnswersMoveBalances, ChargesAreDues, NothingNewLeavesTheTables};
ghost use Rattle.dh_lives.specs.Answered.{SentAgainGetsTheSameReply, StandingDeterminesTheTables};

use dh_laws::{balances, invariants, repeats, standings};

/// An accepted run raises what each lease owes by its due, an accepted rent receipt lowers what its lease owes by its amount, and
/// nothing else moves it.
pub fn answers_move_balances()
    ensures { AnswersMoveBalances }
{
    invariants::whole_is_lawful();
    balances::balances_move_as_told();
}

/// What is charged is what fell due in the months that were run, and nothing else.
pub fn charges_are_dues()
    ensures { ChargesAreDues }
{
    invariants::whole_is_lawful();
    balances::charges_are_dues();
}

/// No answered command breaks a rule of the audit.
pub fn answers_keep_the_rules()
    ensures { AnswersKeepTheRules }
{
    invariants::whole_is_lawful();
    invariants::steps_keep_the_law();
}

/// A receipt or a run that was accepted with no run open, and is sent again next, is told the same, and no row moves.
pub fn sent_again_gets_the_same_reply()
    ensures { SentAgainGetsTheSameReply }
{
    invariants::whole_is_lawful();
    repeats::sent_again_gets_the_same_reply();
}

/// Sound tables with the same whole books and the same open run are the same, row for row.
pub fn standing_determines_the_tables()
    ensures { StandingDeterminesTheTables }
{
    standings::standing_determines_the_tables();
}

/// A refusal, and a reply that the command was carried out before, leave the tables as they were, row for row; while a run is open too.
pub fn nothing_new_leaves_the_tables()
    ensures { NothingNewLeavesTheTables }
{
    standings::nothing_new_leaves_the_tables();
}
