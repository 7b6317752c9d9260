//! The words of each reply, refusal and fault, in one place: what is shown and what is put.

ghost use Rattle.std.specs.Prelude.{◌≡◌, ◌++◌, Some};
ghost use Rattle.std.specs.Fmt.{decimal};
ghost use Rattle.dh_days.specs.Months.{month_text};
ghost use Rattle.dh_types.specs.Replies.{fault_text, posted_text, refusal_text, reply_text, words_text};

use crate::reply::Progress;
use crate::{Fault, Month, Pence, Refusal, Reply, RunSum};
use std::fmt;

/// A text in two parts: words, and a value behind them.
#[derive(Clone, Copy)]
pub(crate) struct Words {
    pub(crate) lead: &'static str,
    pub(crate) value: Value,
}

/// What stands behind the words of a text.
#[derive(Clone, Copy)]
pub(crate) enum Value {
    Nothing,
    Number(u32),
    Signed(i64),
    Month(Month),
    Money(Pence),
    Progress(Progress),
    Sum(RunSum),
}

fn alone(lead: &'static str) -> Words
    ensures { words_text result ≡ lead.now }
{
    Words {
        lead,
        value: Value::Nothing,
    }
}

fn numbered(lead: &'static str, number: u32) -> Words
    ensures { words_text result ≡ lead.now ++ decimal number }
{
    Words {
        lead,
        value: Value::Number(number),
    }
}

fn of_month(lead: &'static str, month: Month) -> Words
    ensures { words_text result ≡ lead.now ++ month_text month }
{
    Words {
        lead,
        value: Value::Month(month),
    }
}

/// The words of what a closed run comes to.
pub(crate) fn words_of_sum(sum: RunSum) -> Words
    ensures { words_text result ≡ posted_text sum }
{
    Words {
        lead: "posted ",
        value: Value::Sum(sum),
    }
}

/// The words of a refusal.
pub(crate) fn words_of_refusal(refusal: Refusal) -> Words
    ensures { words_text result ≡ refusal_text refusal }
{
    match refusal {
        Refusal::Taken => alone("refused 1"),
        Refusal::Unknown(field) => numbered("refused 2 ", u32::from(field)),
        Refusal::WrongBranch => alone("refused 3"),
        Refusal::TooMany => alone("refused 4"),
        Refusal::Overlap(lease) => numbered("refused 5 ", lease.number()),
        Refusal::ClientStart(lease) => numbered("refused 6 ", lease.number()),
        Refusal::MonthPosted(next) => of_month("refused 7 ", next),
        Refusal::NotNextMonth(next) => of_month("refused 8 ", next),
        Refusal::KeyUsed => alone("refused 9"),
        Refusal::RunOpen(month) => of_month("refused 10 ", month),
        Refusal::DepositAmount(expected) => Words {
            lead: "refused 11 ",
            value: Value::Money(expected),
        },
        Refusal::DepositPaid => alone("refused 12"),
        Refusal::NotRegistered => alone("refused 13"),
        Refusal::NoRun => alone("refused 14"),
        Refusal::BadLine(field) => numbered("bad field ", u32::from(field)),
        Refusal::Version(found) => Words {
            lead: "refused 16 ",
            value: Value::Signed(found),
        },
        Refusal::Damaged(rule) => numbered("refused 17 ", u32::from(rule)),
        Refusal::Full => alone("refused 18"),
        Refusal::NotShorter(length) => numbered("refused 19 ", length.number()),
    }
}

/// The words of a reply.
pub(crate) fn words_of_reply(reply: Reply) -> Words
    ensures { words_text result ≡ reply_text reply }
{
    match reply {
        Reply::Accepted => alone("ok"),
        Reply::Already => alone("already"),
        Reply::Receipt(number) => numbered("receipt ", number.number()),
        Reply::AlreadyReceipt(number) => numbered("already receipt ", number.number()),
        Reply::Opened(month) => of_month("opened ", month.month()),
        Reply::Progress(run) => Words {
            lead: "part ",
            value: Value::Progress(run),
        },
        Reply::Posted(sum) => words_of_sum(sum),
        Reply::AlreadyPosted(sum) => Words {
            lead: "already posted ",
            value: Value::Sum(sum),
        },
        Reply::Refused(refusal) => words_of_refusal(refusal),
    }
}

/// The words of a fault.
pub(crate) fn words_of_fault(fault: Fault) -> Words
    ensures { words_text result ≡ fault_text fault }
{
    match fault {
        Fault::Memory => alone("fault 21"),
        Fault::Store => alone("fault 22"),
        Fault::Stopped => alone("fault 23"),
    }
}

impl fmt::Display for Words {
    ghost output = { λ w. Some (words_text w) };

    fn fmt<W: fmt::Write>(&self, f: &mut fmt::Formatter<W>) -> fmt::Result {
        let lead = self.lead;
        match self.value {
            Value::Nothing => write!(f, "{lead}"),
            Value::Number(number) => write!(f, "{lead}{number}"),
            Value::Signed(number) => write!(f, "{lead}{number}"),
            Value::Month(month) => write!(f, "{lead}{month}"),
            Value::Money(money) => write!(f, "{lead}{money}"),
            Value::Progress(run) => write!(f, "{lead}{} {} of {}", run.month, run.done, run.of),
            Value::Sum(sum) => write!(f, "{lead}{} {} {}", sum.month, sum.count, sum.total),
        }
    }
}
