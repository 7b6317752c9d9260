//! What a command is answered, and what went wrong.

ghost use Rattle.std.specs.Prelude.{◌≡◌, Some};
ghost use Rattle.dh_types.specs.Replies.{fault_text, is_refusal, refusal_number, refusal_text, reply_text};

use crate::words::{words_of_fault, words_of_refusal, words_of_reply, words_of_sum};
use crate::{EntryMonth, LeaseMonths, LeaseNo, Month, Pence, ReceiptNo, RunSum};
use std::fmt;

/// The answer to a command.
#[derive(Clone, Copy, Debug, PartialEq, Eq)]
pub enum Reply {
    /// The command was carried out.
    Accepted,
    /// What the command asks for is there already; nothing changed.
    Already,
    /// The payment was accepted and got this number.
    Receipt(ReceiptNo),
    /// The payment was accepted before, with this number; nothing changed.
    AlreadyReceipt(ReceiptNo),
    /// The rent run of this month was opened.
    Opened(EntryMonth),
    /// The rent run is open and so far done.
    Progress(Progress),
    /// The rent run was closed.
    Posted(RunSum),
    /// The rent run was closed before; nothing changed.
    AlreadyPosted(RunSum),
    /// The command was refused; nothing changed.
    Refused(Refusal),
}

/// How far an open rent run is: so many of its batches are done.
#[derive(Clone, Copy, Debug, PartialEq, Eq)]
pub struct Progress {
    pub month: EntryMonth,
    pub done: u128,
    pub of: u128,
}

/// Why a command, a question, a line or a file is refused.
#[derive(Clone, Copy, Debug, PartialEq, Eq)]
pub enum Refusal {
    /// The number or pair is there with other fields.
    Taken,
    /// The field that names something absent.
    Unknown(u8),
    /// The member of staff belongs to another branch.
    WrongBranch,
    /// The member of staff manages 100 other properties.
    TooMany,
    /// The least number of a lease that covers a common day.
    Overlap(LeaseNo),
    /// The client's lease that starts that day.
    ClientStart(LeaseNo),
    /// The lease starts, or would end, in a month before this one, the next to be run.
    MonthPosted(Month),
    /// The run is not for this month, the next to be run.
    NotNextMonth(Month),
    /// The key is kept with other content.
    KeyUsed,
    /// A rent run of this month is open.
    RunOpen(Month),
    /// A deposit on the lease is this amount.
    DepositAmount(Pence),
    /// The lease has a deposit receipt.
    DepositPaid,
    /// The client is not registered at the property's branch.
    NotRegistered,
    /// No run is open, or that month has no closed run.
    NoRun,
    /// The first field of a line that is wrong, missing or too many.
    BadLine(u8),
    /// The file has this version, which is not the one that was asked for.
    Version(i64),
    /// The first audit rule that the file breaks.
    Damaged(u8),
    /// All receipt numbers are given.
    Full,
    /// The lease runs this many months, which is fewer.
    NotShorter(LeaseMonths),
}

/// What an agency answers where it could not do its work.
#[derive(Clone, Copy, Debug, PartialEq, Eq)]
pub enum Fault {
    /// Memory ran out.
    Memory,
    /// The store failed.
    Store,
    /// A fault was answered before, and the agency does no more.
    Stopped,
}

impl Reply {
    /// Whether the command was refused.
    pub fn is_refusal(&self) -> bool
        ensures { result ≡ is_refusal self.now }
    {
        matches!(self, Reply::Refused(_))
    }
}

impl Refusal {
    /// The number of the refusal, from 1 to 19.
    pub fn number(&self) -> u8
        ensures { result ≡ refusal_number self.now }
    {
        match self {
            Refusal::Taken => 1,
            Refusal::Unknown(_) => 2,
            Refusal::WrongBranch => 3,
            Refusal::TooMany => 4,
            Refusal::Overlap(_) => 5,
            Refusal::ClientStart(_) => 6,
            Refusal::MonthPosted(_) => 7,
            Refusal::NotNextMonth(_) => 8,
            Refusal::KeyUsed => 9,
            Refusal::RunOpen(_) => 10,
            Refusal::DepositAmount(_) => 11,
            Refusal::DepositPaid => 12,
            Refusal::NotRegistered => 13,
            Refusal::NoRun => 14,
            Refusal::BadLine(_) => 15,
            Refusal::Version(_) => 16,
            Refusal::Damaged(_) => 17,
            Refusal::Full => 18,
            Refusal::NotShorter(_) => 19,
        }
    }
}

impl fmt::Display for RunSum {
    ghost use Rattle.std.specs.Prelude.{Some};
    ghost use Rattle.dh_types.specs.Replies.{posted_text};

    ghost output = { λ sum. Some (posted_text sum) };

    fn fmt<W: fmt::Write>(&self, f: &mut fmt::Formatter<W>) -> fmt::Result {
        fmt::Display::fmt(&words_of_sum(*self), f)
    }
}

impl fmt::Display for Reply {
    ghost output = { λ r. Some (reply_text r) };

    fn fmt<W: fmt::Write>(&self, f: &mut fmt::Formatter<W>) -> fmt::Result {
        fmt::Display::fmt(&words_of_reply(*self), f)
    }
}

impl fmt::Display for Refusal {
    ghost output = { λ r. Some (refusal_text r) };

    fn fmt<W: fmt::Write>(&self, f: &mut fmt::Formatter<W>) -> fmt::Result {
        fmt::Display::fmt(&words_of_refusal(*self), f)
    }
}

impl fmt::Display for Fault {
    ghost output = { λ f. Some (fault_text f) };

    fn fmt<W: fmt::Write>(&self, f: &mut fmt::Formatter<W>) -> fmt::Result {
        fmt::Display::fmt(&words_of_fault(*self), f)
    }
}
