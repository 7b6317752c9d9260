//! The values, records, commands, replies and faults of a letting agency, and their texts.
//! Read `Command` and `Reply` first, then `Lease` and the records beside it.
#![tactic(auto)]

mod answer;
mod branch;
mod client;
mod command;
mod fee;
pub mod field;
pub mod laws;
mod lease;
mod output;
mod owner;
mod property;
mod question;
mod reply;
mod reply_text;
mod request;
mod run;
mod staff;
pub mod text_writer;
mod version;
mod viewing;
mod words;

pub use answer::{Answer, Arrears, Debt, OwnerLine, OwnerStatement, RunReport, Statement};
pub use branch::Branch;
pub use client::{Client, Registration};
pub use command::{Assignment, Command, ReceiptOrder, RentChange, RunOrder, ViewingComment};
pub use dh_days::{Day, EntryDay, EntryMonth, Month};
pub use dh_values::{
    Amount, BadText, Balance, BatchCount, ChargeIndex, Comment, Fee, Id, Key, LeaseMonths, LeaseNo,
    PaymentMethod, Pence, Position, PropertyType, ReceiptKind, ReceiptNo, Rent, Rooms, Text60,
};
pub use fee::{BranchFee, PartFee};
pub use lease::{Charge, Ending, Lease, LeaseTerms, Payment, Receipt};
pub use output::Output;
pub use owner::Owner;
pub use property::Property;
pub use question::{ClientDay, OwnerMonth, Question};
pub use reply::{Fault, Progress, Refusal, Reply};
pub use reply_text::{put_fault, put_month, put_refusal, put_reply};
pub use request::Request;
pub use run::{Part, Run, RunSum};
pub use staff::Staff;
pub use version::Version;
pub use viewing::{Inspection, Viewing};
