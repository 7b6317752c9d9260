//! Laws of the model: what every change keeps, what lets a rent run go on in many steps while the office works, what a command
//! gets that is sent again, and what stays of every list of answered and interrupted commands. Each function does nothing, and its
//! clause is the law. Read `keeping` first, for what books in order are, and then `lives::lives`, the law of all lives.
#![tactic(auto)]

pub mod answers;
pub mod balances;
pub mod batches;
pub mod commutation;
pub mod entries;
pub mod facts;
pub mod frozen;
pub mod invariants;
pub mod lives;
pub mod repeats;
pub mod shown;
pub mod standings;
