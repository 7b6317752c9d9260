//! What the books say: the verdict on each command, and what each question is answered. Read [`decide`] and [`answer`] first.
#![tactic(auto)]

mod accounts;
mod answers;
mod balances;
mod checks;
mod clients;
mod debts;
mod decision;
mod ends;
mod leases;
mod lists;
mod offices;
mod owner_statements;
mod properties;
mod receipts;
mod run_reports;
mod statements;
mod vacancies;

pub use answers::{answer, answer_passed, is_put_off};
pub use balances::balance;
pub use debts::arrears;
pub use decision::{Facts, decide, decide_on, open_refusal};
pub use lists::branches;
pub use receipts::decide_run;
pub use statements::statement;
pub use vacancies::{matching, vacant};
