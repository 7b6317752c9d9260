//! One command or one question over the tables, by the rows that it is about alone: the verdict on a command ([`ask`]), its change in
//! one transaction ([`apply`]), and the answer to a question ([`look_up`]).
#![tactic(auto)]

mod answers;
mod endings;
mod verdicts;

pub use answers::look_up;
pub use dh_schema::apply;
pub use verdicts::ask;
