//! The audit of the books: the least rule that is broken. Each rule has a function of its own in `dh_audit_rules`.
#![tactic(auto)]

mod all_rules;

pub use all_rules::audit;
