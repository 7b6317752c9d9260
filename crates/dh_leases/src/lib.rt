//! What a lease covers, what falls due on it, and a month's rent run of what falls due: its batches, what each branch has of it,
//! and the books after it. Read [`due_in`] first, and then [`with_posted`]. The batches of a run are counted out once by [`plan_of`].
#![tactic(auto)]

mod batch_counts;
mod by_branch;
mod charges;
mod fees;
mod parts;
mod plans;
mod posted;
mod sums;
mod terms;
mod whole_run;

pub use batch_counts::{batches, batches_for, batches_shown};
pub use by_branch::{dues_by_branch, of_branch};
pub use charges::{due_in, dues};
pub use fees::branch_fees;
pub use parts::branch_parts;
pub use plans::{BatchRows, BranchRun, Plan, plan_of};
pub use posted::{
    open_row, posted_charges, posted_fees, posted_parts, run_shown, whole, with_posted,
};
pub use sums::{Sum, charge_fee, sum_of};
pub use terms::{covers, end_of, overlap};
pub use whole_run::with_run;
