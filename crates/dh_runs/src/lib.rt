//! Rent runs over the tables: the transactions of one, which are its opening, a batch and its end; the loop over them, which a
//! fault may end anywhere; and the recovery. Read [`post_batch`] first, and then [`post_some`]. Sound tables of the first version, with no run open,
//! are taken to the second by [`migrate_in`].
#![tactic(auto)]

mod batch;
mod batches;
mod checks;
mod first_version;
mod laws;
mod migration;
mod plan;
mod problem;
mod recovery;
mod rows;
mod run_end;
mod run_start;
mod second_version;

pub use batch::{Batch, post_batch};
pub use batches::{RunState, post_some, run_all};
pub use checks::check;
pub use first_version::{close_run_1, post_batch_1};
pub use laws::{migrated_books_are_in_order, migration_moves_no_balance};
pub use migration::migrate_in;
pub use plan::plan_run;
pub use problem::Problem;
pub use recovery::recover_in;
pub use run_end::close_run;
pub use run_start::open_run;
