//! The rules of the audit: a function for each says whether it holds of the books. Whether the runs follow one another, and each month is
//! charged as its run says, is `months_in_order`.
#![tactic(auto)]

mod closed_charges;
mod closed_dues;
mod closed_months;
mod closed_parts;
mod closed_sums;
mod distinct;
mod fees;
mod leases;
mod months;
mod occupancies;
mod open_months;
mod receipts;
mod references;
mod runs;
mod same_lists;
mod staff;

pub use closed_months::closed_months_are_in_order;
pub use fees::fees_in_order;
pub use leases::{endings_in_order, leases_in_time, one_start_a_day};
pub use months::months_in_order;
pub use occupancies::leases_never_overlap;
pub use open_months::open_months_are_in_order;
pub use receipts::{deposits_in_order, keys_in_order};
pub use references::names_what_is_there;
pub use runs::runs_in_order;
pub use staff::{manages_at_most_hundred, staff_of_the_branch};
