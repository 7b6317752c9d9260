//! The texts that make the tables and their indexes. A table comes behind those that it refers to.

use crate::text_of;

/// `meta`: one row with the version and the months.
pub const META: &str = text_of!(create, meta, "");

/// `branch`: a row a branch, by its number.
pub const BRANCH: &str = text_of!(create, branch, "");

/// `staff`: a row a member of staff, by the number.
pub const STAFF: &str = text_of!(create, staff, "");

/// `owner`: a row an owner, by the number.
pub const OWNER: &str = text_of!(create, owner, "");

/// `property`: a row a property, by its number; staff_no is NULL where nobody manages it.
pub const PROPERTY: &str = text_of!(create, property, "");

/// `client`: a row a client, by the number.
pub const CLIENT: &str = text_of!(create, client, "");

/// `registration`: a row a client and a branch.
pub const REGISTRATION: &str = text_of!(
    create,
    registration,
    ", PRIMARY KEY (client_no, branch_no)"
);

/// `viewing`: a row a client and a property; comment is NULL where there is none.
pub const VIEWING: &str = text_of!(create, viewing, ", PRIMARY KEY (client_no, property_no)");

/// `inspection`: a row a property and a day.
pub const INSPECTION: &str = text_of!(create, inspection, ", PRIMARY KEY (property_no, day)");

/// `lease`: a row a lease, by its number.
pub const LEASE: &str = text_of!(create, lease, "");

/// `charge`: a row a charge of a lease, by its place k among them.
pub const CHARGE: &str = text_of!(create, charge, ", PRIMARY KEY (lease_no, k)");

/// `receipt`: a row a receipt, by its number; no two have the same request key.
pub const RECEIPT: &str = text_of!(create, receipt, "");

/// `run`: a row a month whose run was opened; no two have the same request key.
pub const RUN: &str = text_of!(create, run, "");

/// `part`: a row a branch and a month: what the run has done there.
pub const PART: &str = text_of!(create, part, ", PRIMARY KEY (month, branch_no)");

/// The index of the properties that a member of staff manages.
pub const PROPERTY_STAFF: &str = "CREATE INDEX property_staff ON property (staff_no)";

/// The index of the properties of an owner, which came with the second version.
pub const PROPERTY_OWNER: &str = "CREATE INDEX property_owner ON property (owner_no)";

/// The index of the properties of a branch, which came with the second version.
pub const PROPERTY_BRANCH: &str = "CREATE INDEX property_branch ON property (branch_no)";

/// The index of the leases of a property.
pub const LEASE_PROPERTY: &str = "CREATE INDEX lease_property ON lease (property_no)";

/// The index of the leases of a client, and those of a client that start on a day.
pub const LEASE_CLIENT: &str = "CREATE INDEX lease_client ON lease (client_no, start_day)";

/// The index of the charges of a month, which the first version alone has.
pub const CHARGE_MONTH: &str = "CREATE INDEX charge_month ON charge (month)";

/// The index of the receipts of a lease, and those of a kind.
pub const RECEIPT_LEASE: &str = "CREATE INDEX receipt_lease ON receipt (lease_no, kind)";

/// The index of the viewings of a property: who manages it can't change without a look at the rows that refer to it.
pub const VIEWING_PROPERTY: &str = "CREATE INDEX viewing_property ON viewing (property_no)";

/// `branch_fee`: a row a branch whose fee was set, by its number.
pub const BRANCH_FEE: &str = text_of!(create, branch_fee, "");

/// `part_fee`: a row a part of a run: the fee that its branch had, and what it comes to.
pub const PART_FEE: &str = text_of!(
    create,
    part_fee,
    ", PRIMARY KEY (month, branch_no), FOREIGN KEY (month, branch_no) REFERENCES part"
);

/// `ending`: a row a lease that ends early, by its number.
pub const ENDING: &str = text_of!(create, ending, "");

/// The text that takes away the index of [`VIEWING_PROPERTY`].
pub const DROP_VIEWING_PROPERTY: &str = "DROP INDEX viewing_property";

/// The text that takes away the index of [`RECEIPT_LEASE`].
pub const DROP_RECEIPT_LEASE: &str = "DROP INDEX receipt_lease";

/// The text that takes away the index of [`CHARGE_MONTH`].
pub const DROP_CHARGE_MONTH: &str = "DROP INDEX charge_month";

/// The text that takes away the index of [`LEASE_CLIENT`].
pub const DROP_LEASE_CLIENT: &str = "DROP INDEX lease_client";

/// The text that takes away the index of [`LEASE_PROPERTY`].
pub const DROP_LEASE_PROPERTY: &str = "DROP INDEX lease_property";

/// The text that takes away the index of [`PROPERTY_STAFF`].
pub const DROP_PROPERTY_STAFF: &str = "DROP INDEX property_staff";

// A list of the tables that both versions have, and of what this macro puts behind them.
macro_rules! with_first_tables {
    ($list:ident) => {
        $list!(
            META, BRANCH, STAFF, OWNER, PROPERTY, CLIENT, REGISTRATION, VIEWING, INSPECTION, LEASE,
            CHARGE, RECEIPT, RUN, PART
        )
    };
}

// Behind these texts, the indexes of the first version.
macro_rules! first_list {
    ($($text:ident),*) => {
        [
            $($text,)* PROPERTY_STAFF, LEASE_PROPERTY, LEASE_CLIENT, CHARGE_MONTH, RECEIPT_LEASE,
            VIEWING_PROPERTY,
        ]
    };
}

// Behind these texts, the tables that came with the second version, and its indexes for look-ups behind all tables.
macro_rules! second_list {
    ($($text:ident),*) => {
        [
            $($text,)* BRANCH_FEE, PART_FEE, ENDING, PROPERTY_STAFF, PROPERTY_OWNER, PROPERTY_BRANCH,
            LEASE_PROPERTY, LEASE_CLIENT, RECEIPT_LEASE, VIEWING_PROPERTY,
        ]
    };
}

/// The texts that make the tables and indexes of the first version, in the order in which they are run.
pub static FIRST: [&str; 20] = with_first_tables!(first_list);

/// The texts that make those of the second.
pub static SECOND: [&str; 24] = with_first_tables!(second_list);

/// The texts that make those of the second of those of the first. The indexes for look-ups are taken away, and made anew behind the later
/// tables.
pub static FIRST_TO_SECOND: [&str; 16] = second_list!(
    DROP_VIEWING_PROPERTY,
    DROP_RECEIPT_LEASE,
    DROP_CHARGE_MONTH,
    DROP_LEASE_CLIENT,
    DROP_LEASE_PROPERTY,
    DROP_PROPERTY_STAFF
);
