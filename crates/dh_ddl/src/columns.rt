//! The columns of each table, each with its parameter and what it holds: for the text that makes the table, and for those that read and write its rows.

/// The text `create` of a table with these columns, `insert` of a row, or `select` of rows, with more at its end.
#[macro_export]
macro_rules! text_with {
    (create, $more:literal, $table:literal, $first:literal $one:literal $held:literal $(, $name:literal $number:literal $holds:literal)*) => {
        concat!("CREATE TABLE ", $table, " (", $first, " ", $held, $(", ", $name, " ", $holds,)* $more, ") STRICT")
    };
    (insert, $more:literal, $table:literal, $first:literal $one:literal $held:literal $(, $name:literal $number:literal $holds:literal)*) => {
        concat!("INSERT INTO ", $table, " (", $first, $(", ", $name,)* ") VALUES (", $one, $(", ", $number,)* $more, ")")
    };
    (select, $more:literal, $table:literal, $first:literal $one:literal $held:literal $(, $name:literal $number:literal $holds:literal)*) => {
        concat!("SELECT ", $first, $(", ", $name,)* " FROM ", $table, $more)
    };
}

/// The same of one of our tables.
#[macro_export]
macro_rules! text_of {
    ($what:ident, meta, $more:literal) => {
        $crate::text_with!(
            $what, $more, "meta",
            "id" "?1" "INTEGER PRIMARY KEY",
            "version" "?2" "INTEGER NOT NULL",
            "first_month" "?3" "INTEGER NOT NULL",
            "next_month" "?4" "INTEGER NOT NULL"
        )
    };
    ($what:ident, branch, $more:literal) => {
        $crate::text_with!(
            $what, $more, "branch",
            "branch_no" "?1" "TEXT NOT NULL PRIMARY KEY",
            "street" "?2" "TEXT NOT NULL",
            "city" "?3" "TEXT NOT NULL",
            "postcode" "?4" "TEXT NOT NULL"
        )
    };
    ($what:ident, staff, $more:literal) => {
        $crate::text_with!(
            $what, $more, "staff",
            "staff_no" "?1" "TEXT NOT NULL PRIMARY KEY",
            "name" "?2" "TEXT NOT NULL",
            "position" "?3" "TEXT NOT NULL",
            "branch_no" "?4" "TEXT NOT NULL REFERENCES branch"
        )
    };
    ($what:ident, owner, $more:literal) => {
        $crate::text_with!(
            $what, $more, "owner",
            "owner_no" "?1" "TEXT NOT NULL PRIMARY KEY",
            "name" "?2" "TEXT NOT NULL",
            "address" "?3" "TEXT NOT NULL",
            "telephone" "?4" "TEXT NOT NULL"
        )
    };
    ($what:ident, property, $more:literal) => {
        $crate::text_with!(
            $what, $more, "property",
            "property_no" "?1" "TEXT NOT NULL PRIMARY KEY",
            "street" "?2" "TEXT NOT NULL",
            "city" "?3" "TEXT NOT NULL",
            "postcode" "?4" "TEXT NOT NULL",
            "type" "?5" "TEXT NOT NULL",
            "rooms" "?6" "INTEGER NOT NULL",
            "rent" "?7" "INTEGER NOT NULL",
            "owner_no" "?8" "TEXT NOT NULL REFERENCES owner",
            "staff_no" "?9" "TEXT REFERENCES staff",
            "branch_no" "?10" "TEXT NOT NULL REFERENCES branch"
        )
    };
    ($what:ident, client, $more:literal) => {
        $crate::text_with!(
            $what, $more, "client",
            "client_no" "?1" "TEXT NOT NULL PRIMARY KEY",
            "name" "?2" "TEXT NOT NULL",
            "telephone" "?3" "TEXT NOT NULL",
            "pref_type" "?4" "TEXT NOT NULL",
            "max_rent" "?5" "INTEGER NOT NULL"
        )
    };
    ($what:ident, registration, $more:literal) => {
        $crate::text_with!(
            $what, $more, "registration",
            "client_no" "?1" "TEXT NOT NULL REFERENCES client",
            "branch_no" "?2" "TEXT NOT NULL REFERENCES branch",
            "staff_no" "?3" "TEXT NOT NULL REFERENCES staff",
            "day" "?4" "TEXT NOT NULL"
        )
    };
    ($what:ident, viewing, $more:literal) => {
        $crate::text_with!(
            $what, $more, "viewing",
            "client_no" "?1" "TEXT NOT NULL REFERENCES client",
            "property_no" "?2" "TEXT NOT NULL REFERENCES property",
            "day" "?3" "TEXT NOT NULL",
            "comment" "?4" "TEXT"
        )
    };
    ($what:ident, inspection, $more:literal) => {
        $crate::text_with!(
            $what, $more, "inspection",
            "property_no" "?1" "TEXT NOT NULL REFERENCES property",
            "day" "?2" "TEXT NOT NULL",
            "staff_no" "?3" "TEXT NOT NULL REFERENCES staff",
            "comment" "?4" "TEXT NOT NULL"
        )
    };
    ($what:ident, lease, $more:literal) => {
        $crate::text_with!(
            $what, $more, "lease",
            "lease_no" "?1" "INTEGER PRIMARY KEY",
            "client_no" "?2" "TEXT NOT NULL REFERENCES client",
            "property_no" "?3" "TEXT NOT NULL REFERENCES property",
            "start_day" "?4" "TEXT NOT NULL",
            "months" "?5" "INTEGER NOT NULL",
            "method" "?6" "TEXT NOT NULL",
            "rent" "?7" "INTEGER NOT NULL"
        )
    };
    ($what:ident, charge, $more:literal) => {
        $crate::text_with!(
            $what, $more, "charge",
            "lease_no" "?1" "INTEGER NOT NULL REFERENCES lease",
            "k" "?2" "INTEGER NOT NULL",
            "month" "?3" "INTEGER NOT NULL",
            "day" "?4" "TEXT NOT NULL",
            "amount" "?5" "INTEGER NOT NULL"
        )
    };
    ($what:ident, receipt, $more:literal) => {
        $crate::text_with!(
            $what, $more, "receipt",
            "receipt_no" "?1" "INTEGER PRIMARY KEY",
            "req_key" "?2" "TEXT NOT NULL UNIQUE",
            "lease_no" "?3" "INTEGER NOT NULL REFERENCES lease",
            "kind" "?4" "TEXT NOT NULL",
            "amount" "?5" "INTEGER NOT NULL",
            "day" "?6" "TEXT NOT NULL"
        )
    };
    ($what:ident, run, $more:literal) => {
        $crate::text_with!(
            $what, $more, "run",
            "month" "?1" "INTEGER PRIMARY KEY",
            "req_key" "?2" "TEXT NOT NULL UNIQUE",
            "due_count" "?3" "INTEGER NOT NULL",
            "due_total" "?4" "INTEGER NOT NULL",
            "closed" "?5" "INTEGER NOT NULL"
        )
    };
    ($what:ident, part, $more:literal) => {
        $crate::text_with!(
            $what, $more, "part",
            "month" "?1" "INTEGER NOT NULL REFERENCES run",
            "branch_no" "?2" "TEXT NOT NULL REFERENCES branch",
            "through_lease" "?3" "INTEGER NOT NULL",
            "due_count" "?4" "INTEGER NOT NULL",
            "due_total" "?5" "INTEGER NOT NULL"
        )
    };
    ($what:ident, branch_fee, $more:literal) => {
        $crate::text_with!(
            $what, $more, "branch_fee",
            "branch_no" "?1" "TEXT NOT NULL PRIMARY KEY REFERENCES branch",
            "fee" "?2" "INTEGER NOT NULL"
        )
    };
    ($what:ident, part_fee, $more:literal) => {
        $crate::text_with!(
            $what, $more, "part_fee",
            "month" "?1" "INTEGER NOT NULL",
            "branch_no" "?2" "TEXT NOT NULL",
            "fee" "?3" "INTEGER NOT NULL",
            "fee_total" "?4" "INTEGER NOT NULL"
        )
    };
    ($what:ident, ending, $more:literal) => {
        $crate::text_with!(
            $what, $more, "ending",
            "lease_no" "?1" "INTEGER PRIMARY KEY REFERENCES lease",
            "months" "?2" "INTEGER NOT NULL"
        )
    };
}
