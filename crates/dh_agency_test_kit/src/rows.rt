//! Rows as text.

use sqlite::types::ValueRef;
use sqlite::{Alter, Connection, Row};
use std::alloc::{AllocError, Global};
use std::str;

// The tables, each with the query for its rows, rising by key.
const TABLES: [(&str, &str); 17] = [
    (
        "branch",
        "SELECT branch_no, street, city, postcode FROM branch ORDER BY branch_no",
    ),
    (
        "staff",
        "SELECT staff_no, name, position, branch_no FROM staff ORDER BY staff_no",
    ),
    (
        "owner",
        "SELECT owner_no, name, address, telephone FROM owner ORDER BY owner_no",
    ),
    (
        "property",
        "SELECT property_no, street, city, postcode, type, rooms, rent, owner_no, staff_no, branch_no FROM property ORDER BY property_no",
    ),
    (
        "client",
        "SELECT client_no, name, telephone, pref_type, max_rent FROM client ORDER BY client_no",
    ),
    (
        "registration",
        "SELECT client_no, branch_no, staff_no, day FROM registration ORDER BY client_no, branch_no",
    ),
    (
        "viewing",
        "SELECT client_no, property_no, day, comment FROM viewing ORDER BY client_no, property_no",
    ),
    (
        "inspection",
        "SELECT property_no, day, staff_no, comment FROM inspection ORDER BY property_no, day",
    ),
    (
        "lease",
        "SELECT lease_no, client_no, property_no, start_day, months, method, rent FROM lease ORDER BY lease_no",
    ),
    (
        "charge",
        "SELECT lease_no, k, month, day, amount FROM charge ORDER BY lease_no, k",
    ),
    (
        "receipt",
        "SELECT receipt_no, req_key, lease_no, kind, amount, day FROM receipt ORDER BY receipt_no",
    ),
    (
        "run",
        "SELECT month, req_key, due_count, due_total, closed FROM run ORDER BY month",
    ),
    (
        "part",
        "SELECT month, branch_no, through_lease, due_count, due_total FROM part ORDER BY month, branch_no",
    ),
    (
        "branch_fee",
        "SELECT branch_no, fee FROM branch_fee ORDER BY branch_no",
    ),
    (
        "part_fee",
        "SELECT month, branch_no, fee, fee_total FROM part_fee ORDER BY month, branch_no",
    ),
    (
        "ending",
        "SELECT lease_no, months FROM ending ORDER BY lease_no",
    ),
    (
        "meta",
        "SELECT id, version, first_month, next_month FROM meta",
    ),
];

fn cell_text(alloc: Global, value: ValueRef<'_>) -> Result<String, AllocError> {
    match value {
        ValueRef::Null => "NULL".to_string(alloc),
        ValueRef::Int(n) => format!(in alloc; "{n}"),
        ValueRef::Text(bytes) => str::from_utf8(bytes).unwrap_or("no text").to_string(alloc),
        _ => "no text".to_string(alloc),
    }
}

fn push_row(alloc: Global, text: &mut String, row: &Row) -> Result<(), AllocError> {
    for at in 0..row.column_count() {
        if at > 0 {
            text.push_str(",")?;
        }
        if let Ok(value) = row.get_ref(at) {
            text.push_str(cell_text(alloc, value)?.as_str())?;
        }
    }
    text.push_str(";")
}

/// The rows that the query finds: commas between the columns, a semicolon behind each row.
pub fn found<S: Alter>(
    alloc: Global,
    conn: &mut Connection<S>,
    sql: &str,
) -> Result<String, AllocError> {
    let Ok(rows) = conn.query_all(sql, &[]) else {
        return "no rows".to_string(alloc);
    };
    let mut text = String::new(alloc);
    for row in &rows {
        push_row(alloc, &mut text, row)?;
    }
    Ok(text)
}

/// The rows of all tables, each table's on a line behind its name; `none` where it has none, and `no rows` where there is no such table.
pub fn all_rows<S: Alter>(alloc: Global, conn: &mut Connection<S>) -> Result<String, AllocError> {
    let mut text = String::new(alloc);
    for (name, sql) in &TABLES {
        text.push_str(name)?;
        text.push_str(": ")?;
        let rows = found(alloc, conn, sql)?;
        text.push_str(if rows.is_empty() {
            "none"
        } else {
            rows.as_str()
        })?;
        text.push_str("\n")?;
    }
    Ok(text)
}

/// The rows of the table that is named so, in such a text.
pub fn rows_of<'a>(text: &'a str, table: &str) -> &'a str {
    for line in text.lines() {
        let (name, rows) = line.split_once(": ").unwrap_or((line, ""));
        if name == table {
            return rows;
        }
    }
    "no table"
}
