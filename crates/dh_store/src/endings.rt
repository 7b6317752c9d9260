//! Looks at endings, of which a file of the first version has no table.

ghost use Rattle.std.specs.Prelude.{◌≡◌, nat_eq, IfErr, IfOk, OnOk};
ghost use Rattle.std.specs.List.{list_any};
ghost use Rattle.std.specs.FinMap as fin;
ghost use Rattle.sqlite.specs.State.{HasCleanDisk};
ghost use Rattle.sqlite.specs.Held.{state};
ghost use Rattle.dh_model.specs.Whole.{rows_where};
ghost use Rattle.dh_schema.specs.Faults.{IsFirstFault};
ghost use Rattle.dh_schema.specs.Store.{tables};
ghost use Rattle.dh_schema.specs.Months.{IsReadyOf};
ghost use Rattle.dh_schema.specs.Reading.{OnlyReads};

use dh_books::Books;
use dh_schema::{StoreFault, look_later};
use dh_tables::EndingOf;
use dh_types::{Lease, Version};
use sqlite::{Alter, Connection};
use std::alloc::{AllocError, Global};

/// Puts the endings of these leases into books that have none.
pub(crate) fn look_at_endings_of<S: Alter>(
    alloc: Global,
    conn: &mut Connection<S>,
    version: Version,
    leases: &[Lease],
    books: &mut Books,
) -> Result<(), StoreFault>
    requires { HasCleanDisk (state S.Store conn.old) → IsReadyOf version (state S.Store conn.old) }
    ensures gathered { HasCleanDisk (state S.Store conn.new) → OnOk result (books.old.books.endings ≡ fin.empty
        → books.new ≡ record books.old {
          books = record books.old.books {
            endings = rows_where (λ ending. list_any (λ lease. nat_eq ending.lease lease.terms.number) leases.now)
                (tables (state S.Store conn.old)).books.endings;
          };
        }) }
    ensures reads { OnlyReads (state S.Store conn.old) (state S.Store conn.new) result }
{
    for lease in leases {
        let number = lease.terms.number;
        look_later(alloc, conn, version, &EndingOf { lease: number }, books)?;
    }
    Ok(())
}

// The leases that the books have.
fn listed_leases(alloc: Global, books: &Books) -> Result<Vec<Lease>, AllocError>
    ensures { IfOk result (λ leases. leases.items ≡ fin.values books.now.books.leases) }
{
    let mut leases = Vec::new(alloc);
    for lease in books.leases() {
        leases.push(*lease)?;
    }
    Ok(leases)
}

/// The leases that the books have. Want of memory is told as the fault that it is.
pub(crate) fn held_leases(alloc: Global, books: &Books) -> Result<Vec<Lease>, StoreFault>
    ensures leases { IfOk result (λ leases. leases.items ≡ fin.values books.now.books.leases) }
    ensures cause { IfErr result IsFirstFault }
{
    Ok(listed_leases(alloc, books)?)
}
