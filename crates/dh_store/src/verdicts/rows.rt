//! The rows that a command looks at.

ghost use Rattle.std.specs.Prelude.{◌≡◌, OnOk};
ghost use Rattle.std.specs.FinMap as fin;
ghost use Rattle.sqlite.specs.State.{HasCleanDisk};
ghost use Rattle.sqlite.specs.Held.{state};
ghost use Rattle.dh_types.specs.declared.command.Command.TheVariants as command;
ghost use Rattle.dh_model.specs.Books.{State};
ghost use Rattle.dh_model.specs.Checks.{is_same_text};
ghost use Rattle.dh_model.specs.Whole.{rows_where};
ghost use Rattle.dh_schema.specs.Store.{IsReady};
ghost use Rattle.dh_schema.specs.Looked.{AreBoth};
ghost use Rattle.dh_schema.specs.Months.{IsReadyOf};
ghost use Rattle.dh_schema.specs.Reading.{OnlyReads};
ghost use Rattle.dh_store.specs.Gathered.{Gathers, with_endings, with_leases, with_managed, with_registration};

use crate::endings::{held_leases, look_at_endings_of};
use dh_books::Books;
use dh_schema::{StoreFault, look, look_later};
use dh_tables::{
    BranchNumbered, ClientNumbered, DepositsOfLease, EndingOf, FeeOfBranch, InspectionOf,
    LeaseNumbered, LeasesOfClientFrom, LeasesOfProperty, MemberNumbered, OwnerNumbered,
    PropertiesManaged, PropertyNumbered, ReceiptKeyed, RegistrationAt, RunKeyed, ViewingOf,
};
use dh_types::{
    BranchFee, Ending, Id, Inspection, LeaseTerms, Property, ReceiptOrder, Registration, RunOrder,
    Staff, Version, Viewing,
};
use sqlite::{Alter, Connection};
use std::alloc::Global;

/// The branch of this number, and its fee.
pub(crate) fn at_fee<S: Alter>(
    alloc: Global,
    conn: &mut Connection<S>,
    version: Version,
    fee: &BranchFee,
    books: &mut Books,
) -> Result<(), StoreFault>
    requires { HasCleanDisk (state S.Store conn.old) → IsReadyOf version (state S.Store conn.old) }
    ensures gathered { Gathers (command.Fee fee.now) result (state S.Store conn.old) books.old (state S.Store conn.new) books.new }
    ensures reads { OnlyReads (state S.Store conn.old) (state S.Store conn.new) result }
{
    let branch = fee.branch;
    look(alloc, conn, &BranchNumbered { number: branch }, books)?;
    look_later(alloc, conn, version, &FeeOfBranch { branch }, books)
}

/// The member of staff of this number, and the branch.
pub(crate) fn at_staff<S: Alter>(
    alloc: Global,
    conn: &mut Connection<S>,
    it: &Staff,
    books: &mut Books,
) -> Result<(), StoreFault>
    requires { HasCleanDisk (state S.Store conn.old) → IsReady (state S.Store conn.old) }
    ensures gathered { Gathers (command.Staff it.now) result (state S.Store conn.old) books.old (state S.Store conn.new) books.new }
    ensures reads { OnlyReads (state S.Store conn.old) (state S.Store conn.new) result }
{
    look(alloc, conn, &BranchNumbered { number: it.branch }, books)?;
    look(alloc, conn, &MemberNumbered { number: it.number }, books)
}

/// The registration of the client at the branch, and whom it names.
pub(crate) fn at_register<S: Alter>(
    alloc: Global,
    conn: &mut Connection<S>,
    it: &Registration,
    books: &mut Books,
) -> Result<(), StoreFault>
    requires { HasCleanDisk (state S.Store conn.old) → IsReady (state S.Store conn.old) }
    ensures gathered { Gathers (command.Register it.now) result (state S.Store conn.old) books.old (state S.Store conn.new) books.new }
    ensures reads { OnlyReads (state S.Store conn.old) (state S.Store conn.new) result }
{
    let (client, branch) = (it.client, it.branch);
    look(alloc, conn, &BranchNumbered { number: branch }, books)?;
    look(alloc, conn, &MemberNumbered { number: it.staff }, books)?;
    look(alloc, conn, &ClientNumbered { number: client }, books)?;
    look(alloc, conn, &RegistrationAt { client, branch }, books)
}

/// The property, and where a manager is given, that member of staff and what it manages.
pub(crate) fn managed<S: Alter>(
    alloc: Global,
    conn: &mut Connection<S>,
    property: Id,
    manager: Option<Id>,
    books: &mut Books,
) -> Result<(), StoreFault>
    requires { HasCleanDisk (state S.Store conn.old) → IsReady (state S.Store conn.old) }
    ensures gathered { (t b : State) → AreBoth t b (state S.Store conn.old) books.old → b.books.staff ≡ fin.empty → b.books.properties ≡ fin.empty
        → OnOk result (AreBoth t (with_managed property manager t b) (state S.Store conn.new) books.new) }
    ensures reads { OnlyReads (state S.Store conn.old) (state S.Store conn.new) result }
{
    look(alloc, conn, &PropertyNumbered { number: property }, books)?;
    match manager {
        Some(member) => {
            look(alloc, conn, &MemberNumbered { number: member }, books)?;
            look(alloc, conn, &PropertiesManaged { staff: member }, books)
        }
        None => Ok(()),
    }
}

/// The property of this number, and whom it names.
pub(crate) fn at_property<S: Alter>(
    alloc: Global,
    conn: &mut Connection<S>,
    it: &Property,
    books: &mut Books,
) -> Result<(), StoreFault>
    requires { HasCleanDisk (state S.Store conn.old) → IsReady (state S.Store conn.old) }
    ensures gathered { Gathers (command.Property it.now) result (state S.Store conn.old) books.old (state S.Store conn.new) books.new }
    ensures reads { OnlyReads (state S.Store conn.old) (state S.Store conn.new) result }
{
    look(alloc, conn, &BranchNumbered { number: it.branch }, books)?;
    look(alloc, conn, &OwnerNumbered { number: it.owner }, books)?;
    managed(alloc, conn, it.number, it.staff, books)
}

/// The viewing of the property by the client, and they.
pub(crate) fn at_viewing<S: Alter>(
    alloc: Global,
    conn: &mut Connection<S>,
    it: &Viewing,
    books: &mut Books,
) -> Result<(), StoreFault>
    requires { HasCleanDisk (state S.Store conn.old) → IsReady (state S.Store conn.old) }
    ensures gathered { Gathers (command.Viewing it.now) result (state S.Store conn.old) books.old (state S.Store conn.new) books.new }
    ensures reads { OnlyReads (state S.Store conn.old) (state S.Store conn.new) result }
{
    let (client, property) = (it.client, it.property);
    look(alloc, conn, &PropertyNumbered { number: property }, books)?;
    look(alloc, conn, &ClientNumbered { number: client }, books)?;
    look(alloc, conn, &ViewingOf { client, property }, books)
}

/// The inspection of the property on the day, and whom it names.
pub(crate) fn at_inspection<S: Alter>(
    alloc: Global,
    conn: &mut Connection<S>,
    it: &Inspection,
    books: &mut Books,
) -> Result<(), StoreFault>
    requires { HasCleanDisk (state S.Store conn.old) → IsReady (state S.Store conn.old) }
    ensures gathered { Gathers (command.Inspection it.now) result (state S.Store conn.old) books.old (state S.Store conn.new) books.new }
    ensures reads { OnlyReads (state S.Store conn.old) (state S.Store conn.new) result }
{
    let (property, day) = (it.property, it.day);
    look(alloc, conn, &MemberNumbered { number: it.staff }, books)?;
    look(alloc, conn, &PropertyNumbered { number: property }, books)?;
    look(alloc, conn, &InspectionOf { property, day }, books)
}

// The client's registration at the branch of the property, where the books have that.
fn registration<S: Alter>(
    alloc: Global,
    conn: &mut Connection<S>,
    terms: &LeaseTerms,
    books: &mut Books,
) -> Result<(), StoreFault>
    requires { HasCleanDisk (state S.Store conn.old) → IsReady (state S.Store conn.old) }
    ensures gathered { (t b : State) → AreBoth t b (state S.Store conn.old) books.old → b.books.registrations ≡ fin.empty
        → b.books.properties ≡ rows_where (λ property. is_same_text property.number terms.now.property) t.books.properties
        → OnOk result (AreBoth t (with_registration terms.now t b) (state S.Store conn.new) books.new) }
    ensures reads { OnlyReads (state S.Store conn.old) (state S.Store conn.new) result }
{
    match books.property(&terms.property) {
        Some(property) => {
            let (client, branch) = (terms.client, property.branch);
            look(alloc, conn, &RegistrationAt { client, branch }, books)
        }
        None => Ok(()),
    }
}

// The leases that have this number, are of the property, or are the client's and start that day.
fn leases<S: Alter>(
    alloc: Global,
    conn: &mut Connection<S>,
    terms: &LeaseTerms,
    books: &mut Books,
) -> Result<(), StoreFault>
    requires { HasCleanDisk (state S.Store conn.old) → IsReady (state S.Store conn.old) }
    ensures gathered { (t b : State) → AreBoth t b (state S.Store conn.old) books.old → b.books.leases ≡ fin.empty
        → OnOk result (AreBoth t (with_leases terms.now t b) (state S.Store conn.new) books.new) }
    ensures reads { OnlyReads (state S.Store conn.old) (state S.Store conn.new) result }
{
    let (number, property) = (terms.number, terms.property);
    let (client, start) = (terms.client, terms.start);
    look(alloc, conn, &LeaseNumbered { number }, books)?;
    look(alloc, conn, &LeasesOfProperty { property }, books)?;
    look(alloc, conn, &LeasesOfClientFrom { client, start }, books)
}

// These leases, and the endings of those that were ended early.
fn leases_with_endings<S: Alter>(
    alloc: Global,
    conn: &mut Connection<S>,
    version: Version,
    terms: &LeaseTerms,
    books: &mut Books,
) -> Result<(), StoreFault>
    requires { HasCleanDisk (state S.Store conn.old) → IsReadyOf version (state S.Store conn.old) }
    ensures gathered { (t b : State) → AreBoth t b (state S.Store conn.old) books.old → b.books.leases ≡ fin.empty → b.books.endings ≡ fin.empty
        → OnOk result (AreBoth t (with_endings terms.now t (with_leases terms.now t b)) (state S.Store conn.new) books.new) }
    ensures reads { OnlyReads (state S.Store conn.old) (state S.Store conn.new) result }
{
    leases(alloc, conn, terms, books)?;
    let beside = held_leases(alloc, books)?;
    look_at_endings_of(alloc, conn, version, &beside, books)
}

/// The leases beside it with their endings, the property, the client and its registration.
pub(crate) fn at_lease<S: Alter>(
    alloc: Global,
    conn: &mut Connection<S>,
    version: Version,
    terms: &LeaseTerms,
    books: &mut Books,
) -> Result<(), StoreFault>
    requires { HasCleanDisk (state S.Store conn.old) → IsReadyOf version (state S.Store conn.old) }
    ensures gathered { Gathers (command.Lease terms.now) result (state S.Store conn.old) books.old (state S.Store conn.new) books.new }
    ensures reads { OnlyReads (state S.Store conn.old) (state S.Store conn.new) result }
{
    let (property, client) = (terms.property, terms.client);
    look(alloc, conn, &PropertyNumbered { number: property }, books)?;
    look(alloc, conn, &ClientNumbered { number: client }, books)?;
    registration(alloc, conn, terms, books)?;
    leases_with_endings(alloc, conn, version, terms, books)
}

/// What has the key, the lease, and the deposit on it.
pub(crate) fn at_receipt<S: Alter>(
    alloc: Global,
    conn: &mut Connection<S>,
    order: &ReceiptOrder,
    books: &mut Books,
) -> Result<(), StoreFault>
    requires { HasCleanDisk (state S.Store conn.old) → IsReady (state S.Store conn.old) }
    ensures gathered { Gathers (command.Receipt order.now) result (state S.Store conn.old) books.old (state S.Store conn.new) books.new }
    ensures reads { OnlyReads (state S.Store conn.old) (state S.Store conn.new) result }
{
    let (key, lease) = (order.key, order.payment.lease);
    look(alloc, conn, &RunKeyed { key }, books)?;
    look(alloc, conn, &LeaseNumbered { number: lease }, books)?;
    look(alloc, conn, &ReceiptKeyed { key }, books)?;
    look(alloc, conn, &DepositsOfLease { lease }, books)
}

/// What has the key.
pub(crate) fn at_run<S: Alter>(
    alloc: Global,
    conn: &mut Connection<S>,
    order: &RunOrder,
    books: &mut Books,
) -> Result<(), StoreFault>
    requires { HasCleanDisk (state S.Store conn.old) → IsReady (state S.Store conn.old) }
    ensures gathered { Gathers (command.Run order.now) result (state S.Store conn.old) books.old (state S.Store conn.new) books.new }
    ensures reads { OnlyReads (state S.Store conn.old) (state S.Store conn.new) result }
{
    let key = order.key;
    look(alloc, conn, &RunKeyed { key }, books)?;
    look(alloc, conn, &ReceiptKeyed { key }, books)
}

/// The lease, and its ending.
pub(crate) fn at_end<S: Alter>(
    alloc: Global,
    conn: &mut Connection<S>,
    version: Version,
    ending: &Ending,
    books: &mut Books,
) -> Result<(), StoreFault>
    requires { HasCleanDisk (state S.Store conn.old) → IsReadyOf version (state S.Store conn.old) }
    ensures gathered { Gathers (command.End ending.now) result (state S.Store conn.old) books.old (state S.Store conn.new) books.new }
    ensures reads { OnlyReads (state S.Store conn.old) (state S.Store conn.new) result }
{
    let lease = ending.lease;
    look(alloc, conn, &LeaseNumbered { number: lease }, books)?;
    look_later(alloc, conn, version, &EndingOf { lease }, books)
}
