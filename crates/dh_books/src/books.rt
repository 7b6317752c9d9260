//! All rows in memory, by key.

mod changes;
mod endings;
mod fees;
mod leases;
mod months;
mod people;
mod properties;
mod runs;

ghost use Rattle.std.specs.Prelude.{◌≡◌, None};
ghost use Rattle.std.specs.FinMap as fin;
ghost use Rattle.dh_model.specs.Books.{empty_books};

use dh_model::OpenRun;
use dh_types::{
    Branch, BranchFee, Charge, ChargeIndex, Client, Ending, EntryDay, EntryMonth, Id, Inspection,
    Lease, LeaseNo, Month, Owner, Part, PartFee, Property, Receipt, ReceiptNo, Registration, Run,
    Staff, Version, Viewing,
};
use std::alloc::Global;
use std::collections::BTreeMap;
use std::marker::Model;

/// The books: rows by key, the first month, the next month, the version and the open run. A clause sees the machine's state.
#[derive(Drop)]
pub struct Books {
    branches: BTreeMap<Id, Branch>,
    staff: BTreeMap<Id, Staff>,
    owners: BTreeMap<Id, Owner>,
    properties: BTreeMap<Id, Property>,
    clients: BTreeMap<Id, Client>,
    registrations: BTreeMap<(Id, Id), Registration>,
    viewings: BTreeMap<(Id, Id), Viewing>,
    inspections: BTreeMap<(Id, EntryDay), Inspection>,
    leases: BTreeMap<LeaseNo, Lease>,
    charges: BTreeMap<(LeaseNo, ChargeIndex), Charge>,
    receipts: BTreeMap<ReceiptNo, Receipt>,
    runs: BTreeMap<EntryMonth, Run>,
    parts: BTreeMap<(EntryMonth, Id), Part>,
    branch_fees: BTreeMap<Id, BranchFee>,
    part_fees: BTreeMap<(EntryMonth, Id), PartFee>,
    endings: BTreeMap<LeaseNo, Ending>,
    first: Month,
    next: Month,
    version: Version,
    open_run: Option<OpenRun>,
}

impl Model for Books {
    ghost use Rattle.std.specs.FinMap.{from_entries};
    ghost use Rattle.dh_model.specs.Books.{State};
    ghost use Rattle.dh_model.specs.Codes.{state_code};

    ghost Value = { State };

    ghost coded = { state_code };

    ghost use Rattle.dh_books.specs.Seen.{AreKept, state_of};

    ghost view = { state_of };

    ghost invariant = { λ b. AreKept (from_entries b.leases.entries) (from_entries b.parts.entries) };
}

impl Books {
    /// Books of this version without a row or an open run.
    pub fn new(alloc: Global, version: Version, first: Month, next: Month) -> Books
        ensures { result ≡ record { books = record (empty_books first) { next = next; version = version }; open_run = None } }
    {
        Books {
            branches: BTreeMap::new(alloc),
            staff: BTreeMap::new(alloc),
            owners: BTreeMap::new(alloc),
            properties: BTreeMap::new(alloc),
            clients: BTreeMap::new(alloc),
            registrations: BTreeMap::new(alloc),
            viewings: BTreeMap::new(alloc),
            inspections: BTreeMap::new(alloc),
            leases: BTreeMap::new(alloc),
            charges: BTreeMap::new(alloc),
            receipts: BTreeMap::new(alloc),
            runs: BTreeMap::new(alloc),
            parts: BTreeMap::new(alloc),
            branch_fees: BTreeMap::new(alloc),
            part_fees: BTreeMap::new(alloc),
            endings: BTreeMap::new(alloc),
            first,
            next,
            version,
            open_run: None,
        }
    }

    /// The month that the books begin with.
    pub fn first(&self) -> Month
        ensures { result ≡ self.now.books.first }
    {
        self.first
    }

    /// The month whose rent is to be run next.
    pub fn next(&self) -> Month
        ensures { result ≡ self.now.books.next }
    {
        self.next
    }

    /// Which version of the books the file holds.
    pub fn version(&self) -> Version
        ensures { result ≡ self.now.books.version }
    {
        self.version
    }

    /// The run that is under way.
    pub fn open_run(&self) -> Option<OpenRun>
        ensures { result ≡ self.now.open_run }
    {
        self.open_run
    }
}
