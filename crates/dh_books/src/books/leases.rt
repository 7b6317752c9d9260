//! Leases, their charges, and receipts.

ghost use Rattle.std.specs.Prelude.{◌≡◌, ◌≤◌, length, OnOk, OnErr, option_copied};
ghost use Rattle.std.specs.FinMap as fin;
ghost use Rattle.dh_values.specs.declared.limits.TheConstants.{MOST_NUMBER};
ghost use Rattle.dh_model.specs.BatchLaws.{AreNumbered};

use super::Books;
use dh_types::{Charge, ChargeIndex, Lease, LeaseNo, Receipt, ReceiptNo};
use std::alloc::AllocError;
use std::collections::btree_map::Values;

impl Books {
    /// The lease of this number.
    pub fn lease(&self, key: &LeaseNo) -> Option<&Lease>
        ensures value { option_copied result ≡ fin.get self.now.books.leases key.now }
        ensures numbered { AreNumbered self.now.books }
    {
        self.leases.get(key)
    }

    /// Puts the lease under its key, in the place of the one that has it. An error changes nothing.
    pub fn put_lease(&mut self, row: Lease) -> Result<(), AllocError>
        ensures ok { OnOk result (self.new ≡ record self.old {
          books = record self.old.books { leases = fin.insert self.old.books.leases row.terms.number row };
        }) }
        ensures err { OnErr result (self.new ≡ self.old) }
    {
        let number = row.key();
        let _before = self.leases.insert(number, row)?;
        Ok(())
    }

    /// All leases, rising by number. Each stands under its number, so there are no more than numbers.
    pub fn leases(&self) -> Values<'_, LeaseNo, Lease>
        ensures rows { result ≡ fin.values self.now.books.leases }
        ensures numbered { AreNumbered self.now.books }
        ensures few { length (fin.values self.now.books.leases) ≤ MOST_NUMBER }
    {
        self.leases.values()
    }

    /// The charge of this lease and index.
    pub fn charge(&self, key: &(LeaseNo, ChargeIndex)) -> Option<&Charge>
        ensures { option_copied result ≡ fin.get self.now.books.charges key.now }
    {
        self.charges.get(key)
    }

    /// Puts the charge under its key, in the place of the one that has it. An error changes nothing.
    pub fn put_charge(&mut self, row: Charge) -> Result<(), AllocError>
        ensures ok { OnOk result (self.new ≡ record self.old {
          books = record self.old.books { charges = fin.insert self.old.books.charges (row.lease, row.index) row };
        }) }
        ensures err { OnErr result (self.new ≡ self.old) }
    {
        let _before = self.charges.insert((row.lease, row.index), row)?;
        Ok(())
    }

    /// All charges, rising by lease and index.
    pub fn charges(&self) -> Values<'_, (LeaseNo, ChargeIndex), Charge>
        ensures { result ≡ fin.values self.now.books.charges }
    {
        self.charges.values()
    }

    /// The receipt of this number.
    pub fn receipt(&self, key: &ReceiptNo) -> Option<&Receipt>
        ensures { option_copied result ≡ fin.get self.now.books.receipts key.now }
    {
        self.receipts.get(key)
    }

    /// Puts the receipt under its key, in the place of the one that has it. An error changes nothing.
    pub fn put_receipt(&mut self, row: Receipt) -> Result<(), AllocError>
        ensures ok { OnOk result (self.new ≡ record self.old {
          books = record self.old.books { receipts = fin.insert self.old.books.receipts row.number row };
        }) }
        ensures err { OnErr result (self.new ≡ self.old) }
    {
        let _before = self.receipts.insert(row.number, row)?;
        Ok(())
    }

    /// All receipts, rising by number.
    pub fn receipts(&self) -> Values<'_, ReceiptNo, Receipt>
        ensures { result ≡ fin.values self.now.books.receipts }
    {
        self.receipts.values()
    }

    /// How many receipts there are.
    pub fn receipt_count(&self) -> usize
        ensures { result ≡ fin.len self.now.books.receipts }
    {
        self.receipts.len()
    }
}
