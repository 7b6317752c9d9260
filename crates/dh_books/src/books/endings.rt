//! Leases that were ended early, and how long a lease runs.

ghost use Rattle.std.specs.Prelude.{◌≡◌, OnOk, OnErr, option_copied};
ghost use Rattle.std.specs.FinMap as fin;
ghost use Rattle.dh_model.specs.Leases as model;

use super::Books;
use dh_types::{Ending, Lease, LeaseMonths, LeaseNo, LeaseTerms};
use std::alloc::AllocError;
use std::collections::btree_map::Values;

impl Books {
    /// The ending of this lease, where it was ended early.
    pub fn ending(&self, key: &LeaseNo) -> Option<&Ending>
        ensures { option_copied result ≡ fin.get self.now.books.endings key.now }
    {
        self.endings.get(key)
    }

    /// Puts the ending under its key, in the place of the one that has it. An error changes nothing.
    pub fn put_ending(&mut self, row: Ending) -> Result<(), AllocError>
        ensures ok { OnOk result (self.new ≡ record self.old {
          books = record self.old.books { endings = fin.insert self.old.books.endings row.lease row };
        }) }
        ensures err { OnErr result (self.new ≡ self.old) }
    {
        let _before = self.endings.insert(row.lease, row)?;
        Ok(())
    }

    /// All endings, rising by lease.
    pub fn endings(&self) -> Values<'_, LeaseNo, Ending>
        ensures { result ≡ fin.values self.now.books.endings }
    {
        self.endings.values()
    }

    /// How many months the lease runs: those of its ending, where it was ended early, else those that it was signed for.
    pub fn length_of(&self, lease: &Lease) -> LeaseMonths
        ensures { result ≡ model.length_of self.now.books.endings lease.now }
    {
        match self.ending(&lease.terms.number) {
            Some(ending) => ending.months,
            None => lease.terms.months,
        }
    }

    /// The terms of the lease, with the months that it runs.
    pub fn running(&self, lease: &Lease) -> LeaseTerms
        ensures { result ≡ model.running self.now.books.endings lease.now }
    {
        LeaseTerms {
            months: self.length_of(lease),
            ..lease.terms
        }
    }
}
