//! The present fees of branches, and those of the parts of rent runs.

ghost use Rattle.std.specs.Prelude.{◌≡◌, OnOk, OnErr, option_copied};
ghost use Rattle.std.specs.FinMap as fin;
ghost use Rattle.dh_model.specs.Runs as model;

use super::Books;
use dh_types::{BranchFee, EntryMonth, Fee, Id, PartFee};
use std::alloc::AllocError;
use std::collections::btree_map::Values;

impl Books {
    /// The present fee of this branch, where it has one.
    pub fn branch_fee(&self, key: &Id) -> Option<&BranchFee>
        ensures { option_copied result ≡ fin.get self.now.books.branch_fees key.now }
    {
        self.branch_fees.get(key)
    }

    /// Puts the fee under its branch, in the place of the one that it has. An error changes nothing.
    pub fn put_branch_fee(&mut self, row: BranchFee) -> Result<(), AllocError>
        ensures ok { OnOk result (self.new ≡ record self.old {
          books = record self.old.books { branch_fees = fin.insert self.old.books.branch_fees row.branch row };
        }) }
        ensures err { OnErr result (self.new ≡ self.old) }
    {
        let _before = self.branch_fees.insert(row.branch, row)?;
        Ok(())
    }

    /// The present fees of all branches that have one, rising by branch.
    pub fn branch_fees(&self) -> Values<'_, Id, BranchFee>
        ensures { result ≡ fin.values self.now.books.branch_fees }
    {
        self.branch_fees.values()
    }

    /// What this branch takes of each rent, in hundredths of a percent: 0 where it has no fee.
    pub fn fee_at(&self, branch: &Id) -> Fee
        ensures { result ≡ model.fee_at self.now.books branch.now }
    {
        match self.branch_fee(branch) {
            Some(it) => it.fee,
            None => Fee::of_number(0),
        }
    }

    /// The fee row of the part of this month and branch.
    pub fn part_fee(&self, key: &(EntryMonth, Id)) -> Option<&PartFee>
        ensures { option_copied result ≡ fin.get self.now.books.part_fees key.now }
    {
        self.part_fees.get(key)
    }

    /// Puts the fee row under its month and branch, in the place of the one that stands there. An error changes nothing.
    pub fn put_part_fee(&mut self, row: PartFee) -> Result<(), AllocError>
        ensures ok { OnOk result (self.new ≡ record self.old {
          books = record self.old.books { part_fees = fin.insert self.old.books.part_fees (row.month, row.branch) row };
        }) }
        ensures err { OnErr result (self.new ≡ self.old) }
    {
        let _before = self.part_fees.insert((row.month, row.branch), row)?;
        Ok(())
    }

    /// The fee rows of all parts, rising by month and branch.
    pub fn part_fees(&self) -> Values<'_, (EntryMonth, Id), PartFee>
        ensures { result ≡ fin.values self.now.books.part_fees }
    {
        self.part_fees.values()
    }
}
