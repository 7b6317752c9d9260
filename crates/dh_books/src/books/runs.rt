//! Rent runs and their parts.

ghost use Rattle.std.specs.Prelude.{◌≡◌, OnOk, OnErr, option_copied};
ghost use Rattle.std.specs.FinMap as fin;
ghost use Rattle.dh_model.specs.BatchLaws.{AreNumbered};
ghost use Rattle.dh_model.specs.Books.{StandUnder};
ghost use Rattle.dh_model.specs.Runs.{part_key};

use super::Books;
use dh_types::{EntryMonth, Id, Part, Run};
use std::alloc::AllocError;
use std::collections::btree_map::{Keys, Values};

impl Books {
    /// The run of this month.
    pub fn run(&self, key: &EntryMonth) -> Option<&Run>
        ensures { option_copied result ≡ fin.get self.now.books.runs key.now }
    {
        self.runs.get(key)
    }

    /// Puts the run under its key, in the place of the one that has it. An error changes nothing.
    pub fn put_run(&mut self, row: Run) -> Result<(), AllocError>
        ensures ok { OnOk result (self.new ≡ record self.old {
          books = record self.old.books { runs = fin.insert self.old.books.runs row.month row };
        }) }
        ensures err { OnErr result (self.new ≡ self.old) }
    {
        let _before = self.runs.insert(row.month, row)?;
        Ok(())
    }

    /// All rent runs, rising by month.
    pub fn runs(&self) -> Values<'_, EntryMonth, Run>
        ensures { result ≡ fin.values self.now.books.runs }
    {
        self.runs.values()
    }

    /// The months that a run stands under, rising.
    pub fn run_months(&self) -> Keys<'_, EntryMonth, Run>
        ensures { result ≡ fin.keys self.now.books.runs }
    {
        self.runs.keys()
    }

    /// The part of this month and branch.
    pub fn part(&self, key: &(EntryMonth, Id)) -> Option<&Part>
        ensures { option_copied result ≡ fin.get self.now.books.parts key.now }
    {
        self.parts.get(key)
    }

    /// Puts the part under its key, in the place of the one that has it. An error changes nothing.
    pub fn put_part(&mut self, row: Part) -> Result<(), AllocError>
        ensures ok { OnOk result (self.new ≡ record self.old {
          books = record self.old.books { parts = fin.insert self.old.books.parts (row.month, row.branch) row };
        }) }
        ensures err { OnErr result (self.new ≡ self.old) }
    {
        let _before = self.parts.insert((row.month, row.branch), row)?;
        Ok(())
    }

    /// All parts of rent runs, rising by month and branch. Each stands under these, and each lease under its number.
    pub fn parts(&self) -> Values<'_, (EntryMonth, Id), Part>
        ensures rows { result ≡ fin.values self.now.books.parts }
        ensures keyed { StandUnder part_key self.now.books.parts }
        ensures numbered { AreNumbered self.now.books }
    {
        self.parts.values()
    }
}
