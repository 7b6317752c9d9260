//! Properties, and what is done about them: registrations, viewings, inspections.

ghost use Rattle.std.specs.Prelude.{◌≡◌, OnOk, OnErr, option_copied};
ghost use Rattle.std.specs.FinMap as fin;

use super::Books;
use dh_types::{EntryDay, Id, Inspection, Property, Registration, Viewing};
use std::alloc::{AllocError, Global};
use std::collections::btree_map::{IntoIter, Values};

impl Books {
    /// The property of this number.
    pub fn property(&self, key: &Id) -> Option<&Property>
        ensures { option_copied result ≡ fin.get self.now.books.properties key.now }
    {
        self.properties.get(key)
    }

    /// Puts the property under its key, in the place of the one that has it. An error changes nothing.
    pub fn put_property(&mut self, row: Property) -> Result<(), AllocError>
        ensures ok { OnOk result (self.new ≡ record self.old {
          books = record self.old.books { properties = fin.insert self.old.books.properties row.number row };
        }) }
        ensures err { OnErr result (self.new ≡ self.old) }
    {
        let _before = self.properties.insert(row.number, row)?;
        Ok(())
    }

    /// All properties, rising by number.
    pub fn properties(&self) -> Values<'_, Id, Property>
        ensures { result ≡ fin.values self.now.books.properties }
    {
        self.properties.values()
    }

    /// All properties with their numbers, rising, moved out of the books.
    pub fn into_properties(self) -> IntoIter<Id, Property, Global>
        ensures { result ≡ fin.entries self.books.properties }
    {
        self.properties.into_iter()
    }

    /// The registration of this client and branch.
    pub fn registration(&self, key: &(Id, Id)) -> Option<&Registration>
        ensures { option_copied result ≡ fin.get self.now.books.registrations key.now }
    {
        self.registrations.get(key)
    }

    /// Puts the registration under its key, in the place of the one that has it. An error changes nothing.
    pub fn put_registration(&mut self, row: Registration) -> Result<(), AllocError>
        ensures ok { OnOk result (self.new ≡ record self.old {
          books = record self.old.books { registrations = fin.insert self.old.books.registrations (row.client, row.branch) row };
        }) }
        ensures err { OnErr result (self.new ≡ self.old) }
    {
        let _before = self.registrations.insert((row.client, row.branch), row)?;
        Ok(())
    }

    /// All registrations, rising by client and branch.
    pub fn registrations(&self) -> Values<'_, (Id, Id), Registration>
        ensures { result ≡ fin.values self.now.books.registrations }
    {
        self.registrations.values()
    }

    /// The viewing of this client and property.
    pub fn viewing(&self, key: &(Id, Id)) -> Option<&Viewing>
        ensures { option_copied result ≡ fin.get self.now.books.viewings key.now }
    {
        self.viewings.get(key)
    }

    /// Puts the viewing under its key, in the place of the one that has it. An error changes nothing.
    pub fn put_viewing(&mut self, row: Viewing) -> Result<(), AllocError>
        ensures ok { OnOk result (self.new ≡ record self.old {
          books = record self.old.books { viewings = fin.insert self.old.books.viewings (row.client, row.property) row };
        }) }
        ensures err { OnErr result (self.new ≡ self.old) }
    {
        let _before = self.viewings.insert((row.client, row.property), row)?;
        Ok(())
    }

    /// All viewings, rising by client and property.
    pub fn viewings(&self) -> Values<'_, (Id, Id), Viewing>
        ensures { result ≡ fin.values self.now.books.viewings }
    {
        self.viewings.values()
    }

    /// The inspection of this property and day.
    pub fn inspection(&self, key: &(Id, EntryDay)) -> Option<&Inspection>
        ensures { option_copied result ≡ fin.get self.now.books.inspections key.now }
    {
        self.inspections.get(key)
    }

    /// Puts the inspection under its key, in the place of the one that has it. An error changes nothing.
    pub fn put_inspection(&mut self, row: Inspection) -> Result<(), AllocError>
        ensures ok { OnOk result (self.new ≡ record self.old {
          books = record self.old.books { inspections = fin.insert self.old.books.inspections (row.property, row.day) row };
        }) }
        ensures err { OnErr result (self.new ≡ self.old) }
    {
        let _before = self.inspections.insert((row.property, row.day), row)?;
        Ok(())
    }

    /// All inspections, rising by property and day.
    pub fn inspections(&self) -> Values<'_, (Id, EntryDay), Inspection>
        ensures { result ≡ fin.values self.now.books.inspections }
    {
        self.inspections.values()
    }
}
