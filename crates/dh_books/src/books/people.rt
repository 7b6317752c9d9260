//! Branches and the people: staff, owners, clients.

ghost use Rattle.std.specs.Prelude.{◌≡◌, OnOk, OnErr, option_copied};
ghost use Rattle.std.specs.FinMap as fin;

use super::Books;
use dh_types::{Branch, Client, Id, Owner, Staff};
use std::alloc::{AllocError, Global};
use std::collections::btree_map::{IntoIter, Keys, Values};

impl Books {
    /// The branch of this number.
    pub fn branch(&self, key: &Id) -> Option<&Branch>
        ensures { option_copied result ≡ fin.get self.now.books.branches key.now }
    {
        self.branches.get(key)
    }

    /// Puts the branch under its key, in the place of the one that has it. An error changes nothing.
    pub fn put_branch(&mut self, row: Branch) -> Result<(), AllocError>
        ensures ok { OnOk result (self.new ≡ record self.old {
          books = record self.old.books { branches = fin.insert self.old.books.branches row.number row };
        }) }
        ensures err { OnErr result (self.new ≡ self.old) }
    {
        let _before = self.branches.insert(row.number, row)?;
        Ok(())
    }

    /// All branches, rising by number.
    pub fn branches(&self) -> Values<'_, Id, Branch>
        ensures { result ≡ fin.values self.now.books.branches }
    {
        self.branches.values()
    }

    /// All branches with their numbers, rising, moved out of the books.
    pub fn into_branches(self) -> IntoIter<Id, Branch, Global>
        ensures { result ≡ fin.entries self.books.branches }
    {
        self.branches.into_iter()
    }

    /// The numbers of all branches, rising.
    pub fn branch_numbers(&self) -> Keys<'_, Id, Branch>
        ensures { result ≡ fin.keys self.now.books.branches }
    {
        self.branches.keys()
    }

    /// The member of staff of this number.
    pub fn member(&self, key: &Id) -> Option<&Staff>
        ensures { option_copied result ≡ fin.get self.now.books.staff key.now }
    {
        self.staff.get(key)
    }

    /// Puts the member of staff under its key, in the place of the one that has it. An error changes nothing.
    pub fn put_member(&mut self, row: Staff) -> Result<(), AllocError>
        ensures ok { OnOk result (self.new ≡ record self.old {
          books = record self.old.books { staff = fin.insert self.old.books.staff row.number row };
        }) }
        ensures err { OnErr result (self.new ≡ self.old) }
    {
        let _before = self.staff.insert(row.number, row)?;
        Ok(())
    }

    /// All members of staff, rising by number.
    pub fn staff(&self) -> Values<'_, Id, Staff>
        ensures { result ≡ fin.values self.now.books.staff }
    {
        self.staff.values()
    }

    /// The owner of this number.
    pub fn owner(&self, key: &Id) -> Option<&Owner>
        ensures { option_copied result ≡ fin.get self.now.books.owners key.now }
    {
        self.owners.get(key)
    }

    /// Puts the owner under its key, in the place of the one that has it. An error changes nothing.
    pub fn put_owner(&mut self, row: Owner) -> Result<(), AllocError>
        ensures ok { OnOk result (self.new ≡ record self.old {
          books = record self.old.books { owners = fin.insert self.old.books.owners row.number row };
        }) }
        ensures err { OnErr result (self.new ≡ self.old) }
    {
        let _before = self.owners.insert(row.number, row)?;
        Ok(())
    }

    /// All owners, rising by number.
    pub fn owners(&self) -> Values<'_, Id, Owner>
        ensures { result ≡ fin.values self.now.books.owners }
    {
        self.owners.values()
    }

    /// The client of this number.
    pub fn client(&self, key: &Id) -> Option<&Client>
        ensures { option_copied result ≡ fin.get self.now.books.clients key.now }
    {
        self.clients.get(key)
    }

    /// Puts the client under its key, in the place of the one that has it. An error changes nothing.
    pub fn put_client(&mut self, row: Client) -> Result<(), AllocError>
        ensures ok { OnOk result (self.new ≡ record self.old {
          books = record self.old.books { clients = fin.insert self.old.books.clients row.number row };
        }) }
        ensures err { OnErr result (self.new ≡ self.old) }
    {
        let _before = self.clients.insert(row.number, row)?;
        Ok(())
    }

    /// All clients, rising by number.
    pub fn clients(&self) -> Values<'_, Id, Client>
        ensures { result ≡ fin.values self.now.books.clients }
    {
        self.clients.values()
    }
}
