//! The fields of a line that is no request.

use crate::Unreadable;
use dh_types::{
    ChargeIndex, Day, EntryDay, EntryMonth, Fee, Id, Key, LeaseMonths, LeaseNo, Month, Pence,
    ReceiptNo, Rent,
};
use std::str::Split;

/// The fields of a line that are not read yet. Each method reads the next one.
#[derive(Drop)]
pub struct Fields<'a> {
    rest: Split<'a, char>,
}

impl<'a> Fields<'a> {
    /// All fields of the line.
    pub fn of(line: &'a str) -> Fields<'a> {
        Fields {
            rest: line.split(','),
        }
    }

    pub fn text(&mut self) -> Result<&'a str, Unreadable> {
        self.rest.next().ok_or(Unreadable)
    }

    pub fn id(&mut self) -> Result<Id, Unreadable> {
        Ok(Id::read(self.text()?)?)
    }

    pub fn key(&mut self) -> Result<Key, Unreadable> {
        Ok(Key::read(self.text()?)?)
    }

    pub fn lease_no(&mut self) -> Result<LeaseNo, Unreadable> {
        Ok(LeaseNo::read(self.text()?)?)
    }

    pub fn lease_months(&mut self) -> Result<LeaseMonths, Unreadable> {
        Ok(LeaseMonths::read(self.text()?)?)
    }

    pub fn fee(&mut self) -> Result<Fee, Unreadable> {
        Ok(Fee::read(self.text()?)?)
    }

    pub fn rent(&mut self) -> Result<Rent, Unreadable> {
        Ok(Rent::read(self.text()?)?)
    }

    pub fn day(&mut self) -> Result<EntryDay, Unreadable> {
        Ok(EntryDay::read(self.text()?)?)
    }

    pub fn month(&mut self) -> Result<EntryMonth, Unreadable> {
        Ok(EntryMonth::read(self.text()?)?)
    }

    pub fn any_month(&mut self) -> Result<Month, Unreadable> {
        Ok(Month::read(self.text()?)?)
    }

    pub fn due_day(&mut self) -> Result<Day, Unreadable> {
        Ok(Day::read_due(self.text()?)?)
    }

    pub fn pence(&mut self) -> Result<Pence, Unreadable> {
        Ok(Pence::read(self.text()?)?)
    }

    pub fn number(&mut self) -> Result<u32, Unreadable> {
        Ok(self.text()?.parse::<u32>()?)
    }

    pub fn charge_index(&mut self) -> Result<ChargeIndex, Unreadable> {
        ChargeIndex::try_of_number(i64::from(self.number()?)).ok_or(Unreadable)
    }

    pub fn receipt_no(&mut self) -> Result<ReceiptNo, Unreadable> {
        ReceiptNo::try_of_number(i64::from(self.number()?)).ok_or(Unreadable)
    }

    pub fn ids(&mut self) -> Result<(Id, Id), Unreadable> {
        Ok((self.id()?, self.id()?))
    }

    pub fn id_and_day(&mut self) -> Result<(Id, EntryDay), Unreadable> {
        Ok((self.id()?, self.day()?))
    }

    pub fn month_and_id(&mut self) -> Result<(EntryMonth, Id), Unreadable> {
        Ok((self.month()?, self.id()?))
    }

    pub fn lease_and_index(&mut self) -> Result<(LeaseNo, ChargeIndex), Unreadable> {
        Ok((self.lease_no()?, self.charge_index()?))
    }

    /// The lease, or none where the field is empty.
    pub fn lease_no_if_any(&mut self) -> Result<Option<LeaseNo>, Unreadable> {
        match self.text()? {
            "" => Ok(None),
            text => Ok(Some(LeaseNo::read(text)?)),
        }
    }
}
