//! The fields of a line, numbered from 1.

ghost use Rattle.std.specs.Prelude.{◌≡◌, map, [], ◌∷◌, ◌<◌, ◌≤◌, ◌+◌, true, false, option_map, slice_get, MatchResult, Some};
ghost use Rattle.csv.specs.Records.{fields_of};
ghost use Rattle.dh_fields.specs.Readings.{IsNoText, has_field};
ghost use Rattle.dh_fields.specs.declared.unread.Unread.TheVariants as unread;

use crate::unread::Unread;
use csv::ByteRecord;
use std::marker::Model;
use std::str;

/// The fields of a line.
#[derive(Drop)]
pub(crate) struct Line<'a> {
    source: FieldSource<'a>,
}

// Where the fields stand.
#[derive(Drop)]
enum FieldSource<'a> {
    Slice(&'a [&'a [u8]]),
    Record(&'a ByteRecord),
}

impl<'a> Model for Line<'a> {
    ghost use Rattle.std.specs.Prelude.{List, ℕ};
    ghost use Rattle.dh_fields.specs.FieldSources.{fields_in};

    ghost Value = { List (List ℕ) };

    ghost view = { λ l. fields_in l.source };
}

impl<'a> Line<'a> {
    /// The line of these fields.
    pub(crate) fn of_fields(fields: &'a [&'a [u8]]) -> Line<'a>
        ensures { result ≡ map (λ f. f.now) fields.now }
    {
        Line {
            source: FieldSource::Slice(fields),
        }
    }

    /// The line that the record is.
    pub(crate) fn of_record(record: &'a ByteRecord) -> Line<'a>
        ensures { result ≡ fields_of «record».now }
    {
        Line {
            source: FieldSource::Record(record),
        }
    }

    // The field of this number, if it is there.
    fn field(&self, number: u8) -> Option<&[u8]>
        requires { 1 ≤ number }
        ensures { option_map (λ f. f.now) result ≡ slice_get ([] ∷ self.now) number }
    {
        let index = number as usize - 1;
        match &self.source {
            FieldSource::Slice(fields) => fields.get(index).copied(),
            FieldSource::Record(record) => record.get(index),
        }
    }

    /// The text in the field. `Field` with its number where there is none.
    pub(crate) fn text(&self, number: u8) -> Result<&str, Unread>
        requires { 1 ≤ number }
        ensures { MatchResult result (λ text. slice_get ([] ∷ self.now) number ≡ Some text.now)
            (λ e. (e ≡ unread.Field number) × IsNoText (slice_get ([] ∷ self.now) number)) }
    {
        match self.field(number) {
            Some(bytes) => str::from_utf8(bytes).or(Err(Unread::Field(number))),
            None => Err(Unread::Field(number)),
        }
    }

    /// That no field comes after this one. `Field` with the next number where one does.
    pub(crate) fn end(&self, last: u8) -> Result<(), Unread>
        requires { last < 255 }
        ensures { MatchResult result (λ _. has_field self.now (last + 1) ≡ false)
            (λ e. (e ≡ unread.Field (last + 1)) × (has_field self.now (last + 1) ≡ true)) }
    {
        match self.field(last + 1) {
            Some(_) => Err(Unread::Field(last + 1)),
            None => Ok(()),
        }
    }
}
