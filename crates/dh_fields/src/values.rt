//! Reading the fields of a line as values, a kind of value each. `Field` has the number of a field that is none, or is missing.

ghost use Rattle.std.specs.Prelude.{◌≤◌};
ghost use Rattle.dh_fields.specs.FieldKinds as kinds;
ghost use Rattle.dh_fields.specs.Readings.{Copies, Reads};

use crate::line::Line;
use crate::unread::Unread;
use dh_types::{
    Comment, EntryDay, EntryMonth, Id, Key, PaymentMethod, Position, PropertyType, ReceiptKind,
};
use dh_values::{Bounded, Money, Text};
use std::alloc::Global;

impl<'a> Line<'a> {
    /// The code in the field.
    pub(crate) fn id(&self, number: u8) -> Result<Id, Unread>
        requires { 1 ≤ number }
        ensures { Reads kinds.id self.now number result }
    {
        Id::read(self.text(number)?).or(Err(Unread::Field(number)))
    }

    /// The code in the field, if it is not empty.
    pub(crate) fn id_if_any(&self, number: u8) -> Result<Option<Id>, Unread>
        requires { 1 ≤ number }
        ensures { Reads (kinds.optional kinds.id) self.now number result }
    {
        if self.text(number)?.is_empty() {
            return Ok(None);
        }
        Ok(Some(self.id(number)?))
    }

    /// The key in the field.
    pub(crate) fn key(&self, number: u8) -> Result<Key, Unread>
        requires { 1 ≤ number }
        ensures { Reads kinds.key self.now number result }
    {
        Key::read(self.text(number)?).or(Err(Unread::Field(number)))
    }

    /// The number in the field, of the kind that is wanted: of a lease, of rooms, of months or of batches, or a fee.
    pub(crate) fn count<K, const LOW: u32, const HIGH: u32>(
        &self,
        number: u8,
    ) -> Result<Bounded<K, LOW, HIGH>, Unread>
        requires { 1 ≤ number }
        ensures { Reads (kinds.count LOW HIGH) self.now number result }
    {
        Bounded::read(self.text(number)?).or(Err(Unread::Field(number)))
    }

    /// The money in the field: a rent or an amount, as is wanted.
    pub(crate) fn money<const MOST: u32>(&self, number: u8) -> Result<Money<MOST>, Unread>
        requires { 1 ≤ number }
        ensures { Reads (kinds.money MOST) self.now number result }
    {
        Money::read(self.text(number)?).or(Err(Unread::Field(number)))
    }

    /// The day in the field.
    pub(crate) fn day(&self, number: u8) -> Result<EntryDay, Unread>
        requires { 1 ≤ number }
        ensures { Reads kinds.day self.now number result }
    {
        EntryDay::read(self.text(number)?).or(Err(Unread::Field(number)))
    }

    /// The month in the field.
    pub(crate) fn month(&self, number: u8) -> Result<EntryMonth, Unread>
        requires { 1 ≤ number }
        ensures { Reads kinds.month self.now number result }
    {
        EntryMonth::read(self.text(number)?).or(Err(Unread::Field(number)))
    }

    /// The position in the field.
    pub(crate) fn position(&self, number: u8) -> Result<Position, Unread>
        requires { 1 ≤ number }
        ensures { Reads kinds.position self.now number result }
    {
        Position::read(self.text(number)?).or(Err(Unread::Field(number)))
    }

    /// The type of property in the field.
    pub(crate) fn property_type(&self, number: u8) -> Result<PropertyType, Unread>
        requires { 1 ≤ number }
        ensures { Reads kinds.property_type self.now number result }
    {
        PropertyType::read(self.text(number)?).or(Err(Unread::Field(number)))
    }

    /// The method of payment in the field.
    pub(crate) fn method(&self, number: u8) -> Result<PaymentMethod, Unread>
        requires { 1 ≤ number }
        ensures { Reads kinds.method self.now number result }
    {
        PaymentMethod::read(self.text(number)?).or(Err(Unread::Field(number)))
    }

    /// The kind of receipt in the field.
    pub(crate) fn receipt_kind(&self, number: u8) -> Result<ReceiptKind, Unread>
        requires { 1 ≤ number }
        ensures { Reads kinds.receipt_kind self.now number result }
    {
        ReceiptKind::read(self.text(number)?).or(Err(Unread::Field(number)))
    }

    /// The text in the field, of as many characters as is wanted. `Memory` where memory ran out.
    pub(crate) fn some_text<const MOST: usize>(
        &self,
        alloc: Global,
        number: u8,
    ) -> Result<Text<MOST>, Unread>
        requires { 1 ≤ number }
        ensures { Copies (kinds.text MOST).accepts (kinds.text MOST) self.now number result }
    {
        Text::read(alloc, self.text(number)?)?.or(Err(Unread::Field(number)))
    }

    /// The comment in the field, if it is not empty. `Memory` where memory ran out.
    pub(crate) fn comment_if_any(
        &self,
        alloc: Global,
        number: u8,
    ) -> Result<Option<Comment>, Unread>
        requires { 1 ≤ number }
        ensures { Copies kinds.comment.accepts (kinds.optional kinds.comment) self.now number result }
    {
        if self.text(number)?.is_empty() {
            return Ok(None);
        }
        Ok(Some(self.some_text(alloc, number)?))
    }
}
