//! Fields that are kept as texts.

ghost use Rattle.std.specs.Prelude.{◌≡◌, ◌↔◌, ◌≤◌, ℕ, Bool, List, true, IfOk, IfSome, IsSome};
ghost use Rattle.sqlite.specs.Values.{or_null};
ghost use Rattle.sqlite_value.specs.declared.value.Value.{Value};
ghost use Rattle.sqlite_value.specs.declared.value.Value.TheVariants.{Text};
ghost use Rattle.dh_values.specs.Kinds.{payment_method_of, payment_method_text, position_of, position_text, property_type_of, property_type_text};
ghost use Rattle.dh_values.specs.Kinds.{receipt_kind_of, receipt_kind_text};
ghost use Rattle.dh_values.specs.Texts.{is_id, is_key, is_text};
ghost use Rattle.dh_values.proofs.Ascii.{is_id-IsUtf8, is_key-IsUtf8};
ghost use Rattle.dh_days.specs.Days.{day_text, month_of_day};
ghost use Rattle.dh_days.specs.declared.limits.TheConstants.{LAST_ENTRY_MONTH};
ghost use Rattle.dh_rows.specs.Cells.{IsTextCell, is_day_cell, is_due_day_cell, is_id_cell, is_key_cell, is_optional, is_read_cell, is_text_cell};
ghost use Rattle.dh_rows.specs.Utf8.{passing_is_text, payment_methods_are_utf8, positions_are_utf8, property_types_are_utf8, read_is_text};
ghost use Rattle.dh_rows.specs.Utf8.{receipt_kinds_are_utf8, texts_are_utf8};

use crate::cell::{Cell, is_null_at, str_at};
use dh_types::{
    Comment, Day, EntryDay, Id, Key, PaymentMethod, Position, PropertyType, ReceiptKind, Text60,
};
use sqlite::Row;
use sqlite::types::ValueRef;
use std::alloc::{AllocError, Global};

/// A field that is kept as a text.
pub(crate) trait Word: Sized {
    /// The bytes of its text.
    ghost bytes: { Self → List ℕ };

    /// Whether a value is such a text.
    ghost is_word: { Value → Bool };

    /// The text.
    fn as_text(&self) -> &str
        ensures value { result.now ≡ bytes self.now }
        ensures grammar { is_word (Text (bytes self.now)) ≡ true };

    /// The field that the text is; None exactly where it is no such text.
    fn of_text(alloc: Global, text: &str) -> Result<Option<Self>, AllocError>
        ensures read { IfOk result (λ found. IfSome found (λ word. text.now ≡ bytes word)) }
        ensures exact { IfOk result (λ found. IsSome found ↔ (is_word (Text text.now) ≡ true)) };

    /// Such a text is UTF-8.
    ghost are_text: { (v : Value) → is_word v ≡ true → IsTextCell v };
}

impl<W: Word> Cell for W {
    ghost cell = { λ word. Text (W.bytes word) };

    ghost is_cell = { W.is_word };

    fn param<'a>(&'a self, _day: &'a [u8]) -> ValueRef<'a> {
        ValueRef::Text(self.as_text().as_bytes())
    }

    fn read_cell(alloc: Global, columns: &Row, at: usize) -> Result<Option<W>, AllocError> {
        match str_at(columns, at) {
            Some(text) => W::of_text(alloc, text),
            None => Ok(None),
        }
    }
}

/// NULL stands for none.
impl<W: Word> Cell for Option<W> {
    ghost cell = { or_null (λ word. Text (W.bytes word)) };

    ghost is_cell = { is_optional W.is_word };

    fn param<'a>(&'a self, day: &'a [u8]) -> ValueRef<'a> {
        match self {
            Some(word) => word.param(day),
            None => ValueRef::Null,
        }
    }

    fn read_cell(alloc: Global, columns: &Row, at: usize) -> Result<Option<Self>, AllocError> {
        if is_null_at(columns, at) {
            return Ok(Some(None));
        }
        match W::read_cell(alloc, columns, at)? {
            Some(word) => Ok(Some(Some(word))),
            None => Ok(None),
        }
    }
}

#[tactic(auto, unfolding(crate::specs::Cells::is_text_that))]
impl Word for Id {
    ghost bytes = { λ id. id };

    ghost is_word = { is_id_cell };

    ghost are_text = { passing_is_text is_id is_id-IsUtf8 };

    fn as_text(&self) -> &str {
        self.as_str()
    }

    fn of_text(_alloc: Global, text: &str) -> Result<Option<Id>, AllocError> {
        Ok(Id::read(text).ok())
    }
}

#[tactic(auto, unfolding(crate::specs::Cells::is_text_that))]
impl Word for Key {
    ghost bytes = { λ key. key };

    ghost is_word = { is_key_cell };

    ghost are_text = { passing_is_text is_key is_key-IsUtf8 };

    fn as_text(&self) -> &str {
        self.as_str()
    }

    fn of_text(_alloc: Global, text: &str) -> Result<Option<Key>, AllocError> {
        Ok(Key::read(text).ok())
    }
}

#[tactic(auto, unfolding(crate::specs::Cells::is_text_that))]
impl Word for Text60 {
    ghost bytes = { λ text. text };

    ghost is_word = { is_text_cell 60 };

    ghost are_text = { passing_is_text (is_text 60) (texts_are_utf8 60) };

    fn as_text(&self) -> &str {
        self.as_str()
    }

    fn of_text(alloc: Global, text: &str) -> Result<Option<Text60>, AllocError> {
        Ok(Text60::read(alloc, text)?.ok())
    }
}

#[tactic(auto, unfolding(crate::specs::Cells::is_text_that))]
impl Word for Comment {
    ghost bytes = { λ text. text };

    ghost is_word = { is_text_cell 200 };

    ghost are_text = { passing_is_text (is_text 200) (texts_are_utf8 200) };

    fn as_text(&self) -> &str {
        self.as_str()
    }

    fn of_text(alloc: Global, text: &str) -> Result<Option<Comment>, AllocError> {
        Ok(Comment::read(alloc, text)?.ok())
    }
}

#[tactic(auto, unfolding(crate::specs::Cells::is_read_cell))]
impl Word for Position {
    ghost bytes = { position_text };

    ghost is_word = { is_read_cell position_of };

    ghost are_text = { read_is_text position_of positions_are_utf8 };

    fn as_text(&self) -> &str {
        self.as_str()
    }

    fn of_text(_alloc: Global, text: &str) -> Result<Option<Position>, AllocError> {
        Ok(Position::read(text).ok())
    }
}

#[tactic(auto, unfolding(crate::specs::Cells::is_read_cell))]
impl Word for PropertyType {
    ghost bytes = { property_type_text };

    ghost is_word = { is_read_cell property_type_of };

    ghost are_text = { read_is_text property_type_of property_types_are_utf8 };

    fn as_text(&self) -> &str {
        self.as_str()
    }

    fn of_text(_alloc: Global, text: &str) -> Result<Option<PropertyType>, AllocError> {
        Ok(PropertyType::read(text).ok())
    }
}

#[tactic(auto, unfolding(crate::specs::Cells::is_read_cell))]
impl Word for PaymentMethod {
    ghost bytes = { payment_method_text };

    ghost is_word = { is_read_cell payment_method_of };

    ghost are_text = { read_is_text payment_method_of payment_methods_are_utf8 };

    fn as_text(&self) -> &str {
        self.as_str()
    }

    fn of_text(_alloc: Global, text: &str) -> Result<Option<PaymentMethod>, AllocError> {
        Ok(PaymentMethod::read(text).ok())
    }
}

#[tactic(auto, unfolding(crate::specs::Cells::is_read_cell))]
impl Word for ReceiptKind {
    ghost bytes = { receipt_kind_text };

    ghost is_word = { is_read_cell receipt_kind_of };

    ghost are_text = { read_is_text receipt_kind_of receipt_kinds_are_utf8 };

    fn as_text(&self) -> &str {
        self.as_str()
    }

    fn of_text(_alloc: Global, text: &str) -> Result<Option<ReceiptKind>, AllocError> {
        Ok(ReceiptKind::read(text).ok())
    }
}

/// A day that lines know.
impl Cell for EntryDay {
    ghost cell = { λ day. Text (day_text day) };

    ghost is_cell = { is_day_cell };

    ghost wants = { λ day text. text ≡ day_text day };

    fn param<'a>(&'a self, text: &'a [u8]) -> ValueRef<'a> {
        // The call tells that it is a day.
        let _ = self.day();
        ValueRef::Text(text)
    }

    #[tactic(auto, unfolding(crate::specs::Cells::is_read_cell))]
    fn read_cell(_alloc: Global, columns: &Row, at: usize) -> Result<Option<Self>, AllocError> {
        match str_at(columns, at) {
            Some(text) => Ok(EntryDay::read(text).ok()),
            None => Ok(None),
        }
    }
}

/// A day on which rent can fall due. No column keeps a later one.
impl Cell for Day {
    ghost cell = { λ day. Text (day_text day) };

    ghost is_cell = { is_due_day_cell };

    ghost wants = { λ day text. text ≡ day_text day };

    ghost can_keep = { λ day. month_of_day day ≤ LAST_ENTRY_MONTH };

    fn param<'a>(&'a self, text: &'a [u8]) -> ValueRef<'a> {
        // The call tells that it is a day.
        let _ = self.month();
        ValueRef::Text(text)
    }

    #[tactic(auto, unfolding(crate::specs::Cells::is_read_cell))]
    fn read_cell(_alloc: Global, columns: &Row, at: usize) -> Result<Option<Self>, AllocError> {
        match str_at(columns, at) {
            Some(text) => Ok(Day::read_due(text).ok()),
            None => Ok(None),
        }
    }
}
