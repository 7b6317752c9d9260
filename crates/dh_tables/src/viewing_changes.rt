//! A viewing's comment, changed in its table.

use crate::Amend;
use dh_types::{Viewing, ViewingComment};
use sqlite::types::ValueRef;
use std::alloc::{AllocError, Global};

impl Amend for ViewingComment {
    ghost use Rattle.std.specs.Prelude.{◌≡◌, true, Some};
    ghost use Rattle.dh_values.specs.Texts.{is_text};
    ghost use Rattle.dh_tables.specs.ViewingChanges.{comment_amending, comment_is};

    type Record = Viewing;

    ghost key = { λ q. (q.client, q.property) };

    ghost amended = { λ q v. record v { comment = Some q.comment } };

    ghost amending = { comment_amending };

    ghost can_amend = { λ q. is_text 200 q.comment ≡ true };

    fn text() -> &'static str {
        "UPDATE viewing SET comment = ?3 WHERE client_no = ?1 AND property_no = ?2"
    }

    fn params(&self, alloc: Global) -> Result<Vec<ValueRef<'_>>, AllocError> {
        [
            ValueRef::Text(self.client.as_str().as_bytes()),
            ValueRef::Text(self.property.as_str().as_bytes()),
            ValueRef::Text(self.comment.as_str().as_bytes()),
        ]
        .to_vec(alloc)
    }

    ghost is_amending = { comment_is };
}
