//! The line that the words behind `report` are.

ghost use Rattle.std.specs.Prelude.{◌≡◌, ◌∷◌, map, codes, IfOk};

use std::alloc::{AllocError, Global};

/// The fields of the line that asks with these words. An error comes only for want of memory.
pub(crate) fn line_of<'a>(alloc: Global, words: &[&'a str]) -> Result<Vec<&'a [u8]>, AllocError>
    ensures { IfOk result (λ fields. map (λ field. field.now) fields.items ≡ codes "show" ∷ map (λ word. word.now) words.now) }
{
    let mut fields = Vec::new(alloc);
    fields.push("show".as_bytes())?;
    for word in words {
        fields.push(word.as_bytes())?;
    }
    Ok(fields)
}
