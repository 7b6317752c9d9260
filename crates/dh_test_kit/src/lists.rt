//! Several parts as one text, in which they stand between ` / `.

use crate::row_lines::ToLine;
use std::alloc::{AllocError, Global};
use std::collections::btree_map::Values;

/// Adds a part to a text of several.
pub fn add_part(text: &mut String, part: &str) -> Result<(), AllocError> {
    if !text.is_empty() {
        text.push_str(" / ")?;
    }
    text.push_str(part)
}

/// The parts together, or `none`.
pub fn or_none(alloc: Global, text: String) -> Result<String, AllocError> {
    if text.is_empty() {
        return "none".to_string(alloc);
    }
    Ok(text)
}

/// The rows' lines, or `none`.
pub fn lines_of<T: ToLine>(alloc: Global, rows: &[T]) -> Result<String, AllocError> {
    let mut text = String::new(alloc);
    for row in rows {
        add_part(&mut text, row.to_line(alloc)?.as_str())?;
    }
    or_none(alloc, text)
}

/// The lines of all rows of a kind, rising by key, or `none`.
pub fn all_lines<K: Ord, T: ToLine>(
    alloc: Global,
    rows: Values<'_, K, T>,
) -> Result<String, AllocError> {
    let mut text = String::new(alloc);
    for row in rows {
        add_part(&mut text, row.to_line(alloc)?.as_str())?;
    }
    or_none(alloc, text)
}
