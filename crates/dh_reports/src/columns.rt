//! The columns of a line.

ghost use Rattle.std.specs.Prelude.{◌≡◌, ◌-◌, ◌≤◌, length, map, replicate};
ghost use Rattle.dh_types.specs.Output.{Puts};
ghost use Rattle.dh_reports.specs.Columns.{column_text, left_aligned, line, right_aligned};

use arrayvec::ArrayVec;
use dh_types::Output;
use dh_types::text_writer::{put, put_pieces};
use std::io::Write;

const SPACES: [u8; 16] = [b' '; 16];

/// A line, with room for the longest: two numbers, a sum of 42 digits and signs, and a name of 60 characters.
type LineBuffer = ArrayVec<u8, 320>;

/// A text, and the spaces that fill its column before or behind it.
#[derive(Clone, Copy)]
pub struct Column<'a> {
    before: &'a [u8],
    text: &'a [u8],
    behind: &'a [u8],
}

// The spaces that fill a column of `width` bytes beside the text; none beside a longer text.
fn padding(width: usize, text: &str) -> &'static [u8]
    requires { width ≤ 16 }
    ensures { result.now ≡ replicate (width - length text.now) 32 }
{
    &SPACES[..width.saturating_sub(text.len())]
}

/// The text in a column of its own length.
pub fn plain(text: &str) -> Column<'_>
    ensures { column_text result ≡ text.now }
{
    Column {
        before: b"",
        text: text.as_bytes(),
        behind: b"",
    }
}

/// The text at the left of a column of `width` bytes; a longer one is not cut.
pub fn left_aligned(width: usize, text: &str) -> Column<'_>
    requires { width ≤ 16 }
    ensures { column_text result ≡ left_aligned width text.now }
{
    Column {
        before: b"",
        text: text.as_bytes(),
        behind: padding(width, text),
    }
}

/// The text at the right of a column of `width` bytes; a longer one is not cut.
pub fn right_aligned(width: usize, text: &str) -> Column<'_>
    requires { width ≤ 16 }
    ensures { column_text result ≡ right_aligned width text.now }
{
    Column {
        before: padding(width, text),
        text: text.as_bytes(),
        behind: b"",
    }
}

// Writes a line part by part.
fn put_columns<W: Write>(writer: &mut W, columns: &[Column<'_>]) -> Result<(), Output>
    ensures { Puts (W.contents writer.old) (W.contents writer.new) result (line (map column_text columns.now)) }
{
    let mut parting: &[u8] = b"";
    for column in columns {
        put_pieces(
            writer,
            &[parting, column.before, column.text, column.behind],
        )?;
        parting = b" ";
    }
    put(writer, b"\n")
}

/// Writes the columns, parted by spaces, and the end of the line; at an `Output` a beginning of the line was written. It is one
/// write; a line that had no room would be written part by part.
pub fn put_line<W: Write>(writer: &mut W, columns: &[Column<'_>]) -> Result<(), Output>
    ensures { Puts (W.contents writer.old) (W.contents writer.new) result (line (map column_text columns.now)) }
{
    let mut line: LineBuffer = ArrayVec::new();
    match put_columns(&mut line, columns) {
        Ok(()) => put(writer, &line),
        Err(_) => put_columns(writer, columns),
    }
}
