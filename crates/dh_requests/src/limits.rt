//! How large a request may be.

ghost use Rattle.std.specs.Prelude.{◌≡◌};

/// The most bytes of a head, with its empty line and with empty lines before it.
pub const HEAD_BYTES: usize = 8192;

/// The most header lines.
pub const HEADER_LINES: usize = 32;

/// The most bytes of a body.
pub const BODY_BYTES: u32 = 65_536;

/// The bytes of a buffer that tells a head which is too large from one that is not complete yet.
pub const ROOM: usize = HEAD_BYTES + 1;

/// The limits in figures, which no definition says.
pub fn limits_in_figures()
    ensures head { HEAD_BYTES ≡ 8192 }
    ensures lines { HEADER_LINES ≡ 32 }
    ensures body { BODY_BYTES ≡ 65_536 }
    ensures room { ROOM ≡ 8193 }
{}
