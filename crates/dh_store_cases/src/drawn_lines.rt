//! Drawn lines.

use std::alloc::{AllocError, Global};

/// A linear congruential generator, by the constants of Knuth's MMIX.
#[derive(Drop)]
pub struct Draw {
    state: u64,
}

impl Draw {
    /// From the same beginning each time.
    pub fn new() -> Draw {
        Draw { state: 2025 }
    }

    // A number of 31 bits.
    fn number(&mut self) -> u64 {
        self.state = self
            .state
            .wrapping_mul(6364136223846793005)
            .wrapping_add(1442695040888963407);
        self.state >> 33
    }

    // One of the parts of a text between such signs.
    fn one_of<'a>(&mut self, text: &'a str, sign: char) -> &'a str {
        let count = text.split(sign).count() as u64;
        let at = self.number().checked_rem(count).unwrap_or(0);
        text.split(sign).nth(at as usize).unwrap_or("")
    }

    /// The line with one of `[this|that]` for each such choice.
    pub fn line(&mut self, alloc: Global, line: &str) -> Result<String, AllocError> {
        let mut drawn = String::new(alloc);
        for part in line.split('[') {
            match part.split_once(']') {
                Some((choices, rest)) => {
                    drawn.push_str(self.one_of(choices, '|'))?;
                    drawn.push_str(rest)?;
                }
                None => drawn.push_str(part)?,
            }
        }
        Ok(drawn)
    }

    /// One of the lines, with its choices drawn.
    pub fn any_line(&mut self, alloc: Global, lines: &str) -> Result<String, AllocError> {
        let line = self.one_of(lines, '\n');
        self.line(alloc, line)
    }
}
