//! What is said of the cases.

use crate::Tally;
use std::io;

/// Counts the case, and prints it with its answer where that is not the one wanted.
pub fn compare(
    rt: &HostRuntime,
    tally: &mut Tally,
    case: &str,
    got: &str,
    want: &str,
) -> io::Result<()> {
    if tally.compare(got, want) {
        return Ok(());
    }
    println!(rt; "{case} -> {got}")
}
