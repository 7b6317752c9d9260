//! Calls of the layers below an agency, and lines told to one, over tables that were just opened. The power is cut before each.

use crate::either::line_over;
use dh_agency_test_kit::{Lived, Telling, play_block};
use dh_lives::crashes::next_life;
use dh_test_kit::{Tally, script};
use sqlite::{Alter, Connection};
use sqlite_trees::store::Reopen;
use std::alloc::Global;
use std::io;

// Lines are told to the calls of the layers below an agency, or to one.
struct ToTheLayers;

impl Telling for ToTheLayers {
    fn live<S: Alter + Reopen + Drop>(
        alloc: Global,
        conn: Connection<S>,
        line: &str,
    ) -> Option<Lived<S>> {
        let conn = next_life(alloc, conn)?;
        Some(line_over(alloc, conn, line))
    }
}

/// The lines of each block, told to a store in memory that is empty before the first and is opened anew before each; and the tables in
/// the end.
pub fn play(rt: &HostRuntime, tally: &mut Tally, text: &str) -> io::Result<()> {
    for block in &script(rt.alloc(), text)? {
        let conn = Connection::open_in_memory(rt.alloc())?;
        play_block::<ToTheLayers, _>(rt, tally, block, conn)?;
    }
    Ok(())
}
