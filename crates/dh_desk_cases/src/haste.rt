//! Serving in haste: over an agency in memory, whose peers have a second.

use dh_agency_test_kit::in_memory;
use dh_http::{Patience, Service, Unserved, Watch, serve};
use dh_types::BatchCount;
use std::alloc::AllocError;
use std::io::Write;

/// A second for a request, for its answer, and for what comes behind it.
pub const HASTE: Patience = Patience {
    request_seconds: 1,
    answer_seconds: 1,
    rest_seconds: 1,
    rest_bytes: 65_536,
};

// An agency in memory has no file that could go.
#[derive(Clone, Copy)]
struct InMemory;

impl Watch for InMemory {
    fn is_there(&mut self) -> bool {
        true
    }
}

// How serving ended.
fn end_of(outcome: Result<(), Unserved>) -> &'static str {
    match outcome {
        Ok(()) => "served",
        Err(Unserved::NoListener) => "no listener",
        Err(Unserved::Output(_)) => "not written",
        Err(Unserved::Stopped) => "stopped",
        Err(Unserved::Fault(_)) => "a fault",
    }
}

/// Serves so many connections, and says how that ended.
pub fn serve_in_haste<W: Write>(
    rt: &HostRuntime,
    count: &str,
    writer: &mut W,
) -> Result<&'static str, AllocError> {
    let Ok(count) = BatchCount::read(count) else {
        return Ok("no count");
    };
    let Some(mut agency) = in_memory(rt.alloc())? else {
        return Ok("no agency");
    };
    let mut end = "stopped before";
    if !agency.is_stopped() {
        let service = Service {
            port: 0,
            count,
            patience: HASTE,
        };
        end = end_of(serve(rt, &mut agency, &mut InMemory, service, writer));
    }
    drop(agency.into_store());
    Ok(end)
}
