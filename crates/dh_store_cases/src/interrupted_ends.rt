//! Requests of which a signal interrupts a read and a write: all is as if none had been interrupted.

use crate::agencies::{Outcome, end_text};
use crate::cases::{Case, Way, end_of, judge};
use dh_agency::Agency;
use dh_http::{NetFault, serve_one};
use dh_test_kit::Tally;
use dh_test_kit::ends::{InterruptedReader, InterruptedWriter};
use http::StatusCode;
use sqlite::Alter;
use std::alloc::Global;
use std::io;
use std::io::{Read, Write};

// Serves the request to a reader whose read behind so many bytes is interrupted. A long request comes in two reads beside that.
fn serve_interrupted<S: Alter, W: Write>(
    alloc: Global,
    agency: &mut Agency<S>,
    request: &[u8],
    bytes: usize,
    is_slow: bool,
    writer: &mut W,
) -> Result<StatusCode, NetFault> {
    if is_slow {
        let mut reader = InterruptedReader {
            inner: request,
            calls: (bytes as u64).saturating_add(1),
        };
        return serve_one(alloc, agency, &mut reader, writer);
    }
    let begun = request.get(..bytes).unwrap_or(request);
    let rest = request.get(bytes..).unwrap_or(b"");
    let interrupted = InterruptedReader {
        inner: b"",
        calls: 1,
    };
    let mut reader = begun.chain(interrupted).chain(rest);
    serve_one(alloc, agency, &mut reader, writer)
}

fn judge_behind(
    rt: &HostRuntime,
    tally: &mut Tally,
    case: &Case,
    bytes: usize,
    got: &Outcome,
    want: &Outcome,
) -> io::Result<()> {
    let way = Way {
        words: "interrupted",
        bytes,
    };
    judge(rt, tally, case, way, got, want)
}

/// The read behind so many bytes of the request is interrupted, and the write behind as many of the answer: that is whole.
pub fn play_interrupted_behind<S: Alter>(
    rt: &HostRuntime,
    tally: &mut Tally,
    agency: &mut Agency<S>,
    case: &Case,
    bytes: usize,
    is_slow: bool,
) -> io::Result<()> {
    let alloc = rt.alloc();
    let mut writer = InterruptedWriter {
        inner: Vec::new(alloc),
        calls: (bytes as u64).saturating_add(1),
    };
    let served = serve_interrupted(alloc, agency, &case.request, bytes, is_slow, &mut writer);
    let got = Outcome {
        end: end_text(served),
        written: &writer.inner,
        replies: "",
    };
    let want = Outcome {
        end: end_of(&case.answer),
        written: &case.answer,
        replies: "",
    };
    judge_behind(rt, tally, case, bytes, &got, &want)
}
