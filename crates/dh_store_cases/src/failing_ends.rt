//! Requests of which a read or a write fails.

use crate::agencies::{Outcome, end_text};
use crate::cases::{Case, Way, end_of, judge};
use dh_agency::Agency;
use dh_http::serve_one;
use dh_test_kit::Tally;
use dh_test_kit::ends::{FailingReader, FailingWriter};
use sqlite::Alter;
use std::io;
use std::io::Read;

// Serves the request to a reader that fails before the answer.
fn play_read<S: Alter, R: Read>(
    rt: &HostRuntime,
    tally: &mut Tally,
    agency: &mut Agency<S>,
    case: &Case,
    bytes: usize,
    reader: &mut R,
) -> io::Result<()> {
    let mut written = Vec::new(rt.alloc());
    let end = end_text(serve_one(rt.alloc(), agency, reader, &mut written));
    let got = Outcome {
        end,
        written: &written,
        replies: "",
    };
    let want = Outcome {
        end: "input failed",
        written: b"",
        replies: "",
    };
    let way = Way {
        words: "failing",
        bytes,
    };
    judge(rt, tally, case, way, &got, &want)
}

/// The read behind so many bytes fails: nothing is written.
pub fn play_read_behind<S: Alter>(
    rt: &HostRuntime,
    tally: &mut Tally,
    agency: &mut Agency<S>,
    case: &Case,
    bytes: usize,
    is_slow: bool,
) -> io::Result<()> {
    if is_slow {
        let mut reader = FailingReader {
            inner: case.request.as_slice(),
            reads: bytes as u64,
        };
        return play_read(rt, tally, agency, case, bytes, &mut reader);
    }
    let begun = case.request.get(..bytes).unwrap_or(case.request.as_slice());
    let mut reader = begun.chain(FailingReader {
        inner: b"",
        reads: 0,
    });
    play_read(rt, tally, agency, case, bytes, &mut reader)
}

// What is wanted of a writer that takes so many bytes: it has a beginning of the answer.
fn written<'a>(case: &'a Case, writes: usize) -> Outcome<'a> {
    match case.answer.get(..writes) {
        Some(begun) if writes < case.answer.len() => Outcome {
            end: "output failed",
            written: begun,
            replies: "",
        },
        _ => Outcome {
            end: end_of(&case.answer),
            written: &case.answer,
            replies: "",
        },
    }
}

/// The write behind so many bytes fails: what is written is a beginning of the answer.
pub fn play_write_behind<S: Alter>(
    rt: &HostRuntime,
    tally: &mut Tally,
    agency: &mut Agency<S>,
    case: &Case,
    writes: usize,
) -> io::Result<()> {
    let mut reader = case.request.as_slice();
    let mut writer = FailingWriter {
        inner: Vec::new(rt.alloc()),
        writes: writes as u64,
    };
    let end = end_text(serve_one(rt.alloc(), agency, &mut reader, &mut writer));
    let got = Outcome {
        end,
        written: &writer.inner,
        replies: "",
    };
    let way = Way {
        words: "failing in the answer",
        bytes: writes,
    };
    judge(rt, tally, case, way, &got, &written(case, writes))
}
