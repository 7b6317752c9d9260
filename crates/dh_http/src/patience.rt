//! How long a peer is waited for.

ghost use Rattle.std.specs.Prelude.{◌≡◌};
ghost use Rattle.dh_http.specs.Patience.{standard_patience};

/// How long a peer is waited for, and how much of its input is taken in behind its request.
#[derive(Clone, Copy, Debug, PartialEq, Eq)]
pub struct Patience {
    /// For so many seconds a request is read, from the first read on.
    pub request_seconds: u64,
    /// For so many seconds its answer is written, from the first write on.
    pub answer_seconds: u64,
    /// For so many seconds what comes behind the request is read.
    pub rest_seconds: u64,
    /// So many bytes of it are read at most, but for those of the last read.
    pub rest_bytes: usize,
}

impl Patience {
    /// Half a minute for a request, half a minute for its answer, and two seconds or 64 KiB for what comes behind it.
    pub fn standard() -> Patience
        ensures whole { result ≡ standard_patience }
        ensures request { result.request_seconds ≡ 30 }
        ensures answer { result.answer_seconds ≡ 30 }
        ensures rest { result.rest_seconds ≡ 2 }
        ensures bytes { result.rest_bytes ≡ 65536 }
    {
        Patience {
            request_seconds: 30,
            answer_seconds: 30,
            rest_seconds: 2,
            rest_bytes: 65_536,
        }
    }
}
