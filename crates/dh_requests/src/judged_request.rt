//! What a request asks for.

use dh_types::{Refusal, Request};

/// What a request asks for.
#[derive(Drop)]
pub enum JudgedRequest {
    /// Nothing that is served: it is turned away.
    Turned(Turned),
    /// What fields ask for, as those of a line do.
    Fields(Result<Request, Refusal>),
}

/// Why a request is turned away.
#[derive(Clone, Copy)]
pub enum Turned {
    /// It breaks the grammar, is cut short, names its host not once, or has a bad length or body.
    BadRequest,
    /// Its target has no route.
    NotFound,
    /// It gives a command, by another method than POST.
    OnlyByPost,
    /// It asks a question, by another method than GET.
    OnlyByGet,
    /// It gives a command without Content-Length.
    NoLength,
    /// Its body is larger than a body may be.
    BodyTooLarge,
    /// Its head is larger, or has more lines, than a head may have.
    HeadTooLarge,
    /// It has a Transfer-Encoding.
    NotImplemented,
}
