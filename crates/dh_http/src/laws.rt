//! A law of answers: its function does nothing, and its clauses are the law.

ghost use Rattle.std.specs.Prelude.{codes};
ghost use Rattle.dh_http.specs.FirstLines.{BeginsWith};

/// The first line of each answer, with its status and the phrase of that.
pub fn first_lines()
    ensures ok { BeginsWith 200 (codes "HTTP/1.1 200 OK\r\n") }
    ensures bad_request { BeginsWith 400 (codes "HTTP/1.1 400 Bad Request\r\n") }
    ensures not_found { BeginsWith 404 (codes "HTTP/1.1 404 Not Found\r\n") }
    ensures method_not_allowed { BeginsWith 405 (codes "HTTP/1.1 405 Method Not Allowed\r\n") }
    ensures conflict { BeginsWith 409 (codes "HTTP/1.1 409 Conflict\r\n") }
    ensures length_required { BeginsWith 411 (codes "HTTP/1.1 411 Length Required\r\n") }
    ensures payload_too_large { BeginsWith 413 (codes "HTTP/1.1 413 Payload Too Large\r\n") }
    ensures head_too_large { BeginsWith 431 (codes "HTTP/1.1 431 Request Header Fields Too Large\r\n") }
    ensures not_implemented { BeginsWith 501 (codes "HTTP/1.1 501 Not Implemented\r\n") }
    ensures unavailable { BeginsWith 503 (codes "HTTP/1.1 503 Service Unavailable\r\n") }
{}
