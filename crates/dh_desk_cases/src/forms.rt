//! Lines as requests of HTTP, and the replies to them as its answers.

use std::alloc::{AllocError, Global};

/// The request that the line is: a question by its route, and every other line by POST. No field of it has a quote or a backslash.
pub fn request_of(alloc: Global, line: &str) -> Result<String, AllocError> {
    if let Some(question) = line.strip_prefix("show,") {
        let route = question.replace(alloc, ",", "/")?;
        return format!(in alloc;
            "GET /{} HTTP/1.1\r\nHost: localhost\r\n\r\n",
            route.as_str()
        );
    }
    let fields = line.replace(alloc, ",", "\",\"")?;
    let body = format!(in alloc; "[\"{}\"]", fields.as_str())?;
    format!(in alloc;
        "POST /commands HTTP/1.1\r\nHost: localhost\r\nContent-Length: {}\r\n\r\n{}",
        body.len(),
        body.as_str()
    )
}

// The status of the reply to a command or of a refusal, and the code in its body.
fn status_and_code(reply: &str) -> (&'static str, &str) {
    if reply.starts_with("bad field ") {
        return ("400 Bad Request", "15");
    }
    match reply.strip_prefix("refused ") {
        Some(rest) => {
            let (code, _) = rest.split_once(' ').unwrap_or((rest, ""));
            ("409 Conflict", code)
        }
        None => ("200 OK", "0"),
    }
}

fn answer(alloc: Global, status: &str, kind: &str, body: &str) -> Result<String, AllocError> {
    format!(in alloc;
        "HTTP/1.1 {status}\r\nContent-Type: {kind}\r\nContent-Length: {}\r\nConnection: close\r\n\r\n{body}",
        body.len()
    )
}

// The report behind `shown K`, with the end of its last line.
fn report_in(alloc: Global, reply: &str) -> Result<String, AllocError> {
    match reply.split_once('\n') {
        Some((_, lines)) => format!(in alloc; "{lines}\n"),
        None => Ok(String::new(alloc)),
    }
}

/// The answer to a request whose line is replied to so. The lines of a report stand behind `shown K`, and the last of them has no end.
pub fn answer_of(alloc: Global, reply: &str) -> Result<String, AllocError> {
    if reply.starts_with("shown ") {
        let report = report_in(alloc, reply)?;
        return answer(
            alloc,
            "200 OK",
            "text/plain; charset=utf-8",
            report.as_str(),
        );
    }
    let (status, code) = status_and_code(reply);
    let body = format!(in alloc; "{{\"code\":{code},\"text\":\"{reply}\"}}")?;
    answer(alloc, status, "application/json", body.as_str())
}
