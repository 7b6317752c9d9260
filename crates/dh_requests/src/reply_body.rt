//! The body of a reply.

ghost use Rattle.std.specs.Prelude.{◌≡◌, string_bytes, IfOk};
ghost use Rattle.serde_json.specs.View.{view};
ghost use Rattle.dh_requests.specs.Texts.{reply_body, reply_data};

use serde_json::{Value, json};
use std::alloc::{AllocError, Global};

// A reply as a value.
fn reply_value(alloc: Global, code: u8, text: &str) -> Result<Value, AllocError>
    ensures { IfOk result (λ v. view v ≡ reply_data code text.now) }
{
    json!(in alloc; {"code": code, "text": text})
}

/// The body `{"code":N,"text":T}` of a reply. An error comes only for want of memory.
pub fn reply(alloc: Global, code: u8, text: &str) -> Result<String, AllocError>
    ensures { IfOk result (λ s. string_bytes s ≡ reply_body code text.now) }
{
    let value = reply_value(alloc, code, text)?;
    value.to_string(alloc)
}
