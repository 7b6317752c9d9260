//! A body that is a list of texts.

ghost use Rattle.std.specs.Prelude.{◌≡◌, ◌≢◌, ◌≤◌, ◌<◌, ◌↔◌, List, [], ◌∷◌, ℕ, length, map, Some, None, false};
ghost use Rattle.std.specs.Prelude.{IfOk, IfSome, IsTrue, OnErr, MatchBool, MatchOption};
ghost use Rattle.json.specs.Scratch.{room};
ghost use Rattle.json.specs.Token.{Token as JsonToken};
ghost use Rattle.serde_json.specs.Data.{array};
ghost use Rattle.serde_json.specs.View.{items_view};
ghost use Rattle.dh_requests.specs.Texts.{AreTexts, list_of};
ghost use Rattle.serde_json.specs.Errors.{IsMemory};
ghost use Rattle.serde_json.specs.Read.{read};

use json::{Reader, Scratch, Token};
use serde_json::{Error, Value};
use std::alloc::{AllocError, Global};
use std::str;

/// The texts that the values of a list are; `None` where one is no text. An error comes only for want of memory, and never for a
/// list of none.
pub(crate) fn texts_of<'a>(
    alloc: Global,
    items: &'a [Value],
) -> Result<Option<Vec<&'a [u8]>>, AllocError>
    ensures some { OnErr result (0 < length items.now) }
    ensures texts { IfOk result (λ found. MatchOption found
        ((texts : List (List ℕ)) → array (items_view items.now) ≢ list_of texts)
        (λ v. array (items_view items.now) ≡ list_of (map (λ s. s.now) v.items))) }
{
    let mut texts = Vec::new(alloc);
    for item in items {
        match item.as_str() {
            Some(text) => texts.push(text.as_bytes())?,
            None => return Ok(None),
        }
    }
    Ok(Some(texts))
}

// Takes the bracket that opens a list, if it is next, and else whatever is.
fn take_list(reader: &mut Reader) -> bool
    ensures list { IsTrue result → reader.old ≡ JsonToken.begin_array ∷ reader.new }
    ensures other { result ≡ false → (rest : List JsonToken) → reader.old ≢ JsonToken.begin_array ∷ rest }
{
    matches!(reader.next(), Some(Token::BeginArray))
}

// Takes a text, if it is next, and else whatever is.
fn take_text(reader: &mut Reader) -> bool
    ensures text { IsTrue result → (text : List ℕ) × (reader.old ≡ JsonToken.string text ∷ reader.new) }
    ensures other { result ≡ false → (text : List ℕ) (rest : List JsonToken) → reader.old ≢ JsonToken.string text ∷ rest }
{
    matches!(reader.next(), Some(Token::String(_)))
}

// Whether nothing is left.
fn is_at_end(reader: &mut Reader) -> bool
    ensures { IsTrue result ↔ (reader.old ≡ []) }
{
    reader.next().is_none()
}

// Whether a text is a list of texts. It takes no memory but the room that it is given.
fn is_list(text: &str, scratch: &mut Scratch) -> bool
    requires { length text.now ≤ room scratch.old }
    ensures texts { IsTrue result → (texts : List (List ℕ)) × (read text.now ≡ Some (list_of texts)) }
    ensures none { result ≡ false → (texts : List (List ℕ)) → read text.now ≢ Some (list_of texts) }
{
    let Ok(mut reader) = Reader::new(text, scratch) else {
        unreachable!();
    };
    if !take_list(&mut reader) {
        return false;
    }
    'texts: while !reader.take_end_array() {
        if !take_text(&mut reader) {
            return false;
        }
    }
    is_at_end(&mut reader)
}

// That memory ran out, as an error says that has no other reason.
fn want_of_memory(error: &Error) -> AllocError
    requires { IsMemory error.now }
{
    AllocError
}

/// The values of the list that the body is; `None` where it is no list of texts. An error comes only for want of memory, and of a list
/// of texts alone.
pub(crate) fn list_in(
    alloc: Global,
    scratch: &mut Scratch,
    body: &[u8],
) -> Result<Option<Vec<Value>>, AllocError>
    requires { length body.now ≤ room scratch.old }
    ensures ok { IfOk result (λ found. IfSome found (λ v. (texts : List (List ℕ)) → array (items_view v.items) ≡ list_of texts → AreTexts body.now texts)) }
    ensures only { IfOk result (λ found. IfSome found (λ v. (texts : List (List ℕ)) → AreTexts body.now texts → array (items_view v.items) ≡ list_of texts)) }
    ensures texts { IfOk result (λ found. IfSome found (λ _. (texts : List (List ℕ)) × AreTexts body.now texts)) }
    ensures none { IfOk result (λ found. found ≡ None → (texts : List (List ℕ)) → ¬ AreTexts body.now texts) }
    ensures memory { OnErr result ((texts : List (List ℕ)) × AreTexts body.now texts) }
{
    let Ok(text) = str::from_utf8(body) else {
        return Ok(None);
    };
    if !is_list(text, scratch) {
        return Ok(None);
    }
    match Value::from_str(alloc, text) {
        Ok(Value::Array(items)) => Ok(Some(items)),
        Ok(_) => unreachable!(),
        Err(error) => {
            if !error.is_memory() {
                unreachable!();
            }
            Err(want_of_memory(&error))
        }
    }
}
