//! What the bytes of a connection ask for: the head of a request, its header lines and its body, read in whatever pieces they
//! come; the route that its target names; and the JSON body as a list of texts. Read [`read_request`] and `specs/Requests.antt` first.
#![tactic(auto)]

mod body_texts;
mod command_body;
mod head;
mod header_lines;
mod judged_request;
pub mod limits;
mod pieces;
mod reply_body;
mod request;
mod routes;
mod verdict;

pub use head::one_outcome;
pub use judged_request::{JudgedRequest, Turned};
pub use reply_body::reply;
pub use request::read_request;
pub use routes::Routes;
