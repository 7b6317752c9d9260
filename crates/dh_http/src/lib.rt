//! HTTP over an agency: one request and its answer, and the connections at a port of this machine, one after the other. Read
//! [`serve`], which the program runs, and `specs/Requests.antt` of dh_requests first; [`serve_one`] is for cases.
#![tactic(auto)]

mod acceptor;
mod answers;
mod connections;
mod exchange;
mod fault;
pub mod laws;
mod listener;
mod patience;
mod peers;
mod streams;
mod watch;

pub use acceptor::{Door, accept};
pub use connections::serve_peer;
pub use exchange::serve_one;
pub use fault::NetFault;
pub use listener::{Service, Unserved, serve};
pub use patience::Patience;
pub use peers::Peer;
pub use streams::TimedStream;
pub use watch::Watch;
