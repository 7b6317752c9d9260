//! The books of an agency in memory, by key: what is found, put and listed is what the finite maps of the model say.
//! Read [`Books`] first.
#![tactic(auto)]

mod books;

pub use books::Books;
