//! Which version of the books a file holds.

/// The version of the books. Books of the first version have no fees and no endings.
#[derive(Clone, Copy, Debug, PartialEq, Eq)]
pub enum Version {
    First,
    Second,
}
