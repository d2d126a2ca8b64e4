//! Places in the sources.

/// A place in the sources: a file's number in the list of modules, and a byte offset.
#[derive(Clone, Copy, PartialEq, Eq, Debug)]
pub struct Place {
    pub file: u32,
    pub at: u32,
}
