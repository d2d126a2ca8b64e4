//! How deep terms and patterns nest.

/// How deep a term or a pattern nests at the most, in levels: what builds, checks, prints or runs one gives up
/// behind so many, which counts as want of memory. What stands beside one another nests nothing.
///
/// A sum of 1,000 numbers keeps within it, and the deepest term is checked and let go on a stack of 8 MiB.
pub const MOST_NESTED: u32 = 1200;
