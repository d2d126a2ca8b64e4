//! Gaps: the values that stand where the rules choose nothing to insert. No program has so many values, so that a gap
//! is a value that isn't bound.

/// What stands where no instance is in scope: the value of this number, `no_instance_here`.
pub const NO_INSTANCE: u32 = 4_294_967_295;

/// What stands where the fields of a folder's row aren't known: the value of this number, `no_folder_here`.
pub const NO_FOLDER: u32 = 4_294_967_294;
