//! Names with numbers.
use indexmap::IndexMap;
use std::alloc::{AllocError, Global};

/// Names with numbers, where the last number that a name was given counts.
#[derive(Drop)]
pub struct NameTable {
    alloc: Global,
    numbers: IndexMap<String, u32>,
}

impl NameTable {
    /// No names.
    pub fn new(alloc: Global) -> NameTable {
        NameTable {
            alloc,
            numbers: IndexMap::new(alloc),
        }
    }

    /// The number of a name.
    pub fn get(&self, name: &str) -> Option<u32> {
        match self.numbers.get(name) {
            Some(number) => Some(*number),
            None => None,
        }
    }

    /// Gives a name a number.
    pub fn put(&mut self, name: &str, number: u32) -> Result<(), AllocError> {
        let owned = String::from_str(self.alloc, name)?;
        match self.numbers.insert(owned, number) {
            Ok(_) => Ok(()),
            Err(_) => Err(AllocError),
        }
    }
}
