//! A region of memory.
ghost use Rattle.std.specs.Prelude.{◌≡◌, IfOk};

use bumpalo::Bump;
use std::alloc::{AllocError, Global};

/// Memory for what is made while one request is answered. What was put into it lies in it until it is
/// given up with all the rest.
#[derive(Drop)]
pub struct Region {
    alloc: Global,
    arena: Bump,
}

impl Region {
    /// A region with nothing in it. It takes no memory.
    pub fn new(alloc: Global) -> Region {
        Region {
            alloc,
            arena: Bump::new(alloc),
        }
    }

    /// The same text, in the region.
    pub fn put_text<'r>(&'r self, text: &str) -> Result<&'r str, AllocError>
        ensures { IfOk result (λ put. put.now ≡ text.now) }
    {
        self.arena.try_alloc_str(text)
    }

    /// The same items, in the region.
    pub fn put_slice<'r, T: Copy>(&'r self, items: &[T]) -> Result<&'r [T], AllocError>
        ensures { IfOk result (λ put. put.now ≡ items.now) }
    {
        Ok(self.arena.try_alloc_slice_copy(items)?)
    }

    /// The same value, in the region.
    pub fn put_value<'r, T: Copy + Drop>(&'r self, value: T) -> Result<&'r T, AllocError>
        ensures { IfOk result (λ put. put.now ≡ value) }
    {
        Ok(self.arena.try_alloc(value)?)
    }

    /// Gives up everything that was put into the region, for the next request.
    pub fn again(&mut self) {
        if self.arena.reset().is_err() {
            self.arena = Bump::new(self.alloc);
        }
    }
}
