//! Sites: projects that were built.
ghost use Rattle.std.specs.Prelude.{◌≡◌, string_bytes};

use core_terms::Program;

/// A project that was built.
#[derive(Drop)]
pub struct Site {
    pub program: Program,
    pub(crate) explicit: String,
}

impl Site {
    /// The program.
    pub fn program(&self) -> &Program
        ensures { result.now ≡ self.now.program }
    {
        &self.program
    }

    /// The program as its tokens, with one space between two: each module, and then its declarations.
    pub fn explicit(&self) -> &str
        ensures { result.now ≡ string_bytes self.now.explicit }
    {
        self.explicit.as_str()
    }

    /// The same text, owned.
    pub fn into_explicit(self) -> String
        ensures { result ≡ self.explicit }
    {
        let Site { explicit, .. } = self;
        explicit
    }
}
