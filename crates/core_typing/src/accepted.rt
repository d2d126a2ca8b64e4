//! Programs that are accepted.
ghost use Rattle.std.specs.Prelude.{◌≡◌};
ghost use Rattle.core_typing.specs.Accepts.{Accepts};
ghost use Rattle.core_terms.specs.View.{program_view};

use core_terms::Program;

/// A program that is accepted.
#[derive(Drop)]
pub struct Accepted {
    held: Program,
    pub ghost accepted: { ∥ Accepts (program_view held) ∥₁ },
}

impl Accepted {
    /// Keeps a program that is accepted.
    pub fn keep(program: Program) -> Accepted
        requires { Accepts (program_view program) }
        ensures { result.held ≡ program }
    {
        Accepted { held: program }
    }

    /// The program, which is accepted.
    pub fn program(&self) -> &Program
        ensures same { result.now ≡ self.now.held }
        ensures accepted { ∥ Accepts (program_view result.now) ∥₁ }
    {
        &self.held
    }
}
