//! What is in scope at a place of an explicit program.
ghost use Rattle.std.specs.Prelude.{◌≡◌, map};
ghost use Rattle.inserted_terms.specs.Forms.{instance_names};
ghost use Rattle.inserted_terms.specs.Values.{name_of};
ghost use Rattle.std.proofs.Props.{props};

use crate::tops::Tops;
use crate::values::BasisValue;
use core_terms::Program;
use judgements::Locals;
use source_names::Here;
use std::rc::Rc;

/// What variables and top-level values are called, and their types. Contracts see it as `at_view`.
#[derive(Drop)]
pub struct At<'p> {
    pub names: Here<'p>,
    pub program: &'p Program,
    pub tops: &'p Tops,
    pub basis: &'p [BasisValue],
    /// The types of the variables.
    pub locals: Rc<Locals>,
    ghost instances: { map name_of basis.now ≡ instance_names } by { Prim.hlevel props },
}
