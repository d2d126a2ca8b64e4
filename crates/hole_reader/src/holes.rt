//! What a reader leaves to another.
ghost use Rattle.std.specs.Prelude.{◌≡◌, IfSome};
ghost use Rattle.surface_grammar.specs.declared.part.Part.TheVariants.{One};
ghost use Rattle.hole_reader.specs.Holes.{hole_of, form_of};

use grammar_engine::Want;
use surface_grammar::{Form, Hole, Part};

/// What is to be handed in: a tree for this want, which is such a hole.
#[derive(Clone, Copy)]
pub struct Asked {
    pub hole: Hole,
    pub want: Want,
}

/// The hole that the part is, where it is one.
pub fn hole_of(part: Part) -> Option<Hole>
    ensures hole { result ≡ hole_of part }
    ensures form { IfSome result (λ hole. part ≡ One (form_of hole)) }
{
    match part {
        Part::One(Form::Exp) => Some(Hole::Exp),
        Part::One(Form::Con) => Some(Hole::Con),
        _ => None,
    }
}

/// The form of the trees that fill the hole.
pub fn form_of(hole: Hole) -> Form
    ensures { result ≡ form_of hole }
{
    match hole {
        Hole::Exp => Form::Exp,
        Hole::Con => Form::Con,
    }
}
