//! The reader of markup: what stands between the tags of an XML literal.
#![tactic(auto)]

use hole_reader::{PartReader, Whole};
use surface_grammar::{Form, Part};

/// The nodes of an XML literal or of an element, as many as stand there.
#[derive(Clone, Copy)]
pub struct Nodes;

impl Whole for Nodes {
    ghost use Rattle.surface_grammar.specs.declared.form.Form.TheVariants as f;
    ghost use Rattle.surface_grammar.specs.declared.part.Part.TheVariants.{Many};

    ghost whole = { Many f.Node };

    fn part() -> Part {
        Part::Many(Form::Node)
    }
}

/// Reads the nodes of an XML literal or of an element (The Ur/Web Manual, Expressions), as many as stand there.
pub type Markup = PartReader<Nodes>;
