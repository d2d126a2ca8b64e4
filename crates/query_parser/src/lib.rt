//! The reader of queries and changes of tables.
#![tactic(auto)]

use hole_reader::{PartReader, Whole};
use surface_grammar::{Form, Part};

/// The query or the change of a table that stands in brackets.
#[derive(Clone, Copy)]
pub struct Query;

impl Whole for Query {
    ghost use Rattle.surface_grammar.specs.declared.form.Form.TheVariants as f;
    ghost use Rattle.surface_grammar.specs.declared.part.Part.TheVariants.{One};

    ghost whole = { One f.Sql };

    fn part() -> Part {
        Part::One(Form::Sql)
    }
}

/// Reads the query or the change of a table that stands in brackets (The Ur/Web Manual, SQL).
pub type SqlText = PartReader<Query>;
