//! A rule of the grammar, and its parts.
ghost use Rattle.std.specs.Prelude.{◌≡◌};
ghost use Rattle.surface_grammar.specs.Leads.{leads, starts};
ghost use Rattle.surface_grammar.specs.Table.{body_of};

use crate::Part;
use crate::constructors::{self, ConRule};
use crate::declarations::{self, DeclRule};
use crate::expressions::{self, ExpRule};
use crate::kinds::{self, KindRule};
use crate::markup::{self, MarkupRule};
use crate::parameters::{self, ArgRule};
use crate::patterns::{self, PatRule};
use crate::queries::{self, SqlRule};
use crate::words::{accepts, any_accepts};
use surface_tree::Kind;

/// A rule: one way in which a tree of a form is made. `{x}` in its line is any number of `x`, and
/// `[x]` is one `x` or none.
#[derive(Clone, Copy)]
pub enum Rule {
    /// Of kinds.
    Kind(KindRule),
    /// Of constructors.
    Con(ConRule),
    /// Of patterns.
    Pat(PatRule),
    /// Of parameters of functions.
    Arg(ArgRule),
    /// Of expressions.
    Exp(ExpRule),
    /// Of markup.
    Markup(MarkupRule),
    /// Of declarations.
    Decl(DeclRule),
    /// Of queries and changes of tables.
    Sql(SqlRule),
}

impl Rule {
    /// The parts of the rule, in order.
    pub fn body(self) -> &'static [Part]
        ensures { result.now ≡ body_of self }
    {
        match self {
            Rule::Kind(rule) => kinds::body(rule),
            Rule::Con(rule) => constructors::body(rule),
            Rule::Pat(rule) => patterns::body(rule),
            Rule::Arg(rule) => parameters::body(rule),
            Rule::Exp(rule) => expressions::body(rule),
            Rule::Markup(rule) => markup::body(rule),
            Rule::Decl(rule) => declarations::body(rule),
            Rule::Sql(rule) => queries::body(rule),
        }
    }

    /// Whether a token of this kind begins the rule.
    pub fn starts(self, next: Kind) -> bool
        ensures { result ≡ starts self next }
    {
        !any_accepts(self.bars(), next) && leads(self.body(), next)
    }
}

/// Whether a token of this kind begins the parts.
fn leads(parts: &[Part], next: Kind) -> bool
    ensures { result ≡ leads parts.now next }
{
    for part in parts {
        match *part {
            Part::Word(word) => return accepts(word, next),
            Part::One(form) => return form.begins(Some(next)),
            Part::Many(form) | Part::Maybe(form) => {
                if form.begins(Some(next)) {
                    return true;
                }
            }
        }
    }
    false
}
