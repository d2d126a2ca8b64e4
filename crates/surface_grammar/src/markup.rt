//! The rules of markup.
ghost use Rattle.std.specs.Prelude.{◌≡◌};
ghost use Rattle.surface_grammar.specs.Table.{markup_body};

use crate::table::{lines, part_of, word_kind};
use crate::{Form, Part};
use surface_tree::Kind;

/// A rule of markup. Its line below is the whole rule.
#[derive(Clone, Copy)]
pub enum MarkupRule {
    NodeText,
    NodeBrace,
    NodeElement,
    NodeSplice,
    NodeExp,
    Splice,
    TagName,
    ElementEmpty,
    ElementFull,
    Attribute,
    AttributeString,
    AttributeInt,
    AttributeExp,
}

/// The parts of a rule, in order.
pub fn body(rule: MarkupRule) -> &'static [Part]
    ensures { result.now ≡ markup_body rule }
{
    lines! { rule, MarkupRule:
        NodeText = (text)
        NodeBrace = ("{" NodeBraceRest)
        NodeElement = (open_tag [TagName] {Attribute} ElementEnd)
        NodeSplice = (Splice "}")
        NodeExp = (Exp "}")
        Splice = ("[" Exp "]")
        TagName = ("{" Con "}")
        ElementEmpty = ("/>")
        ElementFull = (">" {Node} close_tag)
        Attribute = (name "=" AttributeValue)
        AttributeString = (string)
        AttributeInt = (int)
        AttributeExp = ("{" Exp "}")
    }
}
