//! The tags of a page.
ghost use Rattle.std.specs.Prelude.{◌≡◌, ◌≢◌, IfOk, IfSome, IfNone, IsTrue, option_and_then};
ghost use Rattle.xml_trees.specs.Names.{name_bytes};
ghost use Rattle.xml_trees.specs.SourceNames.{simple_tag, tag_named};
ghost use Rattle.xml_trees.specs.Tags.{name_of, is_simple};

use crate::{Name, TagName};
use std::alloc::{AllocError, Global};
use table_rows::Text;

/// A tag of a page. The inputs hold the name of the field that they fill.
#[derive(Debug, Drop)]
pub enum Tag {
    Head,
    Body,
    Title,
    P,
    Div,
    Span,
    B,
    I,
    Em,
    Strong,
    H1,
    H2,
    H3,
    H4,
    Ul,
    Ol,
    Li,
    Code,
    Blockquote,
    Br,
    Hr,
    A,
    Img,
    Table,
    Tr,
    Th,
    Td,
    Form,
    Textbox(Text),
    Password(Text),
    Hidden(Text),
    Checkbox(Text),
    Submit,
}

impl Tag {
    /// The tag of this name among those that take text and one another: paragraphs, headings, lists and
    /// their like, `br` and `hr`.
    #[tactic(auto, using(crate::proofs::SimpleTags::simple_has, crate::proofs::SimpleTags::simple_named))]
    pub fn simple(name: &str) -> Option<Tag>
        ensures named { result ≡ option_and_then simple_tag (tag_named name.now) }
        ensures some { IfSome result (λ tag. IsTrue (is_simple tag) × (name_bytes (name_of tag) ≡ name.now)) }
        ensures none { IfNone result ((tag : Tag) → IsTrue (is_simple tag) → name_bytes (name_of tag) ≢ name.now) }
    {
        TagName::named(name)?.simple()
    }

    /// The name that the tag is written with. Every kind of input is an `input`.
    pub fn name(&self) -> Name
        ensures { result ≡ name_of self.now }
    {
        match self {
            Tag::Head => Name::Head,
            Tag::Body => Name::Body,
            Tag::Title => Name::Title,
            Tag::P => Name::P,
            Tag::Div => Name::Div,
            Tag::Span => Name::Span,
            Tag::B => Name::B,
            Tag::I => Name::I,
            Tag::Em => Name::Em,
            Tag::Strong => Name::Strong,
            Tag::H1 => Name::H1,
            Tag::H2 => Name::H2,
            Tag::H3 => Name::H3,
            Tag::H4 => Name::H4,
            Tag::Ul => Name::Ul,
            Tag::Ol => Name::Ol,
            Tag::Li => Name::Li,
            Tag::Code => Name::Code,
            Tag::Blockquote => Name::Blockquote,
            Tag::Br => Name::Br,
            Tag::Hr => Name::Hr,
            Tag::A => Name::A,
            Tag::Img => Name::Img,
            Tag::Table => Name::Table,
            Tag::Tr => Name::Tr,
            Tag::Th => Name::Th,
            Tag::Td => Name::Td,
            Tag::Form => Name::Form,
            Tag::Textbox(_) | Tag::Password(_) | Tag::Hidden(_) | Tag::Checkbox(_) => Name::Input,
            Tag::Submit => Name::Input,
        }
    }

    /// Another tag like this one.
    pub fn copy(&self, alloc: Global) -> Result<Tag, AllocError>
        ensures { IfOk result (λ made. made ≡ self.now) }
    {
        Ok(match self {
            Tag::Head => Tag::Head,
            Tag::Body => Tag::Body,
            Tag::Title => Tag::Title,
            Tag::P => Tag::P,
            Tag::Div => Tag::Div,
            Tag::Span => Tag::Span,
            Tag::B => Tag::B,
            Tag::I => Tag::I,
            Tag::Em => Tag::Em,
            Tag::Strong => Tag::Strong,
            Tag::H1 => Tag::H1,
            Tag::H2 => Tag::H2,
            Tag::H3 => Tag::H3,
            Tag::H4 => Tag::H4,
            Tag::Ul => Tag::Ul,
            Tag::Ol => Tag::Ol,
            Tag::Li => Tag::Li,
            Tag::Code => Tag::Code,
            Tag::Blockquote => Tag::Blockquote,
            Tag::Br => Tag::Br,
            Tag::Hr => Tag::Hr,
            Tag::A => Tag::A,
            Tag::Img => Tag::Img,
            Tag::Table => Tag::Table,
            Tag::Tr => Tag::Tr,
            Tag::Th => Tag::Th,
            Tag::Td => Tag::Td,
            Tag::Form => Tag::Form,
            Tag::Textbox(field) => Tag::Textbox(field.copy(alloc)?),
            Tag::Password(field) => Tag::Password(field.copy(alloc)?),
            Tag::Hidden(field) => Tag::Hidden(field.copy(alloc)?),
            Tag::Checkbox(field) => Tag::Checkbox(field.copy(alloc)?),
            Tag::Submit => Tag::Submit,
        })
    }
}
