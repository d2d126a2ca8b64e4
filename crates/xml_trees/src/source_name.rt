//! The names that sources give to tags and attributes.
ghost use Rattle.std.specs.Prelude.{◌≡◌, ◌≢◌, IfSome, IfNone};
ghost use Rattle.xml_trees.specs.SourceNames.{tag_text, page_tag, simple_tag, tag_named, attribute_text, attribute_name, text_attribute, number_attribute};

use crate::{Attr, Tag};
use table_rows::Text;

/// A tag by its name in a source. The five kinds of input have a name each there.
#[derive(Clone, Copy, Debug, PartialEq, Eq)]
pub enum TagName {
    Head,
    Body,
    Title,
    P,
    Div,
    Span,
    B,
    I,
    Em,
    Strong,
    H1,
    H2,
    H3,
    H4,
    Ul,
    Ol,
    Li,
    Code,
    Blockquote,
    Br,
    Hr,
    A,
    Img,
    Table,
    Tr,
    Th,
    Td,
    Form,
    Textbox,
    Password,
    Hidden,
    Checkbox,
    Submit,
}

impl TagName {
    /// The name's letters.
    pub fn as_str(self) -> &'static str
        ensures { result.now ≡ tag_text self }
    {
        match self {
            TagName::Head => "head",
            TagName::Body => "body",
            TagName::Title => "title",
            TagName::P => "p",
            TagName::Div => "div",
            TagName::Span => "span",
            TagName::B => "b",
            TagName::I => "i",
            TagName::Em => "em",
            TagName::Strong => "strong",
            TagName::H1 => "h1",
            TagName::H2 => "h2",
            TagName::H3 => "h3",
            TagName::H4 => "h4",
            TagName::Ul => "ul",
            TagName::Ol => "ol",
            TagName::Li => "li",
            TagName::Code => "code",
            TagName::Blockquote => "blockquote",
            TagName::Br => "br",
            TagName::Hr => "hr",
            TagName::A => "a",
            TagName::Img => "img",
            TagName::Table => "table",
            TagName::Tr => "tr",
            TagName::Th => "th",
            TagName::Td => "td",
            TagName::Form => "form",
            TagName::Textbox => "textbox",
            TagName::Password => "password",
            TagName::Hidden => "hidden",
            TagName::Checkbox => "checkbox",
            TagName::Submit => "submit",
        }
    }

    /// The tag with these letters.
    pub fn named(text: &str) -> Option<TagName>
        ensures named { result ≡ tag_named text.now }
        ensures some { IfSome result (λ tag. tag_text tag ≡ text.now) }
        ensures none { IfNone result ((tag : TagName) → tag_text tag ≢ text.now) }
    {
        match text {
            "head" => Some(TagName::Head),
            "body" => Some(TagName::Body),
            "title" => Some(TagName::Title),
            "p" => Some(TagName::P),
            "div" => Some(TagName::Div),
            "span" => Some(TagName::Span),
            "b" => Some(TagName::B),
            "i" => Some(TagName::I),
            "em" => Some(TagName::Em),
            "strong" => Some(TagName::Strong),
            "h1" => Some(TagName::H1),
            "h2" => Some(TagName::H2),
            "h3" => Some(TagName::H3),
            "h4" => Some(TagName::H4),
            "ul" => Some(TagName::Ul),
            "ol" => Some(TagName::Ol),
            "li" => Some(TagName::Li),
            "code" => Some(TagName::Code),
            "blockquote" => Some(TagName::Blockquote),
            "br" => Some(TagName::Br),
            "hr" => Some(TagName::Hr),
            "a" => Some(TagName::A),
            "img" => Some(TagName::Img),
            "table" => Some(TagName::Table),
            "tr" => Some(TagName::Tr),
            "th" => Some(TagName::Th),
            "td" => Some(TagName::Td),
            "form" => Some(TagName::Form),
            "textbox" => Some(TagName::Textbox),
            "password" => Some(TagName::Password),
            "hidden" => Some(TagName::Hidden),
            "checkbox" => Some(TagName::Checkbox),
            "submit" => Some(TagName::Submit),
            _ => None,
        }
    }

    /// The tag of a page that it stands for, where an input fills the field of this name.
    pub fn tag(self, field: Text) -> Tag
        ensures { result ≡ page_tag self field }
    {
        match self {
            TagName::Head => Tag::Head,
            TagName::Body => Tag::Body,
            TagName::Title => Tag::Title,
            TagName::P => Tag::P,
            TagName::Div => Tag::Div,
            TagName::Span => Tag::Span,
            TagName::B => Tag::B,
            TagName::I => Tag::I,
            TagName::Em => Tag::Em,
            TagName::Strong => Tag::Strong,
            TagName::H1 => Tag::H1,
            TagName::H2 => Tag::H2,
            TagName::H3 => Tag::H3,
            TagName::H4 => Tag::H4,
            TagName::Ul => Tag::Ul,
            TagName::Ol => Tag::Ol,
            TagName::Li => Tag::Li,
            TagName::Code => Tag::Code,
            TagName::Blockquote => Tag::Blockquote,
            TagName::Br => Tag::Br,
            TagName::Hr => Tag::Hr,
            TagName::A => Tag::A,
            TagName::Img => Tag::Img,
            TagName::Table => Tag::Table,
            TagName::Tr => Tag::Tr,
            TagName::Th => Tag::Th,
            TagName::Td => Tag::Td,
            TagName::Form => Tag::Form,
            TagName::Textbox => Tag::Textbox(field),
            TagName::Password => Tag::Password(field),
            TagName::Hidden => Tag::Hidden(field),
            TagName::Checkbox => Tag::Checkbox(field),
            TagName::Submit => Tag::Submit,
        }
    }

    /// The tag of a page that it stands for, where that takes text and its like, or is `br` or `hr`.
    pub fn simple(self) -> Option<Tag>
        ensures { result ≡ simple_tag self }
    {
        match self {
            TagName::P => Some(Tag::P),
            TagName::Div => Some(Tag::Div),
            TagName::Span => Some(Tag::Span),
            TagName::B => Some(Tag::B),
            TagName::I => Some(Tag::I),
            TagName::Em => Some(Tag::Em),
            TagName::Strong => Some(Tag::Strong),
            TagName::H1 => Some(Tag::H1),
            TagName::H2 => Some(Tag::H2),
            TagName::H3 => Some(Tag::H3),
            TagName::H4 => Some(Tag::H4),
            TagName::Ul => Some(Tag::Ul),
            TagName::Ol => Some(Tag::Ol),
            TagName::Li => Some(Tag::Li),
            TagName::Code => Some(Tag::Code),
            TagName::Blockquote => Some(Tag::Blockquote),
            TagName::Br => Some(Tag::Br),
            TagName::Hr => Some(Tag::Hr),
            _ => None,
        }
    }
}

/// An attribute by its name in a source.
#[derive(Clone, Copy, Debug, PartialEq, Eq)]
pub enum AttrName {
    Title,
    Link,
    Href,
    Src,
    Alt,
    Border,
    Value,
    Size,
    Action,
}

impl AttrName {
    /// The name's letters.
    pub fn as_str(self) -> &'static str
        ensures { result.now ≡ attribute_text self }
    {
        match self {
            AttrName::Title => "title",
            AttrName::Link => "link",
            AttrName::Href => "href",
            AttrName::Src => "src",
            AttrName::Alt => "alt",
            AttrName::Border => "border",
            AttrName::Value => "value",
            AttrName::Size => "size",
            AttrName::Action => "action",
        }
    }

    /// The attribute with these letters.
    pub fn named(text: &str) -> Option<AttrName>
        ensures some { IfSome result (λ attr. attribute_text attr ≡ text.now) }
        ensures none { IfNone result ((attr : AttrName) → attribute_text attr ≢ text.now) }
    {
        match text {
            "title" => Some(AttrName::Title),
            "link" => Some(AttrName::Link),
            "href" => Some(AttrName::Href),
            "src" => Some(AttrName::Src),
            "alt" => Some(AttrName::Alt),
            "border" => Some(AttrName::Border),
            "value" => Some(AttrName::Value),
            "size" => Some(AttrName::Size),
            "action" => Some(AttrName::Action),
            _ => None,
        }
    }

    /// The attribute of a page with a text for its value. `border` and `size` have none.
    pub fn with_text(self, text: Text) -> Option<Attr>
        ensures { result ≡ text_attribute self text }
    {
        match self {
            AttrName::Title => Some(Attr::Title(text)),
            AttrName::Link => Some(Attr::Link(text)),
            AttrName::Href => Some(Attr::Href(text)),
            AttrName::Src => Some(Attr::Src(text)),
            AttrName::Alt => Some(Attr::Alt(text)),
            AttrName::Value => Some(Attr::Value(text)),
            AttrName::Action => Some(Attr::Action(text)),
            AttrName::Border | AttrName::Size => None,
        }
    }

    /// The attribute of a page with a number for its value, which only `border` and `size` have.
    pub fn with_number(self, number: i64) -> Option<Attr>
        ensures { result ≡ number_attribute self number }
    {
        match self {
            AttrName::Border => Some(Attr::Border(number)),
            AttrName::Size => Some(Attr::Size(number)),
            _ => None,
        }
    }
}

impl Attr {
    /// The name that sources give to the attribute.
    pub fn name(&self) -> AttrName
        ensures { result ≡ attribute_name self.now }
    {
        match self {
            Attr::Title(_) => AttrName::Title,
            Attr::Link(_) => AttrName::Link,
            Attr::Href(_) => AttrName::Href,
            Attr::Src(_) => AttrName::Src,
            Attr::Alt(_) => AttrName::Alt,
            Attr::Border(_) => AttrName::Border,
            Attr::Value(_) => AttrName::Value,
            Attr::Size(_) => AttrName::Size,
            Attr::Action(_) => AttrName::Action,
        }
    }
}
