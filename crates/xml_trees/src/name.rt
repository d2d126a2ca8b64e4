//! The names that tags are written with.
ghost use Rattle.std.specs.Prelude.{◌≡◌, ◌↔◌, IsTrue};
ghost use Rattle.xml_trees.specs.Names.{name_bytes, is_void_name};

/// The name that a tag is written with, as `blockquote` or, for every kind of input, `input`.
#[derive(Clone, Copy, Debug, PartialEq, Eq)]
pub enum Name {
    Head,
    Body,
    Title,
    P,
    Div,
    Span,
    B,
    I,
    Em,
    Strong,
    H1,
    H2,
    H3,
    H4,
    Ul,
    Ol,
    Li,
    Code,
    Blockquote,
    Br,
    Hr,
    A,
    Img,
    Table,
    Tr,
    Th,
    Td,
    Form,
    Input,
}

impl Name {
    /// The name's letters.
    pub fn as_str(self) -> &'static str
        ensures { result.now ≡ name_bytes self }
    {
        match self {
            Name::Head => "head",
            Name::Body => "body",
            Name::Title => "title",
            Name::P => "p",
            Name::Div => "div",
            Name::Span => "span",
            Name::B => "b",
            Name::I => "i",
            Name::Em => "em",
            Name::Strong => "strong",
            Name::H1 => "h1",
            Name::H2 => "h2",
            Name::H3 => "h3",
            Name::H4 => "h4",
            Name::Ul => "ul",
            Name::Ol => "ol",
            Name::Li => "li",
            Name::Code => "code",
            Name::Blockquote => "blockquote",
            Name::Br => "br",
            Name::Hr => "hr",
            Name::A => "a",
            Name::Img => "img",
            Name::Table => "table",
            Name::Tr => "tr",
            Name::Th => "th",
            Name::Td => "td",
            Name::Form => "form",
            Name::Input => "input",
        }
    }

    /// Whether a tag of this name has neither content nor a closing tag: `br`, `hr`, `img` and `input`.
    pub fn is_void(self) -> bool
        ensures { result ≡ is_void_name self }
    {
        match self {
            Name::Br | Name::Hr | Name::Img | Name::Input => true,
            _ => false,
        }
    }
}
