//! What a page's text is put together from: fixed words, texts that are escaped, and numbers.
ghost use Rattle.std.specs.Prelude.{◌≡◌, ◌++◌, codes, MatchOption};
ghost use Rattle.std.specs.List.{flat_map};
ghost use Rattle.xml_trees.specs.Names.{name_bytes};
ghost use Rattle.xml_trees.specs.Tags.{name_of};
ghost use Rattle.xml_trees.specs.Written.{attribute_of, own_attributes};
ghost use Rattle.xml_trees.specs.PieceText.{attribute_bytes, end_bytes, quote};
ghost use Rattle.page_bytes.specs.Chunks.{chunk_bytes};

use table_rows::Text;
use xml_trees::{Attr, Name, Tag};

/// A part of a page's text.
#[derive(Clone, Copy)]
pub enum Chunk<'a> {
    /// Words that stand as they are.
    Fixed(&'a str),
    /// A text between tags.
    Words(&'a Text),
    /// An attribute's text.
    Value(&'a Text),
    /// An attribute's number, in decimal.
    Number(i64),
}

/// The front of a tag, up to the attributes that it is given.
pub fn tag_front(tag: &Tag) -> [Chunk<'_>; 5]
    ensures { flat_map chunk_bytes result
        ≡ codes "<" ++ (name_bytes (name_of tag.now) ++ flat_map attribute_bytes (own_attributes tag.now)) }
{
    match tag {
        Tag::Textbox(field) => input(" type=\"text\" name=\"", field),
        Tag::Password(field) => input(" type=\"password\" name=\"", field),
        Tag::Hidden(field) => input(" type=\"hidden\" name=\"", field),
        Tag::Checkbox(field) => input(" type=\"checkbox\" name=\"", field),
        Tag::Submit => plain("input", " type=\"submit\""),
        Tag::Form => plain("form", " method=\"post\""),
        _ => plain(tag.name().as_str(), ""),
    }
}

/// The front of an input that holds the name of its field.
fn input<'a>(front: &'static str, field: &'a Text) -> [Chunk<'a>; 5]
    ensures { flat_map chunk_bytes result ≡ codes "<input" ++ (front.now ++ (flat_map quote field.now ++ codes "\"")) }
{
    [
        Chunk::Fixed("<"),
        Chunk::Fixed("input"),
        Chunk::Fixed(front),
        Chunk::Value(field),
        Chunk::Fixed("\""),
    ]
}

/// The front of a tag with these words behind its name.
fn plain<'a>(name: &'static str, words: &'static str) -> [Chunk<'a>; 5]
    ensures { flat_map chunk_bytes result ≡ codes "<" ++ (name.now ++ words.now) }
{
    [
        Chunk::Fixed("<"),
        Chunk::Fixed(name),
        Chunk::Fixed(words),
        Chunk::Fixed(""),
        Chunk::Fixed(""),
    ]
}

/// An attribute, with the space before it.
pub fn attribute(attr: &Attr) -> [Chunk<'_>; 3]
    ensures { flat_map chunk_bytes result ≡ attribute_bytes (attribute_of attr.now) }
{
    let quote = Chunk::Fixed("\"");
    match attr {
        Attr::Title(text) => [Chunk::Fixed(" title=\""), Chunk::Value(text), quote],
        Attr::Link(text) => [Chunk::Fixed(" href=\""), Chunk::Value(text), quote],
        Attr::Href(text) => [Chunk::Fixed(" href=\""), Chunk::Value(text), quote],
        Attr::Src(text) => [Chunk::Fixed(" src=\""), Chunk::Value(text), quote],
        Attr::Alt(text) => [Chunk::Fixed(" alt=\""), Chunk::Value(text), quote],
        Attr::Border(number) => [Chunk::Fixed(" border=\""), Chunk::Number(*number), quote],
        Attr::Value(text) => [Chunk::Fixed(" value=\""), Chunk::Value(text), quote],
        Attr::Size(number) => [Chunk::Fixed(" size=\""), Chunk::Number(*number), quote],
        Attr::Action(text) => [Chunk::Fixed(" formaction=\""), Chunk::Value(text), quote],
    }
}

/// A closing tag.
pub fn closing_tag(name: Name) -> [Chunk<'static>; 3]
    ensures { flat_map chunk_bytes result ≡ end_bytes name }
{
    [
        Chunk::Fixed("</"),
        Chunk::Fixed(name.as_str()),
        Chunk::Fixed(">"),
    ]
}
