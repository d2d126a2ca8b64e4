//! Pages that are built piece by piece.
ghost use Rattle.xml_trees.specs.Trees.{built, IsWhole};

use std::alloc::{AllocError, Global};
use table_rows::Text;
use xml_trees::{Attr, AttrName, Attrs, Name, Page, Piece, Tag, TagName};

/// Begins an element, says a word in it, and ends it.
fn say(alloc: Global, page: &mut Page, tag: Tag, word: &str) -> Result<(), AllocError> {
    page.begin(tag, Attrs::new(alloc))?;
    page.words(alloc, &Text::of(alloc, word)?)?;
    page.end()
}

/// The names of a page's pieces.
pub fn pieces_in_order(alloc: Global) -> Result<bool, AllocError> {
    let mut page = Page::new(alloc);
    say(alloc, &mut page, Tag::Em, "a")?;
    let names = page.pieces().iter().filter_map(|piece| match piece {
        Piece::Begin(tag, _) => Some(tag.name()),
        Piece::Words(_) => None,
        Piece::End(name) => Some(*name),
    });
    Ok(names.eq([Name::Em, Name::Em]) && page.is_whole())
}

/// A page that has begun a body with two attributes.
fn body(alloc: Global) -> Result<Page, AllocError> {
    let mut attrs = Attrs::new(alloc);
    attrs.push(Attr::Title(Text::of(alloc, "t")?))?;
    attrs.push(Attr::Border(3))?;
    let mut page = Page::new(alloc);
    page.begin(Tag::Body, attrs)?;
    Ok(page)
}

/// How many pieces a page has when a whole one is joined to it; one that isn't whole is left out.
fn joined(alloc: Global, page: &mut Page, inner: &Page) -> Result<usize, AllocError> {
    if inner.is_whole() {
        page.join(alloc, inner)?;
    }
    Ok(page.pieces().len())
}

/// Whether the copy of an input is one.
fn is_copied(alloc: Global, field: &str) -> Result<bool, AllocError> {
    let name = Tag::Hidden(Text::of(alloc, field)?).copy(alloc)?.name();
    Ok(name == Name::Input && name.is_void())
}

/// A page in another, and a copy of a tag.
pub fn joins(alloc: Global) -> Result<bool, AllocError> {
    let mut inner = Page::new(alloc);
    say(alloc, &mut inner, Tag::Textbox(Text::of(alloc, "f")?), "a")?;
    let mut page = body(alloc)?;
    let is_open = !page.is_whole();
    Ok(is_open && joined(alloc, &mut page, &inner)? == 4 && is_copied(alloc, "f")?)
}

/// Names in sources, each with the name of the simple tag that it stands for, if any.
const SIMPLE: [(&str, &str); 11] = [
    ("h5", "none"),
    ("P", "none"),
    ("", "none"),
    ("body", "none"),
    ("head", "none"),
    ("form", "none"),
    ("input", "none"),
    ("a", "none"),
    ("brr", "none"),
    ("blockquote", "blockquote"),
    ("h4", "h4"),
];

/// The name of a simple tag, if it is one.
fn simple_name(name: &str) -> &'static str {
    match Tag::simple(name) {
        Some(tag) => tag.name().as_str(),
        None => "none",
    }
}

/// Names in sources that are there, and names that are none.
fn names_in_sources() -> bool {
    TagName::named("checkbox") == Some(TagName::Checkbox)
        && TagName::named("input").is_none()
        && AttrName::named("method").is_none()
}

/// The name that a textbox for this field is written with.
fn textbox_name(field: Text) -> &'static str {
    TagName::Textbox.tag(field).name().as_str()
}

/// The name of a border of this width.
fn border_name(width: i64) -> &'static str {
    match AttrName::Border.with_number(width) {
        Some(attr) => attr.name().as_str(),
        None => "none",
    }
}

/// Names in sources of tags and attributes, and names that are none.
pub fn simple_tags(alloc: Global) -> Result<bool, AllocError> {
    for (name, simple) in SIMPLE {
        if simple_name(name) != simple {
            return Ok(false);
        }
    }
    let textbox = textbox_name(Text::of(alloc, "f")?);
    Ok(names_in_sources() && textbox == "input" && border_name(3) == "border")
}
