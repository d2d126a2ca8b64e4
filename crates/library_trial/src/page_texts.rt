//! Pages and their texts, as a browser gets them: each kind of tag and attribute, sinks that fail, and the longest
//! pages.
ghost use Rattle.std.specs.Prelude.{◌≡◌, [], IfOk};
ghost use Rattle.xml_trees.specs.Trees.{Whole, Within, Nothing, built, built_and, ended, IsWhole, trees_of};

use page_bytes::{PageFault, page_length, write_page};
use std::alloc::{AllocError, Global};
use table_rows::Text;
use ur_outside::MemSink;
use xml_trees::{Attr, Attrs, Page, Tag, TagName};

/// An element that holds the trees of a page.
fn element(alloc: Global, tag: Tag, attrs: Attrs, inside: &Page) -> Result<Page, AllocError>
    requires { IsWhole (built inside.now) }
    ensures { IfOk result (λ page. IsWhole (built page)) }
{
    let mut page = Page::new(alloc);
    page.begin(tag, attrs)?;
    page.join(alloc, inside)?;
    page.end()?;
    Ok(page)
}

/// A page of one text.
fn words(alloc: Global, text: &str) -> Result<Page, AllocError>
    ensures { IfOk result (λ page. IsWhole (built page)) }
{
    let mut page = Page::new(alloc);
    page.words(alloc, &Text::of(alloc, text)?)?;
    Ok(page)
}

/// The text of a page, and the length that is told of it.
fn shown(alloc: Global, page: &Page) -> Result<(Vec<u8>, u64), AllocError>
    requires { IsWhole (built page.now) }
{
    let mut sink = MemSink::new(alloc, 65536, Vec::new(alloc));
    match write_page(page, &mut sink) {
        Ok(()) => Ok((sink.written().to_vec(alloc)?, page_length(page))),
        Err(PageFault::WriteFault) => Err(AllocError),
    }
}

/// The text of a page in which nothing stands.
pub fn empty_body(alloc: Global) -> Result<bool, AllocError> {
    let body = element(alloc, Tag::Body, Attrs::new(alloc), &Page::new(alloc))?;
    let (text, length) = shown(alloc, &body)?;
    Ok(text.as_slice() == b"<!DOCTYPE html><html><body></body></html>".as_slice() && length == 41)
}

/// Whether the text of a page is so, between those of `html`, and its length is told.
fn is_shown(alloc: Global, page: &Page, want: &str) -> Result<bool, AllocError>
    requires { IsWhole (built page.now) }
{
    let (text, length) = shown(alloc, page)?;
    let inner = text
        .as_slice()
        .strip_prefix(b"<!DOCTYPE html><html>".as_slice())
        .and_then(|rest| rest.strip_suffix(b"</html>".as_slice()));
    Ok(length == text.len() as u64 && inner.is_some_and(|inner| inner == want.as_bytes()))
}

/// An attribute with its value, or none.
#[derive(Clone, Copy)]
enum Given {
    Nothing,
    Title(&'static str),
    Link(&'static str),
    Href(&'static str),
    Src(&'static str),
    Alt(&'static str),
    Border(i64),
    Value(&'static str),
    Size(i64),
    Action(&'static str),
}

/// At most one attribute.
fn attribute(alloc: Global, given: Given) -> Result<Option<Attr>, AllocError> {
    Ok(match given {
        Given::Nothing => None,
        Given::Title(text) => Some(Attr::Title(Text::of(alloc, text)?)),
        Given::Link(text) => Some(Attr::Link(Text::of(alloc, text)?)),
        Given::Href(text) => Some(Attr::Href(Text::of(alloc, text)?)),
        Given::Src(text) => Some(Attr::Src(Text::of(alloc, text)?)),
        Given::Alt(text) => Some(Attr::Alt(Text::of(alloc, text)?)),
        Given::Border(width) => Some(Attr::Border(width)),
        Given::Value(text) => Some(Attr::Value(Text::of(alloc, text)?)),
        Given::Size(width) => Some(Attr::Size(width)),
        Given::Action(text) => Some(Attr::Action(Text::of(alloc, text)?)),
    })
}

/// A list of at most one attribute.
fn attributes(alloc: Global, given: Given) -> Result<Attrs, AllocError> {
    let mut attrs = Attrs::new(alloc);
    if let Some(attr) = attribute(alloc, given)? {
        attrs.push(attr)?;
    }
    Ok(attrs)
}

/// An element: the tag, the field that an input fills, the attribute, the text in it, and what it is written as.
type Case = (TagName, &'static str, Given, &'static str, &'static str);

/// Each kind of tag and attribute, with what has to be escaped.
const CASES: [Case; 15] = [
    (
        TagName::P,
        "",
        Given::Title("<b>&\""),
        "<b>&\"",
        "<p title=\"&lt;b&gt;&amp;&quot;\">&lt;b&gt;&amp;\"</p>",
    ),
    (
        TagName::H1,
        "",
        Given::Nothing,
        "\u{e4}\u{4e16} '&amp;'",
        "<h1>\u{e4}\u{4e16} '&amp;amp;'</h1>",
    ),
    (TagName::Br, "", Given::Nothing, "lost", "<br>"),
    (TagName::Hr, "", Given::Nothing, "", "<hr>"),
    (
        TagName::Img,
        "",
        Given::Src("/a.png?b&c"),
        "",
        "<img src=\"/a.png?b&amp;c\">",
    ),
    (TagName::Img, "", Given::Alt(""), "", "<img alt=\"\">"),
    (
        TagName::A,
        "",
        Given::Link("/Main/page/1"),
        "go",
        "<a href=\"/Main/page/1\">go</a>",
    ),
    (
        TagName::A,
        "",
        Given::Href("http://a.b/?c=1&d"),
        "",
        "<a href=\"http://a.b/?c=1&amp;d\"></a>",
    ),
    (
        TagName::Table,
        "",
        Given::Border(-1),
        "",
        "<table border=\"-1\"></table>",
    ),
    (
        TagName::Textbox,
        "a",
        Given::Size(i64::MIN),
        "",
        "<input type=\"text\" name=\"a\" size=\"-9223372036854775808\">",
    ),
    (
        TagName::Form,
        "",
        Given::Nothing,
        "",
        "<form method=\"post\"></form>",
    ),
    (
        TagName::Password,
        "p",
        Given::Value("x"),
        "",
        "<input type=\"password\" name=\"p\" value=\"x\">",
    ),
    (
        TagName::Hidden,
        "h",
        Given::Nothing,
        "",
        "<input type=\"hidden\" name=\"h\">",
    ),
    (
        TagName::Checkbox,
        "c'",
        Given::Nothing,
        "",
        "<input type=\"checkbox\" name=\"c'\">",
    ),
    (
        TagName::Submit,
        "",
        Given::Action("/Main/act"),
        "",
        "<input type=\"submit\" formaction=\"/Main/act\">",
    ),
];

/// Whether a case has its text.
fn is_written(alloc: Global, case: &Case) -> Result<bool, AllocError> {
    let (tag, field, given, inside, want) = *case;
    let inner = words(alloc, inside)?;
    let attrs = attributes(alloc, given)?;
    let page = element(alloc, tag.tag(Text::of(alloc, field)?), attrs, &inner)?;
    is_shown(alloc, &page, want)
}

/// Each case's text.
pub fn elements(alloc: Global) -> Result<bool, AllocError> {
    for case in &CASES {
        if !is_written(alloc, case)? {
            return Ok(false);
        }
    }
    Ok(true)
}

/// A page whose text is longer than what is gathered.
fn long_page(alloc: Global) -> Result<Page, AllocError>
    ensures { IfOk result (λ page. IsWhole (built page)) }
{
    let mut page = Page::new(alloc);
    for _ in 0..20_000 {
        page.words(alloc, &Text::of(alloc, "a")?)?;
    }
    Ok(page)
}

/// A sink that fails at its first call and one that fails at its second.
fn sinks_that_fail(alloc: Global, page: &Page) -> Result<bool, AllocError>
    requires { IsWhole (built page.now) }
{
    let mut first = MemSink::new(alloc, 65536, vec![in alloc; 0]?);
    let nothing = write_page(page, &mut first).is_err() && first.written().is_empty();
    let mut second = MemSink::new(alloc, 65536, vec![in alloc; 1]?);
    let front = write_page(page, &mut second).is_err()
        && second.written().starts_with(b"<!DOCTYPE html><html>aaaa");
    Ok(nothing && front)
}

/// A sink that takes nothing, and one that takes seven bytes in a call.
fn sinks_that_take_little(alloc: Global, page: &Page) -> bool
    requires { IsWhole (built page.now) }
{
    let mut stalling = MemSink::new(alloc, 0, Vec::new(alloc));
    let stalled = write_page(page, &mut stalling).is_err();
    let mut slow = MemSink::new(alloc, 7, Vec::new(alloc));
    stalled && write_page(page, &mut slow).is_ok() && slow.written().len() == 20_028
}

/// A long page to sinks that fail, take nothing or take little.
pub fn failing_sinks(alloc: Global) -> Result<bool, AllocError> {
    let page = long_page(alloc)?;
    Ok(
        sinks_that_fail(alloc, &page)?
            && sinks_that_take_little(alloc, &page)
            && page_length(&page) == 20_028,
    )
}

/// Pages at the length that a page may have, and past it: the length of their text, and what `page_length` tells.
const AT_THE_LIMIT: [(usize, u64); 3] = [
    (16_777_216, 16_777_216),
    (16_777_217, 16_777_217),
    (16_777_218, 16_777_217),
];

/// Pages of just the greatest length, and longer ones.
pub fn longest_pages(alloc: Global) -> Result<bool, AllocError> {
    for (length, told) in AT_THE_LIMIT {
        let frame = 28;
        let inside = "a".repeat(alloc, length.saturating_sub(frame))?;
        let (text, found) = shown(alloc, &words(alloc, inside.as_str())?)?;
        if text.len() != length || found != told {
            return Ok(false);
        }
    }
    Ok(true)
}
