//! Numbers, texts, sigils and what sugar stands for.
ghost use Rattle.std.specs.Prelude.{◌≡◌, bytes_eq};
ghost use Rattle.std.specs.Ordering.{int_eq};
ghost use Rattle.source_terms.specs.Leaves as leaves;
ghost use Rattle.xml_trees.specs.SourceNames.{attribute_text, tag_text};

use core_terms::{AttrName, TagName};
use table_rows::Text;

/// The number that digits stand for, behind `-` where the flag is true. One of 2^63 or more wraps.
fn number_of(negative: bool, digits: u64) -> i64
    ensures { result ≡ leaves.number_of negative digits }
{
    let low = digits % 0x8000_0000_0000_0000;
    let value = low as i64;
    if negative { -value } else { value }
}

/// Whether a number is the one that digits stand for, behind `-` where the flag is true.
pub fn is_number(number: i64, negative: bool, digits: u64) -> bool
    ensures { result ≡ int_eq number (leaves.number_of negative digits) }
{
    number == number_of(negative, digits)
}

/// Whether two texts are one.
pub fn is_words(words: &Text, text: &Text) -> bool
    ensures { result ≡ bytes_eq words.now text.now }
{
    words.as_str() == text.as_str()
}

/// Whether a tag has this name.
pub fn is_tag(tag: TagName, text: &Text) -> bool
    ensures { result ≡ bytes_eq (tag_text tag) text.now }
{
    tag.as_str() == text.as_str()
}

/// Whether an attribute has this name.
pub fn is_attribute_name(name: AttrName, text: &Text) -> bool
    ensures { result ≡ bytes_eq (attribute_text name) text.now }
{
    name.as_str() == text.as_str()
}

/// Whether a sigil before a head is the one that is written.
pub fn is_sigil(written: plain_tree::Sigil, sigil: core_terms::Sigil) -> bool
    ensures { result ≡ leaves.is_sigil written sigil }
{
    match written {
        plain_tree::Sigil::Nothing => matches!(sigil, core_terms::Sigil::Plain),
        plain_tree::Sigil::At => matches!(sigil, core_terms::Sigil::At),
        plain_tree::Sigil::AtAt => matches!(sigil, core_terms::Sigil::AtAt),
    }
}
