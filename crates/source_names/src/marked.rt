//! What modules declare, with marks: numbers by which most names differ.
ghost use Rattle.std.specs.Prelude.{◌≡◌, ◌==◌, ◌&&◌};
ghost use Rattle.std.specs.Str.{bytes_eq};
ghost use Rattle.source_names.specs.Marks as marks;

use crate::texts::same_text;
use con_terms::{Con, Sym};
use table_rows::Text;

/// A value that a module declares: the number of the module, and the name with its mark.
#[derive(Drop)]
pub struct KnownValue {
    pub home: usize,
    pub mark: u64,
    pub name: Text,
    ghost marked: { mark ≡ marks.mark_of name },
}

/// A name of the type level that a module declares, and what it means.
#[derive(Drop)]
pub struct KnownType {
    pub home: usize,
    pub mark: u64,
    pub name: Text,
    pub means: Con,
    ghost marked: { mark ≡ marks.mark_of name },
}

/// A constructor of a datatype that a module declares: the datatype's symbol, and its place in it.
#[derive(Drop)]
pub struct KnownBuilder {
    pub home: usize,
    pub mark: u64,
    pub name: Text,
    pub datatype: Sym,
    pub index: u32,
    ghost marked: { mark ≡ marks.mark_of name },
}

/// The mark of a text.
pub(crate) fn mark_of(text: &Text) -> u64
    ensures { result ≡ marks.mark_of text.now }
{
    mark_of_bytes(text.as_bytes())
}

/// The mark of the text of these bytes.
fn mark_of_bytes(bytes: &[u8]) -> u64
    ensures { result ≡ marks.mark_of bytes.now }
{
    let mut mark = 0;
    let mut left = bytes.len();
    while left > 0 {
        left -= 1;
        mark = (bytes[left] as u64 + 31 * mark) % 4_294_967_296;
    }
    mark
}

/// Whether a value is the one of a name with this mark in a module. Most values have another mark, and their names
/// aren't compared.
pub(crate) fn is_value(value: &KnownValue, home: usize, mark: u64, name: &Text) -> bool
    requires { mark ≡ marks.mark_of name.now }
    ensures { result ≡ (value.now.home == home && bytes_eq value.now.name name.now) }
{
    value.mark == mark && value.home == home && same_text(&value.name, name)
}

/// Whether a name of the type level is the one of a name with this mark in a module.
pub(crate) fn is_type(known: &KnownType, home: usize, mark: u64, name: &Text) -> bool
    requires { mark ≡ marks.mark_of name.now }
    ensures { result ≡ (known.now.home == home && bytes_eq known.now.name name.now) }
{
    known.mark == mark && known.home == home && same_text(&known.name, name)
}

/// Whether a constructor is the one of a name with this mark in a module.
pub(crate) fn is_builder(known: &KnownBuilder, home: usize, mark: u64, name: &Text) -> bool
    requires { mark ≡ marks.mark_of name.now }
    ensures { result ≡ (known.now.home == home && bytes_eq known.now.name name.now) }
{
    known.mark == mark && known.home == home && same_text(&known.name, name)
}
