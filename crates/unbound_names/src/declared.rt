//! Names that modules declare.
ghost use Rattle.std.specs.Prelude.{◌≡◌, ◌-◌, ◌≤◌, ◌&&◌, nat_le, length, map, reverse, take, if◌then◌else◌};
ghost use Rattle.std.specs.Str.{bytes_eq};
ghost use Rattle.source_names.specs.Scopes as scopes;
ghost use Rattle.source_names.specs.Standing as standing;
ghost use Rattle.source_names.specs.View.{declared_view};
ghost use Rattle.unbound_names.specs.InScope.{is_some};

use crate::asked::same_text;
use plain_tree::Path;
use source_names::Known;
use table_rows::Text;

/// A letter, or its capital where it is a small one.
fn capital_letter(letter: u8) -> u8
    ensures { result ≡ (if nat_le 97 letter && nat_le letter 122 then letter - 32 else letter) }
{
    if 97 <= letter && letter <= 122 {
        letter - 32
    } else {
        letter
    }
}

/// Whether a text is a name with its first letter a capital.
fn is_capital_of(text: &Text, name: &Text) -> bool
    ensures { result ≡ bytes_eq (scopes.capital name.now) text.now }
{
    if text.len() != name.len() {
        return false;
    }
    is_capital(name.as_bytes(), text.as_bytes())
}

/// The same for the bytes of both.
fn is_capital(name: &[u8], text: &[u8]) -> bool
    ensures { result ≡ bytes_eq (scopes.capital name.now) text.now }
{
    match name {
        [] => text.is_empty(),
        [letter, rest @ ..] => match text {
            [] => false,
            [first, others @ ..] => capital_letter(*letter) == *first && rest == others,
        },
    }
}

/// The number of the first module of a name, among the first so many.
fn module_named(known: &Known, name: &Text, count: usize) -> Option<usize>
    requires { count ≤ length known.now.modules.items }
    ensures { result ≡ standing.module_named name.now
        (reverse (map scopes.capital (take count known.now.modules.items))) }
{
    let mut found = None;
    let mut left = count;
    while left > 0 {
        left -= 1;
        if is_capital_of(name, &known.modules[left]) {
            found = Some(left);
        }
    }
    found
}

/// The number of the module that a path leads to.
fn home_of(known: &Known, path: &Path) -> Option<usize>
    ensures { result ≡ standing.home_of path.now.modules (declared_view known.now).modules }
{
    let count = known.modules.len();
    if count == 0 {
        return None;
    }
    match path.modules.items.as_slice() {
        [] => Some(count - 1),
        [home] => module_named(known, home, count - 1),
        _ => None,
    }
}

/// Whether a module declares a value of a name.
fn has_value_in(known: &Known, name: &Text, home: usize) -> bool
    ensures { result ≡ is_some (standing.value_in name.now (declared_view known.now).values home) }
{
    let mut left = known.values.len();
    while left > 0 {
        left -= 1;
        let value = &known.values[left];
        if value.home == home && same_text(&value.name, name) {
            return true;
        }
    }
    false
}

/// Whether a path leads to a value.
pub fn has_value(known: &Known, path: &Path) -> bool
    ensures { result ≡ is_some (standing.in_home (standing.home_of path.now.modules (declared_view known.now).modules)
        (standing.value_in path.now.name (declared_view known.now).values)) }
{
    match home_of(known, path) {
        None => false,
        Some(home) => has_value_in(known, &path.name, home),
    }
}

/// Whether a module declares a name of the type level.
fn has_type_in(known: &Known, name: &Text, home: usize) -> bool
    ensures { result ≡ is_some (standing.type_in name.now (declared_view known.now).types home) }
{
    let mut left = known.types.len();
    while left > 0 {
        left -= 1;
        let named = &known.types[left];
        if named.home == home && same_text(&named.name, name) {
            return true;
        }
    }
    false
}

/// Whether a path leads to a name of the type level.
pub fn has_type(known: &Known, path: &Path) -> bool
    ensures { result ≡ is_some (standing.in_home (standing.home_of path.now.modules (declared_view known.now).modules)
        (standing.type_in path.now.name (declared_view known.now).types)) }
{
    match home_of(known, path) {
        None => false,
        Some(home) => has_type_in(known, &path.name, home),
    }
}

/// Whether a module declares a constructor of a datatype of a name.
fn has_builder_in(known: &Known, name: &Text, home: usize) -> bool
    ensures { result ≡ is_some (standing.builder_in name.now (declared_view known.now).builders home) }
{
    let mut left = known.builders.len();
    while left > 0 {
        left -= 1;
        let builder = &known.builders[left];
        if builder.home == home && same_text(&builder.name, name) {
            return true;
        }
    }
    false
}

/// Whether a path leads to a constructor of a datatype.
pub fn has_builder(known: &Known, path: &Path) -> bool
    ensures { result ≡ is_some (standing.in_home (standing.home_of path.now.modules (declared_view known.now).modules)
        (standing.builder_in path.now.name (declared_view known.now).builders)) }
{
    match home_of(known, path) {
        None => false,
        Some(home) => has_builder_in(known, &path.name, home),
    }
}
