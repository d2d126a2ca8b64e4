//! Whether names are in scope.
ghost use Rattle.std.specs.Prelude.{◌≡◌, ◌||◌, codes, map};
ghost use Rattle.std.specs.Str.{bytes_eq};
ghost use Rattle.core_terms.specs.Datatypes.{basis_datatypes};
ghost use Rattle.core_terms.specs.View.{foreign_view};
ghost use Rattle.source_names.specs.Standing as standing;
ghost use Rattle.unbound_names.specs.InScope as scope;
ghost use Rattle.unbound_names.specs.View.{around_view};

use crate::around::Around;
use crate::asked::same_text;
use crate::binders::is_binder;
use crate::declared::{has_builder, has_type, has_value};
use core_terms::{Foreigns, TypeName};
use plain_tree::Path;
use table_rows::Text;
use type_makers::{type_named, value_named};
use xml_trees::{AttrName, TagName};

/// Whether one of the values that every program has, but for `fold`, has a name.
fn is_listed_value(name: &str) -> bool
    ensures { result ≡ scope.is_value_of name.now scope.basis_values }
{
    match value_named(name) {
        Some(_) => true,
        None => false,
    }
}

/// Whether every program has a value of a name.
fn is_basis_value(name: &str) -> bool
    ensures { result ≡ scope.is_basis_value name.now }
{
    is_listed_value(name) || "fold" == name
}

/// Whether there is a foreign effect of a module's name and a name.
fn is_effect(home: &Text, name: &Text, effects: &Foreigns) -> bool
    ensures { result ≡ scope.is_some
        (standing.effect_in home.now name.now (map foreign_view effects.now.items.items)) }
{
    for i in 0..effects.items.len() {
        let effect = &effects.items[i];
        if same_text(&effect.module, home) && same_text(&effect.name, name) {
            return true;
        }
    }
    false
}

/// Whether a name that nothing declares stands for a value.
fn is_undeclared_value(path: &Path, effects: &Foreigns) -> bool
    ensures { result ≡ scope.is_there (standing.undeclared
        (scope.tables_with (map foreign_view effects.now.items.items)) path.now.modules path.now.name) }
{
    match path.modules.items.as_slice() {
        [] => is_basis_value(path.name.as_str()),
        [home] => is_effect(home, &path.name, effects),
        _ => false,
    }
}

/// Whether a binder gives a value this name.
fn is_bound_value(s: &Around<'_>, path: &Path) -> bool
    ensures { result ≡ scope.is_some
        (standing.binder_at path.now.modules path.now.name (around_view s.now).values) }
{
    is_binder(path, &s.values)
}

/// Whether a value is in scope.
pub fn value_in_scope(s: &Around<'_>, path: &Path) -> bool
    ensures { result ≡ scope.value_in_scope (around_view s.now) path.now }
{
    if is_bound_value(s, path) {
        return true;
    }
    if has_value(s.known, path) {
        return true;
    }
    is_undeclared_value(path, s.effects)
}

/// The type of a name that every program has.
fn basis_type(name: &str) -> Option<TypeName>
    ensures { result ≡ standing.type_called name.now standing.type_names }
{
    type_named(name)
}

/// Whether a name is that of what has many kinds.
fn is_folder_or_map(name: &str) -> bool
    ensures { result ≡ scope.is_type_there (standing.folder_or_map name.now) }
{
    if "folder" == name {
        return true;
    }
    if "map" == name {
        return true;
    }
    false
}

/// Whether a name that nothing declares stands for a constructor of the type level.
fn is_undeclared_type(path: &Path) -> bool
    ensures { result ≡ scope.is_type_there (standing.undeclared_type path.now.modules path.now.name) }
{
    match path.modules.items.as_slice() {
        [] => match basis_type(path.name.as_str()) {
            Some(_) => true,
            None => is_folder_or_map(path.name.as_str()),
        },
        _ => false,
    }
}

/// Whether a binder gives a constructor variable this name.
fn is_bound_type(s: &Around<'_>, path: &Path) -> bool
    ensures { result ≡ scope.is_some
        (standing.binder_at path.now.modules path.now.name (around_view s.now).variables) }
{
    is_binder(path, &s.variables)
}

/// Whether a name of the type level is in scope.
pub fn type_in_scope(s: &Around<'_>, path: &Path) -> bool
    ensures { result ≡ scope.type_in_scope (around_view s.now) path.now }
{
    if is_bound_type(s, path) {
        return true;
    }
    if has_type(s.known, path) {
        return true;
    }
    is_undeclared_type(path)
}

/// Whether every program has a constructor of a name.
fn is_basis_builder(name: &str) -> bool
    ensures { result ≡ scope.is_some (standing.basis_builder_in name.now basis_datatypes) }
{
    match name {
        "False" | "True" | "None" | "Some" | "Nil" | "Cons" => true,
        _ => false,
    }
}

/// Whether a name that nothing declares stands for a constructor of a datatype.
fn is_undeclared_builder(path: &Path) -> bool
    ensures { result ≡ scope.is_some (standing.undeclared_builder path.now.modules path.now.name) }
{
    match path.modules.items.as_slice() {
        [] => is_basis_builder(path.name.as_str()),
        _ => false,
    }
}

/// Whether a constructor of a datatype is in scope.
pub fn builder_in_scope(s: &Around<'_>, path: &Path) -> bool
    ensures { result ≡ scope.builder_in_scope (around_view s.now) path.now }
{
    has_builder(s.known, path) || is_undeclared_builder(path)
}

/// Whether there is a tag of a name.
pub fn is_tag(name: &Text) -> bool
    ensures { result ≡ scope.is_tag name.now }
{
    TagName::named(name.as_str()).is_some()
}

/// Whether there is an attribute with these letters.
fn is_listed_attribute(name: &str) -> bool
    ensures { result ≡ scope.is_attribute_of name.now scope.attributes }
{
    match AttrName::named(name) {
        Some(_) => true,
        None => false,
    }
}

/// Whether there is an attribute of a name.
pub fn is_attribute(name: &Text) -> bool
    ensures { result ≡ scope.is_attribute name.now }
{
    is_listed_attribute(name.as_str())
}
