//! The longest path that begins with an upper-case name.
ghost use Rattle.std.specs.Prelude.{◌≡◌, [], ◌∷◌, ◌++◌, IfOk};
ghost use Rattle.plain_tree.specs.ExpView.{exp_tree, form_tree, link_tree};
ghost use Rattle.desugar_values.specs.Meanings.{no_meaning};
ghost use Rattle.desugar_values.specs.View.{meaning_tree, meanings_tree};
ghost use Rattle.desugar_terms.specs.Paths.{and_links, finish, go_on, is_lower, is_lower_kind, is_upper, is_upper_kind, longest, names_tree, one_more, path_exp, path_form, reached_tree, text_of};

use crate::boxes::boxed_exp;
use crate::dots::{dot_of, with_links};
use desugar_values::{Meaning, Meanings, characters, word_of};
use plain_tree::{Exp, Form, Link, Modules, Path, Sigil};
use std::alloc::{AllocError, Global};
use surface_tree::Kind;
use table_rows::Text;

/// A path, whether it is the path of a value, and the projections behind it. Contracts see it as `names_tree`.
#[derive(Drop)]
pub struct Names {
    pub path: Path,
    pub is_value: bool,
    pub links: Vec<Link>,
}

/// A path as far as it has been read. Contracts see it as `reached_tree`.
#[derive(Drop)]
pub enum Reached {
    /// Upper-case names, which more may follow.
    Going(Modules, Text),
    /// The whole path and projections behind it, which more may follow.
    Ended(Names),
}

/// Whether a word of this kind is an upper-case name, where the name of a field stands.
fn is_upper_kind(kind: Kind) -> bool
    ensures { result ≡ is_upper_kind kind }
{
    match kind {
        Kind::Integer => false,
        Kind::LowerName => false,
        _ => true,
    }
}

/// Whether a word of this kind is a lower-case name.
fn is_lower_kind(kind: Kind) -> bool
    ensures { result ≡ is_lower_kind kind }
{
    match kind {
        Kind::LowerName => true,
        _ => false,
    }
}

/// Whether the name of a field is an upper-case name.
fn is_upper(name: &Meaning) -> bool
    ensures { result ≡ is_upper (meaning_tree name.now) }
{
    match name {
        Meaning::Word(token) => is_upper_kind(token.kind),
        _ => false,
    }
}

/// Whether the name of a field is a lower-case name.
fn is_lower(name: &Meaning) -> bool
    ensures { result ≡ is_lower (meaning_tree name.now) }
{
    match name {
        Meaning::Word(token) => is_lower_kind(token.kind),
        _ => false,
    }
}

/// The characters of a name.
fn text_of(alloc: Global, name: Meaning) -> Text
    ensures { result ≡ text_of (meaning_tree name) }
{
    characters(alloc, word_of(name).content)
}

/// Modules, with one more inside.
fn inside(modules: Modules, name: Text) -> Result<Modules, AllocError>
    ensures { IfOk result (λ made. made ≡ modules ++ name ∷ []) }
{
    let mut made = modules;
    made.push(name)?;
    Ok(made)
}

/// Upper-case names, with one more dot.
fn go_on(alloc: Global, modules: Modules, name: Text, dot: Meaning) -> Result<Reached, AllocError>
    ensures { IfOk result (λ reached. reached_tree reached ≡ go_on modules name (meaning_tree dot)) }
{
    let mut links = Vec::new(alloc);
    if is_upper(&dot) {
        return Ok(Reached::Going(inside(modules, name)?, text_of(alloc, dot)));
    }
    if is_lower(&dot) {
        let modules = inside(modules, name)?;
        let name = text_of(alloc, dot);
        return Ok(Reached::Ended(Names {
            path: Path { modules, name },
            is_value: true,
            links,
        }));
    }
    links.push(dot_of(alloc, dot))?;
    Ok(Reached::Ended(Names {
        path: Path { modules, name },
        is_value: false,
        links,
    }))
}

/// A whole path, with one more projection behind those that it has.
fn and_link(names: Names, link: Link) -> Result<Names, AllocError>
    ensures { IfOk result (λ made. names_tree made ≡ and_links (names_tree names) (link_tree link ∷ [])) }
{
    let Names {
        path,
        is_value,
        links,
    } = names;
    let mut links = links;
    links.push(link)?;
    Ok(Names {
        path,
        is_value,
        links,
    })
}

/// A path as far as it has been read, with one more dot.
fn one_more(alloc: Global, reached: Reached, dot: Meaning) -> Result<Reached, AllocError>
    ensures { IfOk result (λ more. reached_tree more ≡ one_more (reached_tree reached) (meaning_tree dot)) }
{
    match reached {
        Reached::Going(modules, name) => go_on(alloc, modules, name, dot),
        Reached::Ended(names) => Ok(Reached::Ended(and_link(names, dot_of(alloc, dot))?)),
    }
}

/// The path that has been read where no dot is left.
fn finish(alloc: Global, reached: Reached) -> Names
    ensures { names_tree result ≡ finish (reached_tree reached) no_meaning }
{
    match reached {
        Reached::Going(modules, name) => Names {
            path: Path { modules, name },
            is_value: false,
            links: Vec::new(alloc),
        },
        Reached::Ended(names) => names,
    }
}

/// The dots behind an upper-case name, as far as they are a path, and as projections.
#[tactic(auto, using(crate::proofs::LongestPaths::step_kept, crate::proofs::LongestPaths::finish_more))]
fn read_dots(alloc: Global, first: Text, dots: Meanings) -> Result<Reached, AllocError>
    ensures { IfOk result
        (λ reached. finish (reached_tree reached) no_meaning ≡ longest [] first (meanings_tree dots)) }
{
    let mut reached = Reached::Going(Modules::new(alloc), first);
    for dot in dots.into_list() {
        reached = one_more(alloc, reached, dot)?;
    }
    Ok(reached)
}

/// The longest path that begins with this upper-case name: further upper-case names behind dots, and then a lower-case
/// name, which is that of a value, or none. The dots that are no part of it are projections.
pub fn longest(alloc: Global, first: Text, dots: Meanings) -> Result<Names, AllocError>
    ensures { IfOk result (λ names. names_tree names ≡ longest [] first (meanings_tree dots)) }
{
    let reached = read_dots(alloc, first, dots)?;
    Ok(finish(alloc, reached))
}

/// The value, or the constructor of a datatype, that a path names.
fn path_form(sigil: Sigil, is_value: bool, path: Path) -> Form
    ensures { form_tree result ≡ path_form sigil is_value path }
{
    if is_value {
        Form::Name(sigil, path)
    } else {
        Form::Builder(sigil, path)
    }
}

/// The term at this byte that a path with projections behind it is.
pub fn path_exp(alloc: Global, at: u32, sigil: Sigil, names: Names) -> Result<Box<Exp>, AllocError>
    ensures { IfOk result (λ e. exp_tree e.value ≡ path_exp at sigil (names_tree names)) }
{
    let Names {
        path,
        is_value,
        links,
    } = names;
    let exp = boxed_exp(alloc, at, path_form(sigil, is_value, path))?;
    with_links(alloc, at, exp, links)
}
