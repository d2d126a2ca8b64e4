//! The names that the main module exports.
ghost use Rattle.std.specs.Prelude.{◌≡◌, ℕ, IfOk};
ghost use Rattle.surface_grammar.specs.Listings.{Lists};
ghost use Rattle.surface_grammar.specs.Refusals.{Whole};
ghost use Rattle.surface_grammar.specs.Trees.{Node};
ghost use Rattle.ur_parser.specs.Sources.{interface_part};
ghost use Rattle.plain_tree.specs.View.{interface_view};
ghost use Rattle.desugar.specs.Plain.{interface_of};
ghost use Rattle.plain_projects.specs.Listed.{AreExported, AreSigned};
ghost use Rattle.plain_projects.specs.Said.{names_signed};

use desugar::plain_interface;
use plain_tree::Interface;
use project_sources::ModuleSource;
use std::alloc::{AllocError, Global};
use surface_grammar::Tree;
use table_rows::Texts;

/// The names of an interface.
fn names_in(alloc: Global, interface: &Interface) -> Result<Texts, AllocError>
    ensures { IfOk result (λ names. names ≡ names_signed (interface_view interface.now)) }
{
    let mut names = Texts::new(alloc);
    for signed in interface.items.as_slice() {
        let name = signed.name.text.copy(alloc)?;
        names.push(name)?;
    }
    Ok(names)
}

/// The names of an interface's tree.
fn signed_by(alloc: Global, tree: &Tree) -> Result<Texts, AllocError>
    ensures { IfOk result (λ names. (room : ℕ) (n : Node)
        → Lists tree.now n → Whole room interface_part n → names ≡ names_signed (interface_of n)) }
{
    let interface = plain_interface(alloc, tree)?;
    Ok(names_in(alloc, &interface)?)
}

/// The names of an interface, where there is one.
fn exported_by(alloc: Global, main: &ModuleSource) -> Result<Option<Texts>, AllocError>
    ensures { IfOk result (AreSigned main.now.interface) }
{
    match &main.interface {
        Some(tree) => Ok(Some(signed_by(alloc, tree)?)),
        None => Ok(None),
    }
}

/// The names that the interface of the last module has, where it has one.
pub fn exported_of(alloc: Global, modules: &[ModuleSource]) -> Result<Option<Texts>, AllocError>
    ensures { IfOk result (AreExported modules.now) }
{
    match modules.split_last() {
        Some((last, _before)) => Ok(exported_by(alloc, last)?),
        None => Ok(None),
    }
}
