//! Modules and interfaces without sugar.
ghost use Rattle.std.specs.Prelude.{◌≡◌, ℕ, IfOk};
ghost use Rattle.surface_grammar.specs.declared.form.Form.TheVariants as form;
ghost use Rattle.surface_grammar.specs.declared.part.Part.TheVariants as part;
ghost use Rattle.surface_grammar.specs.Listings.{Lists};
ghost use Rattle.surface_grammar.specs.Refusals.{Whole};
ghost use Rattle.surface_grammar.specs.Trees.{Node};
ghost use Rattle.plain_tree.specs.View.{interface_view, plain_view};
ghost use Rattle.desugar.specs.Plain.{interface_of, plain_of};

use crate::reading::read;
use desugar_terms::{decls_of, signeds_of};
use plain_tree::{Interface, Plain};
use std::alloc::{AllocError, Global};
use surface_grammar::Tree;

/// The tree without sugar of a module's concrete tree, as `ur_parser::parse` gives it.
pub fn plain(alloc: Global, t: &Tree) -> Result<Plain, AllocError>
    ensures { IfOk result (λ p. (room : ℕ) (n : Node)
        → Lists t.now n → Whole room (part.Many form.Decl) n → plain_view p ≡ plain_of n) }
{
    let mut stack = read(alloc, t)?;
    let trees = stack.repeated(alloc)?;
    let decls = decls_of(alloc, trees)?;
    Ok(Plain { decls })
}

/// The tree without sugar of an interface's concrete tree, as `ur_parser::parse_interface` gives it.
pub fn plain_interface(alloc: Global, t: &Tree) -> Result<Interface, AllocError>
    ensures { IfOk result (λ i. (room : ℕ) (n : Node)
        → Lists t.now n → Whole room (part.Many form.InterfaceItem) n → interface_view i ≡ interface_of n) }
{
    let mut stack = read(alloc, t)?;
    let trees = stack.repeated(alloc)?;
    Ok(signeds_of(alloc, trees)?)
}
