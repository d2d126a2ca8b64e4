//! What of a source's declaration is still to be listed. Its parts wait in a list, the first of them last, so that the
//! depth of terms takes no stack.
ghost use Rattle.std.specs.Prelude.{◌≡◌, ◌∷◌, ℕ, List, OnOk};
ghost use Rattle.placed_terms.specs.Parts.{source_listed, source_then, then_all};

use plain_tree::{Exp, Named, Node, Pat};
use std::alloc::AllocError;

/// A part of a declaration, or the byte of a node.
#[derive(Clone, Copy)]
pub enum SourcePart<'a> {
    At(u32),
    Term(&'a Exp),
    Pattern(&'a Pat),
    /// Names that are declared together.
    Names(&'a [Named]),
    /// A node of a page.
    Node(&'a Node),
}

/// Puts a part before the others.
#[tactic(auto, using(crate::proofs::Listing::source_push))]
pub fn put<'a>(parts: &mut Vec<SourcePart<'a>>, part: SourcePart<'a>) -> Result<(), AllocError>
    ensures { OnOk result (source_listed parts.new.items ≡ source_then part.entry (source_listed parts.old.items)) }
{
    parts.push(part)?;
    Ok(())
}

/// Puts a byte before all parts.
pub fn put_at(parts: &mut Vec<SourcePart<'_>>, at: u32) -> Result<(), AllocError>
    ensures { OnOk result (source_listed parts.new.items ≡ at ∷ source_listed parts.old.items) }
{
    put(parts, SourcePart::At(at))?;
    Ok(())
}

/// What stands in a list of a declaration's parts.
pub trait SourceItem {
    // its bytes, before those that follow
    ghost bytes: { Self → List ℕ → List ℕ };

    /// Puts its parts before the others.
    fn put_parts<'a>(&'a self, parts: &mut Vec<SourcePart<'a>>) -> Result<(), AllocError>
        ensures { OnOk result (source_listed parts.new.items ≡ bytes self.now (source_listed parts.old.items)) };
}

/// Puts the parts of all that stands in a list before the others.
#[tactic(auto, using(crate::proofs::Listing::all_last))]
pub fn put_all<'a, X: SourceItem>(
    parts: &mut Vec<SourcePart<'a>>,
    items: &'a [X],
) -> Result<(), AllocError>
    ensures { OnOk result
        (source_listed parts.new.items ≡ then_all X.bytes items.now (source_listed parts.old.items)) }
{
    let mut rest = items;
    while let Some((last, others)) = rest.split_last() {
        last.put_parts(parts)?;
        rest = others;
    }
    Ok(())
}
