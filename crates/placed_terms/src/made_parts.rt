//! What of a program's declaration is still to be listed. Its parts wait in a list, the first of them last, so that the
//! depth of terms takes no stack.
ghost use Rattle.std.specs.Prelude.{◌≡◌, ◌∷◌, List, OnOk};
ghost use Rattle.con_terms.specs.declared.place.Place.{Place};
ghost use Rattle.placed_terms.specs.Parts.{made_listed, made_then, then_all};

use con_terms::Place;
use core_terms::{Exp, Named, Pat};
use std::alloc::AllocError;

/// A part of a declaration, or a place in it.
#[derive(Clone, Copy)]
pub enum MadePart<'a> {
    At(Place),
    Term(&'a Exp),
    Pattern(&'a Pat),
    /// Names that are declared together.
    Names(&'a [Named]),
}

/// Puts a part before the others.
#[tactic(auto, using(crate::proofs::Listing::made_push))]
pub fn put<'a>(parts: &mut Vec<MadePart<'a>>, part: MadePart<'a>) -> Result<(), AllocError>
    ensures { OnOk result (made_listed parts.new.items ≡ made_then part.entry (made_listed parts.old.items)) }
{
    parts.push(part)?;
    Ok(())
}

/// Puts a place before all parts.
pub fn put_at(parts: &mut Vec<MadePart<'_>>, place: Place) -> Result<(), AllocError>
    ensures { OnOk result (made_listed parts.new.items ≡ place ∷ made_listed parts.old.items) }
{
    put(parts, MadePart::At(place))?;
    Ok(())
}

/// What stands in a list of a declaration's parts.
pub trait MadeItem {
    // its places, before those that follow
    ghost places: { Self → List Place → List Place };

    /// Puts its parts before the others.
    fn put_parts<'a>(&'a self, parts: &mut Vec<MadePart<'a>>) -> Result<(), AllocError>
        ensures { OnOk result (made_listed parts.new.items ≡ places self.now (made_listed parts.old.items)) };
}

/// Puts the parts of all that stands in a list before the others.
#[tactic(auto, using(crate::proofs::Listing::all_last))]
pub fn put_all<'a, X: MadeItem>(
    parts: &mut Vec<MadePart<'a>>,
    items: &'a [X],
) -> Result<(), AllocError>
    ensures { OnOk result
        (made_listed parts.new.items ≡ then_all X.places items.now (made_listed parts.old.items)) }
{
    let mut rest = items;
    while let Some((last, others)) = rest.split_last() {
        last.put_parts(parts)?;
        rest = others;
    }
    Ok(())
}
