//! The values of an interface.
ghost use Rattle.std.specs.Prelude.{◌≡◌, map, IfOk};
ghost use Rattle.plain_tree.specs.View.{interface_view, signed_tree};
ghost use Rattle.desugar_values.specs.View.{meaning_tree, meanings_tree};
ghost use Rattle.desugar_terms.specs.Signed.{signed_of, signeds_of};

use desugar_values::{Meaning, Meanings, group_of};
use plain_tree::{Interface, Signed};
use std::alloc::{AllocError, Global};

/// `InterfaceItem = "val" lower ":" Con`
pub fn signed_of(alloc: Global, meaning: Meaning) -> Signed
    ensures { signed_tree result ≡ signed_of (meaning_tree meaning) }
{
    let mut parts = group_of(alloc, meaning);
    let word = parts.token();
    let name = parts.name(alloc);
    parts.skip();
    let con = parts.con();
    Signed {
        at: word.at,
        name,
        con,
    }
}

/// Values of an interface, in order.
fn items_of(alloc: Global, several: Meanings) -> Result<Vec<Signed>, AllocError>
    ensures { IfOk result (λ all. map signed_tree all.items ≡ signeds_of (meanings_tree several)) }
{
    let mut items = Vec::new(alloc);
    for part in several.into_list() {
        items.push(signed_of(alloc, part))?;
    }
    Ok(items)
}

/// The values of an interface.
pub fn signeds_of(alloc: Global, several: Meanings) -> Result<Interface, AllocError>
    ensures { IfOk result (λ i. interface_view i ≡ signeds_of (meanings_tree several)) }
{
    let items = items_of(alloc, several)?;
    Ok(Interface { items })
}
