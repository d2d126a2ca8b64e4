//! The types of top-level values, and whether some are types of instances.
ghost use Rattle.std.specs.Prelude.{◌≡◌, ◌∷◌, ◌++◌, [], true, IfOk, map};
ghost use Rattle.con_terms.specs.View.{con_tree};
ghost use Rattle.inserted_terms.specs.Values.{are_plain, type_of_value};
ghost use Rattle.std.proofs.Props.{props};

use crate::values::{TypedValue, typed_value};
use con_terms::Con;
use std::alloc::{AllocError, Global};

/// The top-level values by their numbers, and whether it is known that none is an instance.
#[derive(Drop)]
pub struct Tops {
    pub values: Vec<TypedValue>,
    pub plain: bool,
    ghost none: { plain ≡ true → are_plain values.items ≡ true } by { Prim.hlevel props },
}

/// No values.
pub fn no_tops(alloc: Global) -> Tops
    ensures { map type_of_value result.values.items ≡ [] }
{
    Tops {
        values: Vec::new(alloc),
        plain: true,
    }
}

/// The values with one more.
#[tactic(auto, using(crate::proofs::Plain::none_more))]
pub fn with_top(alloc: Global, tops: Tops, t: &Con) -> Result<Tops, AllocError>
    ensures { IfOk result (λ r. map type_of_value r.values.items
        ≡ map type_of_value tops.values.items ++ con_tree t.now ∷ []) }
{
    let Tops { mut values, plain } = tops;
    let value = typed_value(alloc, t)?;
    let plain = plain && value.form.is_none();
    values.push(value)?;
    Ok(Tops { values, plain })
}
