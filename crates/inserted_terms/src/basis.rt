//! The instances that every program has.
ghost use Rattle.std.specs.Prelude.{◌≡◌, IfOk, map};
ghost use Rattle.inserted_terms.specs.Forms as forms;
ghost use Rattle.inserted_terms.specs.Values.{name_of};

use crate::values::{BasisValue, basis_value};
use core_terms::BasisName;
use std::alloc::{AllocError, Global};

/// The instances that every program has, in the order in which they are looked at.
const INSTANCES: [BasisName; 13] = [
    BasisName::NumInt,
    BasisName::ShowInt,
    BasisName::ShowString,
    BasisName::ShowBool,
    BasisName::EqInt,
    BasisName::EqString,
    BasisName::EqBool,
    BasisName::OrdInt,
    BasisName::OrdString,
    BasisName::OrdBool,
    BasisName::SqlInt,
    BasisName::SqlString,
    BasisName::SqlBool,
];

/// Values of the basis with these names.
fn values_of(alloc: Global, names: &[BasisName]) -> Result<Vec<BasisValue>, AllocError>
    ensures { IfOk result (λ vs. map name_of vs.items ≡ names.now) }
{
    let mut values = Vec::new(alloc);
    for i in 0..names.len() {
        values.push(basis_value(alloc, names[i])?)?;
    }
    Ok(values)
}

/// The instances that every program has.
pub fn basis_values(alloc: Global) -> Result<Vec<BasisValue>, AllocError>
    ensures { IfOk result (λ vs. map name_of vs.items ≡ forms.instance_names) }
{
    values_of(alloc, &INSTANCES)
}
