//! Instances: the values in scope whose types have a wanted normal form.
use crate::known::{KnownValue, ValueName};
use crate::scope::Scope;
use con_terms::{Con, Kind};
use core_terms::BasisName;
use kind_rules::comparison_fuel;
use row_normal::normal::{normal, same};
use row_normal::{Normal, NormalFault};
use std::alloc::{AllocError, Global};
use type_makers::basis_type;

/// The instances that every program has.
const BASIS: [BasisName; 13] = [
    BasisName::NumInt,
    BasisName::ShowInt,
    BasisName::ShowString,
    BasisName::ShowBool,
    BasisName::EqInt,
    BasisName::EqString,
    BasisName::EqBool,
    BasisName::OrdInt,
    BasisName::OrdString,
    BasisName::OrdBool,
    BasisName::SqlInt,
    BasisName::SqlString,
    BasisName::SqlBool,
];

/// The normal form of a type; none where it is too large for a comparison.
fn normal_type(alloc: Global, c: &Con) -> Result<Option<Normal>, AllocError> {
    let mut fuel = comparison_fuel();
    match normal(alloc, c, &Kind::Types, &mut fuel) {
        Ok(form) => Ok(Some(form)),
        Err(NormalFault::TooLarge) => Ok(None),
        Err(NormalFault::Memory) => Err(AllocError),
    }
}

/// Whether a type has this normal form.
fn has_form(alloc: Global, c: &Con, wanted: &Normal) -> Result<bool, AllocError> {
    match normal_type(alloc, c)? {
        Some(form) => Ok(same(&form, wanted)),
        None => Ok(false),
    }
}

impl Scope {
    /// The value in scope that has a type of this normal form: of the values that binders give the
    /// innermost, else of those at the top the one declared last, else one of the basis. A value that
    /// another of its name hides doesn't count, but those of the basis are never hidden.
    pub fn instance(&self, alloc: Global, wanted: &Con) -> Result<Option<KnownValue>, AllocError> {
        let Some(wanted) = normal_type(alloc, wanted)? else {
            return Ok(None);
        };
        match self.local_instance(alloc, &wanted)? {
            Some(known) => Ok(Some(known)),
            None => match self.top_instance(alloc, &wanted)? {
                Some(known) => Ok(Some(known)),
                None => self.basis_instance(alloc, &wanted),
            },
        }
    }

    /// The innermost value of a binder that has a type of this normal form.
    fn local_instance(
        &self,
        alloc: Global,
        wanted: &Normal,
    ) -> Result<Option<KnownValue>, AllocError> {
        let locals = self.layers.candidates(alloc)?;
        for i in 0..locals.len() {
            let local = &locals[i];
            if has_form(alloc, &local.con, wanted)? {
                let seen = self.layers.value(alloc, local.called.as_str())?;
                if let Some(known) = seen
                    && known.name == local.name
                {
                    return Ok(Some(known));
                }
            }
        }
        Ok(None)
    }

    /// The last value at the top that has a type of this normal form.
    fn top_instance(
        &self,
        alloc: Global,
        wanted: &Normal,
    ) -> Result<Option<KnownValue>, AllocError> {
        let candidates = self.tops.candidates();
        let count = candidates.len();
        for i in 0..count {
            let number = candidates[count - 1 - i];
            if self.is_in_scope(alloc, number)? {
                match self.top(alloc, number)? {
                    None => {}
                    Some(known) => {
                        if has_form(alloc, &known.con, wanted)? {
                            return Ok(Some(known));
                        }
                    }
                }
            }
        }
        Ok(None)
    }

    /// Whether a value at the top is what its name stands for here.
    fn is_in_scope(&self, alloc: Global, number: u32) -> Result<bool, AllocError> {
        if !self.tops.is_last_of_its_name(number) {
            return Ok(false);
        }
        match self.tops.values.get(number as usize) {
            None => Ok(false),
            Some(value) => {
                if !self.tops.is_own(value) {
                    return Ok(true);
                }
                let hides = self.layers.value(alloc, value.name.as_str())?;
                Ok(hides.is_none())
            }
        }
    }

    /// The value of the basis that has a type of this normal form.
    fn basis_instance(
        &self,
        alloc: Global,
        wanted: &Normal,
    ) -> Result<Option<KnownValue>, AllocError> {
        for name in BASIS {
            let con = basis_type(alloc, name)?;
            if has_form(alloc, &con, wanted)? {
                return Ok(Some(KnownValue {
                    name: ValueName::Basis(name),
                    con,
                }));
            }
        }
        Ok(None)
    }
}
