//! Values with their types, and what these are as types of instances.
ghost use Rattle.std.specs.Prelude.{◌≡◌, true, IfOk};
ghost use Rattle.con_terms.specs.View.{con_tree};
ghost use Rattle.core_terms.specs.Basis.{basis_type as basis_type_of};
ghost use Rattle.core_terms.specs.View.{maybe_con};
ghost use Rattle.guided_terms.specs.Implied as implied;
ghost use Rattle.inserted_terms.specs.Forms as forms;

use con_terms::{Con, Sym, copy_con};
use core_terms::BasisName;
use judgements::normal_of;
use std::alloc::{AllocError, Global};
use type_makers::{basis_type, symbols};

/// A value's type, and the normal form of that where it is a class at a type.
#[derive(Drop)]
pub struct TypedValue {
    pub con: Con,
    pub form: Option<Con>,
    ghost formed: { forms.is_form_of (maybe_con form) (con_tree con) ≡ true },
}

/// An instance that every program has, and the normal form of its type where it is a class at a type.
#[derive(Drop)]
pub struct BasisValue {
    pub name: BasisName,
    pub form: Option<Con>,
    ghost formed: { forms.is_form_of (maybe_con form) (basis_type_of name) ≡ true },
}

/// Whether a symbol is that of a class.
pub fn is_class(s: Sym) -> bool
    ensures { result ≡ implied.is_class s.number }
{
    s == symbols::SHOW
        || s == symbols::EQ
        || s == symbols::ORD
        || s == symbols::NUM
        || s == symbols::SQL_INJECTABLE
}

/// Whether a type is a class at a type.
pub fn is_instance_form(c: &Con) -> bool
    ensures { result ≡ forms.is_instance_form (con_tree c.now) }
{
    match c {
        Con::App(f, _) => match &**f {
            Con::Basic(s) => is_class(*s),
            _ => false,
        },
        _ => false,
    }
}

/// The normal form of a type, where it is a class at a type.
pub fn instance_form(alloc: Global, t: &Con) -> Result<Option<Con>, AllocError>
    ensures { IfOk result (λ o. maybe_con o ≡ forms.instance_form (con_tree t.now)) }
{
    match normal_of(alloc, t)? {
        None => Ok(None),
        Some(n) => {
            if is_instance_form(&n) {
                Ok(Some(n))
            } else {
                Ok(None)
            }
        }
    }
}

/// A value of this type.
#[tactic(auto, using(crate::proofs::SameForms::form_is))]
pub fn typed_value(alloc: Global, t: &Con) -> Result<TypedValue, AllocError>
    ensures { IfOk result (λ v. con_tree v.con ≡ con_tree t.now) }
{
    let form = instance_form(alloc, t)?;
    let con = copy_con(alloc, t)?;
    Ok(TypedValue { con, form })
}

/// A value of the basis.
#[tactic(auto, using(crate::proofs::SameForms::form_is))]
pub fn basis_value(alloc: Global, name: BasisName) -> Result<BasisValue, AllocError>
    ensures { IfOk result (λ v. v.name ≡ name) }
{
    let t = basis_type(alloc, name)?;
    let form = instance_form(alloc, &t)?;
    Ok(BasisValue { name, form })
}
