//! Which values have implicit parameters: constructors, guards, folders or instances that a call leaves out.
use crate::known::Known;
use con_terms::{Con, Sym};
use core_terms::BasisName;
use type_makers::symbols;

/// Whether a parameter's type is a class's or a folder's.
fn is_sought(known: &Known, con: &Con) -> bool {
    match con {
        Con::App(head, _) => match &**head {
            Con::Basic(symbol) => known.is_sought(*symbol),
            _ => false,
        },
        _ => false,
    }
}

/// What a type's first parameter says: that it is implicit or isn't, or the rest of the type.
enum Parameter<'a> {
    Told(bool),
    Rest(&'a Con),
}

/// Looks at a type's first parameter.
fn looked_at<'a>(known: &Known, con: &'a Con) -> Parameter<'a> {
    match con {
        Con::Poly(true, _, _) => Parameter::Told(true),
        Con::Guarded(_, _, _) => Parameter::Told(true),
        Con::Poly(false, _, body) => Parameter::Rest(body),
        Con::Arrow(from, to) => {
            if is_sought(known, from) {
                Parameter::Told(true)
            } else {
                Parameter::Rest(to)
            }
        }
        _ => Parameter::Told(false),
    }
}

/// How many parameters of a type are looked at.
const PARAMETERS: u64 = 1 << 40;

/// Whether a type has implicit parameters.
pub fn has_implicits(known: &Known, con: &Con) -> bool {
    let mut rest = con;
    for _ in 0..PARAMETERS {
        match looked_at(known, rest) {
            Parameter::Told(told) => return told,
            Parameter::Rest(inner) => rest = inner,
        }
    }
    false
}

/// Whether a value of the basis has implicit parameters.
pub fn basis_has_implicits(name: BasisName) -> bool {
    match name {
        BasisName::Not | BasisName::Strcat | BasisName::Bless => false,
        BasisName::Dml | BasisName::Nextval | BasisName::NumInt => false,
        BasisName::ShowInt | BasisName::ShowString | BasisName::ShowBool => false,
        BasisName::EqInt | BasisName::EqString | BasisName::EqBool => false,
        BasisName::OrdInt | BasisName::OrdString | BasisName::OrdBool => false,
        BasisName::SqlInt | BasisName::SqlString | BasisName::SqlBool => false,
        _ => true,
    }
}

/// Whether the constructors of a datatype have implicit parameters: those of one that takes types.
pub fn builder_has_implicits(known: &Known, symbol: Sym) -> bool {
    if symbol == symbols::OPTION || symbol == symbols::LIST {
        return true;
    }
    match known.datatype(symbol) {
        Some(datatype) => datatype.takes_types,
        None => false,
    }
}
