//! The values and types of the basis, looked up by their names.
ghost use Rattle.std.specs.Prelude.{◌≡◌};
ghost use Rattle.core_terms.specs.BasisTexts as meant;
ghost use Rattle.type_makers.specs.Lookup.{first_named};

use crate::by_name::{type_text, value_text};
use core_terms::{BasisName, TypeName};

/// The values of the basis.
pub const VALUES: [BasisName; 44] = [
    BasisName::Return,
    BasisName::Bind,
    BasisName::Error,
    BasisName::Not,
    BasisName::Strcat,
    BasisName::Plus,
    BasisName::Minus,
    BasisName::Times,
    BasisName::Divide,
    BasisName::Mod,
    BasisName::Neg,
    BasisName::Eq,
    BasisName::Ne,
    BasisName::Lt,
    BasisName::Le,
    BasisName::Show,
    BasisName::MkShow,
    BasisName::MkEq,
    BasisName::Txt,
    BasisName::Cdata,
    BasisName::Join,
    BasisName::Bless,
    BasisName::Query,
    BasisName::QueryX,
    BasisName::OneRow,
    BasisName::OneOrNoRows,
    BasisName::Dml,
    BasisName::Nextval,
    BasisName::GetCookie,
    BasisName::SetCookie,
    BasisName::ClearCookie,
    BasisName::NumInt,
    BasisName::ShowInt,
    BasisName::ShowString,
    BasisName::ShowBool,
    BasisName::EqInt,
    BasisName::EqString,
    BasisName::EqBool,
    BasisName::OrdInt,
    BasisName::OrdString,
    BasisName::OrdBool,
    BasisName::SqlInt,
    BasisName::SqlString,
    BasisName::SqlBool,
];

/// The types of the basis.
pub const TYPES: [TypeName; 24] = [
    TypeName::Int,
    TypeName::String,
    TypeName::Url,
    TypeName::Unit,
    TypeName::Bool,
    TypeName::Option,
    TypeName::List,
    TypeName::Transaction,
    TypeName::Xml,
    TypeName::Page,
    TypeName::Xbody,
    TypeName::Xtable,
    TypeName::Xtr,
    TypeName::Show,
    TypeName::Eq,
    TypeName::Ord,
    TypeName::Num,
    TypeName::SqlTable,
    TypeName::SqlQuery,
    TypeName::SqlExp,
    TypeName::Dml,
    TypeName::SqlSequence,
    TypeName::HttpCookie,
    TypeName::SqlInjectable,
];

/// The first of some values that has this name.
pub fn value_among(mut values: &[BasisName], text: &str) -> Option<BasisName>
    ensures { result ≡ first_named meant.value_text values.entry.now text.now }
{
    while let [value, rest @ ..] = values {
        if value_text(*value) == text {
            return Some(*value);
        }
        values = rest;
    }
    None
}

/// The first of some types that has this name.
pub fn type_among(mut types: &[TypeName], text: &str) -> Option<TypeName>
    ensures { result ≡ first_named meant.type_text types.entry.now text.now }
{
    while let [name, rest @ ..] = types {
        if type_text(*name) == text {
            return Some(*name);
        }
        types = rest;
    }
    None
}
