//! The values and types of the basis by their names.
ghost use Rattle.std.specs.Prelude.{◌≡◌, ◌≢◌, IfOk, IfSome, IfNone};
ghost use Rattle.con_terms.specs.Trees as tree;
ghost use Rattle.con_terms.specs.View.{con_tree, kind_tree};
ghost use Rattle.core_terms.specs.BasisTexts as meant;
ghost use Rattle.core_terms.specs.declared.basis.TypeName.TheVariants as type_name;

use crate::lookups::{TYPES, VALUES, type_among, value_among};
use crate::made::{arrow_kind, basic, row_kind, types_kind, units_kind};
use crate::symbols;
use crate::types::{body_type, page_type, table_type, tr_type, unit_type};
use con_terms::{Con, Kind};
use core_terms::{BasisName, TypeName};
use std::alloc::{AllocError, Global};

/// The name of a value.
pub fn value_text(value: BasisName) -> &'static str
    ensures { result.now ≡ meant.value_text value }
{
    match value {
        BasisName::Return => "return",
        BasisName::Bind => "bind",
        BasisName::Error => "error",
        BasisName::Not => "not",
        BasisName::Strcat => "strcat",
        BasisName::Plus => "plus",
        BasisName::Minus => "minus",
        BasisName::Times => "times",
        BasisName::Divide => "divide",
        BasisName::Mod => "mod",
        BasisName::Neg => "neg",
        BasisName::Eq => "eq",
        BasisName::Ne => "ne",
        BasisName::Lt => "lt",
        BasisName::Le => "le",
        BasisName::Show => "show",
        BasisName::MkShow => "mkShow",
        BasisName::MkEq => "mkEq",
        BasisName::Txt => "txt",
        BasisName::Cdata => "cdata",
        BasisName::Join => "join",
        BasisName::Bless => "bless",
        BasisName::Query => "query",
        BasisName::QueryX => "queryX",
        BasisName::OneRow => "oneRow",
        BasisName::OneOrNoRows => "oneOrNoRows",
        BasisName::Dml => "dml",
        BasisName::Nextval => "nextval",
        BasisName::GetCookie => "getCookie",
        BasisName::SetCookie => "setCookie",
        BasisName::ClearCookie => "clearCookie",
        BasisName::NumInt => "num_int",
        BasisName::ShowInt => "show_int",
        BasisName::ShowString => "show_string",
        BasisName::ShowBool => "show_bool",
        BasisName::EqInt => "eq_int",
        BasisName::EqString => "eq_string",
        BasisName::EqBool => "eq_bool",
        BasisName::OrdInt => "ord_int",
        BasisName::OrdString => "ord_string",
        BasisName::OrdBool => "ord_bool",
        BasisName::SqlInt => "sql_int",
        BasisName::SqlString => "sql_string",
        BasisName::SqlBool => "sql_bool",
    }
}

/// The value of a name.
pub fn value_named(text: &str) -> Option<BasisName>
    ensures some { IfSome result (λ value. meant.value_text value ≡ text.now) }
    ensures none { IfNone result ((value : BasisName) → meant.value_text value ≢ text.now) }
{
    value_among(&VALUES, text)
}

/// The name of a type.
pub fn type_text(name: TypeName) -> &'static str
    ensures { result.now ≡ meant.type_text name }
{
    match name {
        TypeName::Int => "int",
        TypeName::String => "string",
        TypeName::Url => "url",
        TypeName::Unit => "unit",
        TypeName::Bool => "bool",
        TypeName::Option => "option",
        TypeName::List => "list",
        TypeName::Transaction => "transaction",
        TypeName::Xml => "xml",
        TypeName::Page => "page",
        TypeName::Xbody => "xbody",
        TypeName::Xtable => "xtable",
        TypeName::Xtr => "xtr",
        TypeName::Show => "show",
        TypeName::Eq => "eq",
        TypeName::Ord => "ord",
        TypeName::Num => "num",
        TypeName::SqlTable => "sql_table",
        TypeName::SqlQuery => "sql_query",
        TypeName::SqlExp => "sql_exp",
        TypeName::Dml => "dml",
        TypeName::SqlSequence => "sql_sequence",
        TypeName::HttpCookie => "http_cookie",
        TypeName::SqlInjectable => "sql_injectable",
    }
}

/// The type of a name.
pub fn type_named(text: &str) -> Option<TypeName>
    ensures some { IfSome result (λ name. meant.type_text name ≡ text.now) }
    ensures none { IfNone result ((name : TypeName) → meant.type_text name ≢ text.now) }
{
    type_among(&TYPES, text)
}

/// What the name of a type stands for.
pub fn named_type(alloc: Global, name: TypeName) -> Result<Con, AllocError>
    ensures { IfOk result (λ new. con_tree new ≡ meant.named_type name) }
{
    match name {
        TypeName::Int => basic(symbols::INT),
        TypeName::String => basic(symbols::STRING),
        TypeName::Url => basic(symbols::URL),
        TypeName::Unit => unit_type(alloc),
        TypeName::Bool => basic(symbols::BOOL),
        TypeName::Option => basic(symbols::OPTION),
        TypeName::List => basic(symbols::LIST),
        TypeName::Transaction => basic(symbols::TRANSACTION),
        TypeName::Xml => basic(symbols::XML),
        TypeName::Page => page_type(alloc),
        TypeName::Xbody => body_type(alloc),
        TypeName::Xtable => table_type(alloc),
        TypeName::Xtr => tr_type(alloc),
        TypeName::Show => basic(symbols::SHOW),
        TypeName::Eq => basic(symbols::EQ),
        TypeName::Ord => basic(symbols::ORD),
        TypeName::Num => basic(symbols::NUM),
        TypeName::SqlTable => basic(symbols::SQL_TABLE),
        TypeName::SqlQuery => basic(symbols::SQL_QUERY),
        TypeName::SqlExp => basic(symbols::SQL_EXP),
        TypeName::Dml => basic(symbols::DML),
        TypeName::SqlSequence => basic(symbols::SQL_SEQUENCE),
        TypeName::HttpCookie => basic(symbols::HTTP_COOKIE),
        TypeName::SqlInjectable => basic(symbols::SQL_INJECTABLE),
    }
}

/// The kind of what the name of a type stands for.
pub fn named_kind(alloc: Global, name: TypeName) -> Result<Kind, AllocError>
    ensures { IfOk result (λ new. kind_tree new ≡ meant.named_kind name) }
{
    match name {
        TypeName::Option
        | TypeName::List
        | TypeName::Transaction
        | TypeName::Show
        | TypeName::Eq
        | TypeName::Ord
        | TypeName::Num
        | TypeName::HttpCookie
        | TypeName::SqlInjectable => arrow_kind(alloc, types_kind(), types_kind()),
        TypeName::Xml => xml_kind(alloc),
        TypeName::SqlTable => arrow_kind(alloc, row_kind(alloc, types_kind()), types_kind()),
        TypeName::SqlQuery => query_kind(alloc),
        TypeName::SqlExp => expression_kind(alloc),
        _ => types_kind(),
    }
}

/// `{Unit} -> {Type} -> {Type} -> Type`
fn xml_kind(alloc: Global) -> Result<Kind, AllocError>
    ensures { IfOk result (λ new. kind_tree new ≡ meant.named_kind type_name.Xml) }
{
    let gives = arrow_kind(alloc, row_kind(alloc, types_kind()), types_kind());
    let gives = arrow_kind(alloc, row_kind(alloc, types_kind()), gives);
    arrow_kind(alloc, row_kind(alloc, units_kind()), gives)
}

/// `{{Type}} -> {Type} -> Type`
fn query_kind(alloc: Global) -> Result<Kind, AllocError>
    ensures { IfOk result (λ new. kind_tree new ≡ meant.named_kind type_name.SqlQuery) }
{
    let gives = arrow_kind(alloc, row_kind(alloc, types_kind()), types_kind());
    arrow_kind(alloc, tables_kind(alloc), gives)
}

/// `{{Type}} -> Type -> Type`
fn expression_kind(alloc: Global) -> Result<Kind, AllocError>
    ensures { IfOk result (λ new. kind_tree new ≡ meant.named_kind type_name.SqlExp) }
{
    let gives = arrow_kind(alloc, types_kind(), types_kind());
    arrow_kind(alloc, tables_kind(alloc), gives)
}

/// `{{Type}}`
fn tables_kind(alloc: Global) -> Result<Kind, AllocError>
    ensures { IfOk result (λ new. kind_tree new ≡ tree.row_of (tree.row_of tree.types)) }
{
    row_kind(alloc, row_kind(alloc, types_kind()))
}
