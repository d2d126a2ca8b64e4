//! The types of the basis, and what stands in them.
ghost use Rattle.std.specs.Prelude.{◌≡◌, [], ◌∷◌, IfOk};
ghost use Rattle.con_terms.specs.View.{con_tree};
ghost use Rattle.core_terms.specs.Types as meant;

use crate::made::{self, basic_at};
use crate::{made_types, symbols};
use con_terms::{Con, Sym};
use std::alloc::{AllocError, Global};

/// `int`
pub fn int_type() -> Con
    ensures { con_tree result ≡ meant.int_type }
{
    Con::Basic(symbols::INT)
}

/// `string`
pub fn string_type() -> Con
    ensures { con_tree result ≡ meant.string_type }
{
    Con::Basic(symbols::STRING)
}

/// `url`
pub fn url_type() -> Con
    ensures { con_tree result ≡ meant.url_type }
{
    Con::Basic(symbols::URL)
}

/// `bool`
pub fn bool_type() -> Con
    ensures { con_tree result ≡ meant.bool_type }
{
    Con::Basic(symbols::BOOL)
}

/// `dml`
pub fn dml_type() -> Con
    ensures { con_tree result ≡ meant.dml_type }
{
    Con::Basic(symbols::DML)
}

/// `sql_sequence`
pub fn sequence_type() -> Con
    ensures { con_tree result ≡ meant.sequence_type }
{
    Con::Basic(symbols::SQL_SEQUENCE)
}

/// `[]`, a row of no types
pub fn no_types(alloc: Global) -> Result<Con, AllocError>
    ensures { IfOk result (λ new. con_tree new ≡ meant.no_types) }
{
    made_types::no_fields(alloc)
}

/// `[name = t]`
pub fn one_field(alloc: Global, name: Con, t: Con) -> Result<Con, AllocError>
    ensures { IfOk result (λ new. con_tree new ≡ meant.one_field (con_tree name) (con_tree t)) }
{
    made::field_row(alloc, made::types_kind(), Ok(name), Ok(t))
}

/// `{}`
pub fn unit_type(alloc: Global) -> Result<Con, AllocError>
    ensures { IfOk result (λ new. con_tree new ≡ meant.unit_type) }
{
    made::record(alloc, no_types(alloc))
}

/// `transaction t`
pub fn transaction_of(alloc: Global, t: Con) -> Result<Con, AllocError>
    ensures { IfOk result (λ new. con_tree new ≡ meant.transaction_of (con_tree t)) }
{
    basic_at(alloc, symbols::TRANSACTION, Ok(t))
}

/// `option t`
pub fn option_of(alloc: Global, t: Con) -> Result<Con, AllocError>
    ensures { IfOk result (λ new. con_tree new ≡ meant.option_of (con_tree t)) }
{
    basic_at(alloc, symbols::OPTION, Ok(t))
}

/// `show t`
pub fn show_of(alloc: Global, t: Con) -> Result<Con, AllocError>
    ensures { IfOk result (λ new. con_tree new ≡ meant.show_of (con_tree t)) }
{
    basic_at(alloc, symbols::SHOW, Ok(t))
}

/// `eq t`
pub fn eq_of(alloc: Global, t: Con) -> Result<Con, AllocError>
    ensures { IfOk result (λ new. con_tree new ≡ meant.eq_of (con_tree t)) }
{
    basic_at(alloc, symbols::EQ, Ok(t))
}

/// `ord t`
pub fn ord_of(alloc: Global, t: Con) -> Result<Con, AllocError>
    ensures { IfOk result (λ new. con_tree new ≡ meant.ord_of (con_tree t)) }
{
    basic_at(alloc, symbols::ORD, Ok(t))
}

/// `num t`
pub fn num_of(alloc: Global, t: Con) -> Result<Con, AllocError>
    ensures { IfOk result (λ new. con_tree new ≡ meant.num_of (con_tree t)) }
{
    basic_at(alloc, symbols::NUM, Ok(t))
}

/// `sql_table columns`
pub fn table_of(alloc: Global, columns: Con) -> Result<Con, AllocError>
    ensures { IfOk result (λ new. con_tree new ≡ meant.table_of (con_tree columns)) }
{
    basic_at(alloc, symbols::SQL_TABLE, Ok(columns))
}

/// `sql_query tables results`
pub fn query_of(alloc: Global, tables: Con, results: Con) -> Result<Con, AllocError>
    ensures { IfOk result (λ new. con_tree new ≡ meant.query_of (con_tree tables) (con_tree results)) }
{
    made_types::query(alloc, Ok(tables), Ok(results))
}

/// `sql_exp tables t`
pub fn expression_of(alloc: Global, tables: Con, t: Con) -> Result<Con, AllocError>
    ensures { IfOk result (λ new. con_tree new ≡ meant.expression_of (con_tree tables) (con_tree t)) }
{
    let over = basic_at(alloc, symbols::SQL_EXP, Ok(tables));
    made::applied(alloc, over, Ok(t))
}

/// `http_cookie t`
pub fn cookie_of(alloc: Global, t: Con) -> Result<Con, AllocError>
    ensures { IfOk result (λ new. con_tree new ≡ meant.cookie_of (con_tree t)) }
{
    basic_at(alloc, symbols::HTTP_COOKIE, Ok(t))
}

/// `sql_injectable t`
pub fn injectable_of(alloc: Global, t: Con) -> Result<Con, AllocError>
    ensures { IfOk result (λ new. con_tree new ≡ meant.injectable_of (con_tree t)) }
{
    basic_at(alloc, symbols::SQL_INJECTABLE, Ok(t))
}

/// `$(results ++ map (fn f :: {Type} => $f) tables)`, a row of a query
pub fn result_of(alloc: Global, tables: Con, results: Con) -> Result<Con, AllocError>
    ensures { IfOk result (λ new. con_tree new ≡ meant.result_of (con_tree tables) (con_tree results)) }
{
    made_types::query_row(alloc, Ok(tables), Ok(results))
}

/// `{Value : t, Secure : bool}`, what a cookie is set to
pub fn setting_of(alloc: Global, t: Con) -> Result<Con, AllocError>
    ensures { IfOk result (λ new. con_tree new ≡ meant.setting_of (con_tree t)) }
{
    made_types::setting(alloc, Ok(t))
}

/// `xml context uses fills`: a tree that may stand in a context, in a form whose fields `uses` are
/// filled before it, and that fills `fills`
pub fn xml_of(alloc: Global, context: Con, uses: Con, fills: Con) -> Result<Con, AllocError>
    ensures { IfOk result (λ new. con_tree new ≡ meant.xml_of (con_tree context) (con_tree uses) (con_tree fills)) }
{
    made_types::xml(alloc, Ok(context), Ok(uses), Ok(fills))
}

/// `[name]`, a row of one unit
pub fn one_unit(alloc: Global, name: Sym) -> Result<Con, AllocError>
    ensures { IfOk result (λ new. con_tree new ≡ meant.unit_row (name.number ∷ [])) }
{
    made::field_row(
        alloc,
        made::units_kind(),
        made::label(name),
        made::unit_con(),
    )
}

/// `[name, other]`, a row of two units
pub fn two_units(alloc: Global, name: Sym, other: Sym) -> Result<Con, AllocError>
    ensures { IfOk result (λ new. con_tree new ≡ meant.unit_row (name.number ∷ other.number ∷ [])) }
{
    let first = made::field(made::label(name), made::unit_con());
    let second = made::field(made::label(other), made::unit_con());
    made::two_field_row(alloc, made::units_kind(), first, second)
}

/// `xml [name] [] []`
fn plain_xml_at(alloc: Global, name: Sym) -> Result<Con, AllocError>
    ensures { IfOk result (λ new. con_tree new ≡
        meant.xml_of (meant.unit_row (name.number ∷ [])) meant.no_types meant.no_types) }
{
    made_types::plain_xml(alloc, one_unit(alloc, name))
}

/// `page`, which is `xml [Html] [] []`
pub fn page_type(alloc: Global) -> Result<Con, AllocError>
    ensures { IfOk result (λ new. con_tree new ≡ meant.page_type) }
{
    plain_xml_at(alloc, symbols::HTML)
}

/// `xbody`, which is `xml [Body] [] []`
pub fn body_type(alloc: Global) -> Result<Con, AllocError>
    ensures { IfOk result (λ new. con_tree new ≡ meant.body_type) }
{
    plain_xml_at(alloc, symbols::BODY)
}

/// `xtable`, which is `xml [Table] [] []`
pub fn table_type(alloc: Global) -> Result<Con, AllocError>
    ensures { IfOk result (λ new. con_tree new ≡ meant.table_type) }
{
    plain_xml_at(alloc, symbols::TABLE)
}

/// `xtr`, which is `xml [Tr] [] []`
pub fn tr_type(alloc: Global) -> Result<Con, AllocError>
    ensures { IfOk result (λ new. con_tree new ≡ meant.tr_type) }
{
    plain_xml_at(alloc, symbols::TR)
}

/// `t ::: Type -> body`
pub fn for_type(alloc: Global, body: Con) -> Result<Con, AllocError>
    ensures { IfOk result (λ new. con_tree new ≡ meant.for_type (con_tree body)) }
{
    made_types::each_type(alloc, Ok(body))
}
