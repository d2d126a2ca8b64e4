//! Types of the basis put together from parts, each of which is an error where memory ended.
ghost use Rattle.std.specs.Prelude.{◌≡◌, true, IfOk};
ghost use Rattle.con_terms.specs.Equal.{mapped as mapped_row};
ghost use Rattle.con_terms.specs.Trees as tree;
ghost use Rattle.con_terms.specs.Trees.{Cn};
ghost use Rattle.core_terms.specs.Types as meant;
ghost use Rattle.type_makers.specs.Made.{Makes};

use crate::made::{
    applied, basic, basic_at, empty_row, field, joined, label, lambda, map_of, poly, record,
    row_kind, two_field_row, types_kind, units_kind, var,
};
use crate::symbols;
use con_terms::Con;
use std::alloc::{AllocError, Global};

/// `transaction t`
pub fn transaction(alloc: Global, t: Result<Con, AllocError>) -> Result<Con, AllocError>
    ensures { (a : Cn) → Makes t a → Makes result (meant.transaction_of a) }
{
    basic_at(alloc, symbols::TRANSACTION, t)
}

/// `sql_query tables results`
pub fn query(
    alloc: Global,
    tables: Result<Con, AllocError>,
    results: Result<Con, AllocError>,
) -> Result<Con, AllocError>
    ensures { (ts es : Cn) → Makes tables ts → Makes results es → Makes result (meant.query_of ts es) }
{
    applied(alloc, basic_at(alloc, symbols::SQL_QUERY, tables), results)
}

/// `map (fn f :: {Type} => $f) tables`, the records of a row of a query
fn records(alloc: Global, tables: Result<Con, AllocError>) -> Result<Con, AllocError>
    ensures { (ts : Cn) → Makes tables ts → Makes result (mapped_row (tree.row_of tree.types) tree.types
        (tree.lambda (tree.row_of tree.types) (tree.record_of (tree.var 0))) ts) }
{
    let map = map_of(alloc, row_kind(alloc, types_kind()), types_kind());
    let body = record(alloc, var(0));
    let to_record = lambda(alloc, row_kind(alloc, types_kind()), body);
    applied(alloc, applied(alloc, map, to_record), tables)
}

/// `$(results ++ map (fn f :: {Type} => $f) tables)`, a row of a query
pub fn query_row(
    alloc: Global,
    tables: Result<Con, AllocError>,
    results: Result<Con, AllocError>,
) -> Result<Con, AllocError>
    ensures { (ts es : Cn) → Makes tables ts → Makes results es → Makes result (meant.result_of ts es) }
{
    record(alloc, joined(alloc, results, records(alloc, tables)))
}

/// `{Value : t, Secure : bool}`, what a cookie is set to
pub fn setting(alloc: Global, t: Result<Con, AllocError>) -> Result<Con, AllocError>
    ensures { (a : Cn) → Makes t a → Makes result (meant.setting_of a) }
{
    let value = field(label(symbols::VALUE), t);
    let secure = field(label(symbols::SECURE), basic(symbols::BOOL));
    record(alloc, two_field_row(alloc, types_kind(), value, secure))
}

/// `xml context uses fills`
pub fn xml(
    alloc: Global,
    context: Result<Con, AllocError>,
    uses: Result<Con, AllocError>,
    fills: Result<Con, AllocError>,
) -> Result<Con, AllocError>
    ensures { (c u f : Cn) → Makes context c → Makes uses u → Makes fills f → Makes result (meant.xml_of c u f) }
{
    let at_context = basic_at(alloc, symbols::XML, context);
    applied(alloc, applied(alloc, at_context, uses), fills)
}

/// `xml context [] []`
pub fn plain_xml(alloc: Global, context: Result<Con, AllocError>) -> Result<Con, AllocError>
    ensures { (c : Cn) → Makes context c → Makes result (meant.xml_of c meant.no_types meant.no_types) }
{
    xml(alloc, context, no_fields(alloc), no_fields(alloc))
}

/// `[]`, a row of no types
pub fn no_fields(alloc: Global) -> Result<Con, AllocError>
    ensures { Makes result meant.no_types }
{
    empty_row(alloc, types_kind())
}

/// `t ::: Type -> body`
pub fn each_type(alloc: Global, body: Result<Con, AllocError>) -> Result<Con, AllocError>
    ensures { (b : Cn) → Makes body b → Makes result (meant.for_type b) }
{
    poly(alloc, true, types_kind(), body)
}

/// `r ::: {Type} -> body`
pub fn each_row(alloc: Global, body: Result<Con, AllocError>) -> Result<Con, AllocError>
    ensures { (b : Cn) → Makes body b → Makes result (tree.poly true (tree.row_of tree.types) b) }
{
    poly(alloc, true, row_kind(alloc, types_kind()), body)
}

/// `ctx ::: {Unit} -> body`
pub fn each_context(alloc: Global, body: Result<Con, AllocError>) -> Result<Con, AllocError>
    ensures { (b : Cn) → Makes body b → Makes result (tree.poly true (tree.row_of tree.units) b) }
{
    poly(alloc, true, row_kind(alloc, units_kind()), body)
}
