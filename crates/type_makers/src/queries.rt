//! The types of what reads and changes tables and cookies.
ghost use Rattle.std.specs.Prelude.{◌≡◌, true, IfOk};
ghost use Rattle.con_terms.specs.Trees as tree;
ghost use Rattle.con_terms.specs.Trees.{Cn};
ghost use Rattle.con_terms.specs.View.{con_tree};
ghost use Rattle.core_terms.specs.Basis as meant;
ghost use Rattle.core_terms.specs.declared.basis.BasisName.TheVariants as value;
ghost use Rattle.type_makers.specs.Made.{Makes};

use crate::made::{arrow, basic_at, guarded, poly, row_kind, types_kind, var};
use crate::made_types::{
    each_context, each_row, each_type, plain_xml, query, query_row, setting, transaction,
};
use crate::symbols;
use crate::types::{dml_type, int_type, sequence_type, unit_type};
use con_terms::Con;
use std::alloc::{AllocError, Global};

/// `ts ::: {{Type}} -> es ::: {Type} -> [ts ~ es] => body`
fn for_results(alloc: Global, body: Result<Con, AllocError>) -> Result<Con, AllocError>
    ensures { (b : Cn) → Makes body b → Makes result (meant.for_results b) }
{
    let body = each_row(alloc, guarded(alloc, var(1), var(0), body));
    let columns = row_kind(alloc, types_kind());
    poly(alloc, true, row_kind(alloc, columns), body)
}

/// `xml ctx [] []`, where the context has number 0
fn plain_tree(alloc: Global) -> Result<Con, AllocError>
    ensures { Makes result (meant.plain_xml (tree.var 0)) }
{
    plain_xml(alloc, var(0))
}

/// `query`: what is made of each row and of what was made of those before it
pub fn query_type(alloc: Global) -> Result<Con, AllocError>
    ensures { IfOk result (λ new. con_tree new ≡ meant.basis_type value.Query) }
{
    let next = arrow(alloc, var(0), transaction(alloc, var(0)));
    let step = arrow(alloc, query_row(alloc, var(2), var(1)), next);
    let body = arrow(alloc, var(0), transaction(alloc, var(0)));
    let body = arrow(alloc, step, body);
    let body = arrow(alloc, query(alloc, var(2), var(1)), body);
    for_results(alloc, each_type(alloc, body))
}

/// `queryX`: trees for each row, one after another
pub fn query_xml_type(alloc: Global) -> Result<Con, AllocError>
    ensures { IfOk result (λ new. con_tree new ≡ meant.basis_type value.QueryX) }
{
    let gives = transaction(alloc, plain_tree(alloc));
    let shows = arrow(alloc, query_row(alloc, var(2), var(1)), plain_tree(alloc));
    let body = arrow(alloc, shows, gives);
    let body = arrow(alloc, query(alloc, var(2), var(1)), body);
    for_results(alloc, each_context(alloc, body))
}

/// `oneRow`: the one row
pub fn one_row_type(alloc: Global) -> Result<Con, AllocError>
    ensures { IfOk result (λ new. con_tree new ≡ meant.basis_type value.OneRow) }
{
    let gives = transaction(alloc, query_row(alloc, var(1), var(0)));
    for_results(alloc, arrow(alloc, query(alloc, var(1), var(0)), gives))
}

/// `oneOrNoRows`: the one row, if there is one
pub fn one_or_no_rows_type(alloc: Global) -> Result<Con, AllocError>
    ensures { IfOk result (λ new. con_tree new ≡ meant.basis_type value.OneOrNoRows) }
{
    let row = basic_at(alloc, symbols::OPTION, query_row(alloc, var(1), var(0)));
    let gives = transaction(alloc, row);
    for_results(alloc, arrow(alloc, query(alloc, var(1), var(0)), gives))
}

/// `dml`: a change of a table
pub fn change_type(alloc: Global) -> Result<Con, AllocError>
    ensures { IfOk result (λ new. con_tree new ≡ meant.basis_type value.Dml) }
{
    arrow(alloc, Ok(dml_type()), transaction(alloc, unit_type(alloc)))
}

/// `nextval`: the next number of a sequence
pub fn nextval_type(alloc: Global) -> Result<Con, AllocError>
    ensures { IfOk result (λ new. con_tree new ≡ meant.basis_type value.Nextval) }
{
    arrow(
        alloc,
        Ok(sequence_type()),
        transaction(alloc, Ok(int_type())),
    )
}

/// `getCookie`
pub fn get_cookie_type(alloc: Global) -> Result<Con, AllocError>
    ensures { IfOk result (λ new. con_tree new ≡ meant.basis_type value.GetCookie) }
{
    let gives = transaction(alloc, basic_at(alloc, symbols::OPTION, var(0)));
    each_type(
        alloc,
        arrow(alloc, basic_at(alloc, symbols::HTTP_COOKIE, var(0)), gives),
    )
}

/// `setCookie`
pub fn set_cookie_type(alloc: Global) -> Result<Con, AllocError>
    ensures { IfOk result (λ new. con_tree new ≡ meant.basis_type value.SetCookie) }
{
    let gives = transaction(alloc, unit_type(alloc));
    let body = arrow(alloc, setting(alloc, var(0)), gives);
    each_type(
        alloc,
        arrow(alloc, basic_at(alloc, symbols::HTTP_COOKIE, var(0)), body),
    )
}

/// `clearCookie`
pub fn clear_cookie_type(alloc: Global) -> Result<Con, AllocError>
    ensures { IfOk result (λ new. con_tree new ≡ meant.basis_type value.ClearCookie) }
{
    let gives = transaction(alloc, unit_type(alloc));
    each_type(
        alloc,
        arrow(alloc, basic_at(alloc, symbols::HTTP_COOKIE, var(0)), gives),
    )
}
