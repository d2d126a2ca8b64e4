//! The type of `fold`.
ghost use Rattle.std.specs.Prelude.{◌≡◌, false, true, IfOk};
ghost use Rattle.con_terms.specs.Trees as tree;
ghost use Rattle.con_terms.specs.View.{con_tree, kind_tree};
ghost use Rattle.core_terms.specs.Basis as meant;

use crate::made::{
    applied, arrow, arrow_kind, basic_at, empty_row, field_row, guarded, joined, names_kind, poly,
    row_kind, types_kind, unit_con, units_kind, var,
};
use con_terms::{Con, Kind, Sym, copy_kind};
use std::alloc::{AllocError, Global};

/// `{kind}`, of a copy of the kind
fn rows_of(alloc: Global, kind: &Kind) -> Result<Kind, AllocError>
    ensures { IfOk result (λ new. kind_tree new ≡ tree.row_of (kind_tree kind.now)) }
{
    row_kind(alloc, copy_kind(alloc, kind))
}

/// `tf r -> tf ([nm = v] ++ r)`, where these have the numbers 3, 0, 2, 1
fn visit(alloc: Global, kind: &Kind) -> Result<Con, AllocError>
    ensures { IfOk result (λ new. con_tree new ≡ tree.arrow (tree.app (tree.var 3) (tree.var 0))
        (tree.app (tree.var 3) (tree.cat (tree.row (kind_tree kind.now) (tree.pair (tree.var 2)
        (tree.var 1) tree.no_pairs)) (tree.var 0)))) }
{
    let field = field_row(alloc, copy_kind(alloc, kind), var(2), var(1));
    let after = applied(alloc, var(3), joined(alloc, field, var(0)));
    arrow(alloc, applied(alloc, var(3), var(0)), after)
}

/// `nm :: Name -> v :: kind -> r :: {kind} -> [[nm] ~ r] => tf r -> tf ([nm = v] ++ r)`, with `tf`
/// outside
pub fn fold_step_type(alloc: Global, kind: &Kind) -> Result<Con, AllocError>
    ensures { IfOk result (λ new. con_tree new ≡ meant.fold_step_type (kind_tree kind.now)) }
{
    let label = field_row(alloc, units_kind(), var(2), unit_con());
    let body = guarded(alloc, label, var(0), visit(alloc, kind));
    let body = poly(alloc, false, rows_of(alloc, kind), body);
    let body = poly(alloc, false, copy_kind(alloc, kind), body);
    poly(alloc, false, names_kind(), body)
}

/// `r ::: {kind} -> folder r -> tf r`, where `tf` has the number 0 outside
fn walks(alloc: Global, kind: &Kind, folder: Sym) -> Result<Con, AllocError>
    ensures { IfOk result (λ new. con_tree new ≡ tree.poly true (tree.row_of (kind_tree kind.now))
        (tree.arrow (tree.app (tree.basic folder.number) (tree.var 0)) (tree.app (tree.var 1) (tree.var 0)))) }
{
    let walked = basic_at(alloc, folder, var(0));
    let body = arrow(alloc, walked, applied(alloc, var(1), var(0)));
    poly(alloc, true, rows_of(alloc, kind), body)
}

/// The type of `fold` over rows of kind `{kind}`, where the symbol is that of `folder` at the kind:
/// `tf :: ({kind} -> Type) -> step -> tf [] -> r ::: {kind} -> folder r -> tf r`
pub fn fold_type(alloc: Global, kind: &Kind, folder: Sym) -> Result<Con, AllocError>
    ensures { IfOk result (λ new. con_tree new ≡ meant.fold_type (kind_tree kind.now) folder.number) }
{
    let empty = empty_row(alloc, copy_kind(alloc, kind));
    let start = applied(alloc, var(0), empty);
    let body = arrow(alloc, start, walks(alloc, kind, folder));
    let body = arrow(alloc, fold_step_type(alloc, kind), body);
    let result_kind = arrow_kind(alloc, rows_of(alloc, kind), types_kind());
    poly(alloc, false, result_kind, body)
}
