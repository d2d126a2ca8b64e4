//! The types of the values of the basis.
ghost use Rattle.std.specs.Prelude.{◌≡◌, true, [], ◌∷◌, IfOk};
ghost use Rattle.con_terms.specs.Trees as tree;
ghost use Rattle.con_terms.specs.Trees.{Cn};
ghost use Rattle.con_terms.specs.View.{con_tree};
ghost use Rattle.core_terms.specs.Basis as meant;
ghost use Rattle.core_terms.specs.Types as types;
ghost use Rattle.core_terms.specs.declared.basis.BasisName.TheVariants as value;
ghost use Rattle.type_makers.specs.Made.{Makes};

use crate::made::{arrow, basic_at, guarded, joined, var};
use crate::made_types::{each_context, each_row, each_type, no_fields, transaction, xml};
use crate::types::{
    body_type, bool_type, eq_of, injectable_of, int_type, num_of, ord_of, show_of, string_type,
    url_type,
};
use crate::{forms, queries, symbols};
use con_terms::Con;
use core_terms::BasisName;
use std::alloc::{AllocError, Global};

/// The type of a value of the basis.
pub fn basis_type(alloc: Global, name: BasisName) -> Result<Con, AllocError>
    ensures { IfOk result (λ new. con_tree new ≡ meant.basis_type name) }
{
    match name {
        BasisName::Return => return_type(alloc),
        BasisName::Bind => bind_type(alloc),
        BasisName::Error => error_type(alloc),
        BasisName::Not => forms::arrow(alloc, bool_type(), bool_type()),
        BasisName::Strcat => strcat_type(alloc),
        BasisName::Plus
        | BasisName::Minus
        | BasisName::Times
        | BasisName::Divide
        | BasisName::Mod => two_numbers(alloc),
        BasisName::Neg => neg_type(alloc),
        BasisName::Eq | BasisName::Ne => two_alike(alloc),
        BasisName::Lt | BasisName::Le => two_ordered(alloc),
        BasisName::Show => show_type(alloc),
        BasisName::MkShow => show_from_type(alloc),
        BasisName::MkEq => eq_from_type(alloc),
        BasisName::Txt => txt_type(alloc),
        BasisName::Cdata => cdata_type(alloc),
        BasisName::Join => join_type(alloc),
        BasisName::Bless => forms::arrow(alloc, string_type(), url_type()),
        BasisName::Query => queries::query_type(alloc),
        BasisName::QueryX => queries::query_xml_type(alloc),
        BasisName::OneRow => queries::one_row_type(alloc),
        BasisName::OneOrNoRows => queries::one_or_no_rows_type(alloc),
        BasisName::Dml => queries::change_type(alloc),
        BasisName::Nextval => queries::nextval_type(alloc),
        BasisName::GetCookie => queries::get_cookie_type(alloc),
        BasisName::SetCookie => queries::set_cookie_type(alloc),
        BasisName::ClearCookie => queries::clear_cookie_type(alloc),
        BasisName::NumInt => num_of(alloc, int_type()),
        BasisName::ShowInt => show_of(alloc, int_type()),
        BasisName::ShowString => show_of(alloc, string_type()),
        BasisName::ShowBool => show_of(alloc, bool_type()),
        BasisName::EqInt => eq_of(alloc, int_type()),
        BasisName::EqString => eq_of(alloc, string_type()),
        BasisName::EqBool => eq_of(alloc, bool_type()),
        BasisName::OrdInt => ord_of(alloc, int_type()),
        BasisName::OrdString => ord_of(alloc, string_type()),
        BasisName::OrdBool => ord_of(alloc, bool_type()),
        BasisName::SqlInt => injectable_of(alloc, int_type()),
        BasisName::SqlString => injectable_of(alloc, string_type()),
        BasisName::SqlBool => injectable_of(alloc, bool_type()),
    }
}

/// `t ::: Type -> t -> transaction t`
fn return_type(alloc: Global) -> Result<Con, AllocError>
    ensures { IfOk result (λ new. con_tree new ≡ meant.basis_type value.Return) }
{
    let action = transaction(alloc, var(0));
    each_type(alloc, arrow(alloc, var(0), action))
}

/// `t ::: Type -> u ::: Type -> transaction t -> (t -> transaction u) -> transaction u`
fn bind_type(alloc: Global) -> Result<Con, AllocError>
    ensures { IfOk result (λ new. con_tree new ≡ meant.basis_type value.Bind) }
{
    let first = transaction(alloc, var(1));
    let then = arrow(alloc, var(1), transaction(alloc, var(0)));
    let body = arrow(alloc, then, transaction(alloc, var(0)));
    let body = arrow(alloc, first, body);
    each_type(alloc, each_type(alloc, body))
}

/// `t ::: Type -> xbody -> t`
fn error_type(alloc: Global) -> Result<Con, AllocError>
    ensures { IfOk result (λ new. con_tree new ≡ meant.basis_type value.Error) }
{
    each_type(alloc, arrow(alloc, body_type(alloc), var(0)))
}

/// `string -> string -> string`
fn strcat_type(alloc: Global) -> Result<Con, AllocError>
    ensures { IfOk result (λ new. con_tree new ≡ meant.basis_type value.Strcat) }
{
    let rest = arrow(alloc, Ok(string_type()), Ok(string_type()));
    arrow(alloc, Ok(string_type()), rest)
}

/// `t ::: Type -> class -> t -> t -> gives`
fn two_of(
    alloc: Global,
    class: Result<Con, AllocError>,
    gives: Result<Con, AllocError>,
) -> Result<Con, AllocError>
    ensures { (c g : Cn) → Makes class c → Makes gives g
        → Makes result (types.for_type (types.function (c ∷ tree.var 0 ∷ tree.var 0 ∷ []) g)) }
{
    let body = arrow(alloc, var(0), arrow(alloc, var(0), gives));
    each_type(alloc, arrow(alloc, class, body))
}

/// `t ::: Type -> num t -> t -> t -> t`
fn two_numbers(alloc: Global) -> Result<Con, AllocError>
    ensures { IfOk result (λ new. con_tree new ≡ meant.two_numbers) }
{
    two_of(alloc, basic_at(alloc, symbols::NUM, var(0)), var(0))
}

/// `t ::: Type -> eq t -> t -> t -> bool`
fn two_alike(alloc: Global) -> Result<Con, AllocError>
    ensures { IfOk result (λ new. con_tree new ≡ meant.two_alike) }
{
    two_of(alloc, basic_at(alloc, symbols::EQ, var(0)), Ok(bool_type()))
}

/// `t ::: Type -> ord t -> t -> t -> bool`
fn two_ordered(alloc: Global) -> Result<Con, AllocError>
    ensures { IfOk result (λ new. con_tree new ≡ meant.two_ordered) }
{
    two_of(
        alloc,
        basic_at(alloc, symbols::ORD, var(0)),
        Ok(bool_type()),
    )
}

/// `t ::: Type -> num t -> t -> t`
fn neg_type(alloc: Global) -> Result<Con, AllocError>
    ensures { IfOk result (λ new. con_tree new ≡ meant.basis_type value.Neg) }
{
    let body = arrow(alloc, var(0), var(0));
    each_type(
        alloc,
        arrow(alloc, basic_at(alloc, symbols::NUM, var(0)), body),
    )
}

/// `t ::: Type -> show t -> t -> string`
fn show_type(alloc: Global) -> Result<Con, AllocError>
    ensures { IfOk result (λ new. con_tree new ≡ meant.basis_type value.Show) }
{
    let body = arrow(alloc, var(0), Ok(string_type()));
    each_type(
        alloc,
        arrow(alloc, basic_at(alloc, symbols::SHOW, var(0)), body),
    )
}

/// `t ::: Type -> (t -> string) -> show t`
fn show_from_type(alloc: Global) -> Result<Con, AllocError>
    ensures { IfOk result (λ new. con_tree new ≡ meant.basis_type value.MkShow) }
{
    let shows = arrow(alloc, var(0), Ok(string_type()));
    each_type(
        alloc,
        arrow(alloc, shows, basic_at(alloc, symbols::SHOW, var(0))),
    )
}

/// `t ::: Type -> (t -> t -> bool) -> eq t`
fn eq_from_type(alloc: Global) -> Result<Con, AllocError>
    ensures { IfOk result (λ new. con_tree new ≡ meant.basis_type value.MkEq) }
{
    let compares = arrow(alloc, var(0), Ok(bool_type()));
    let compares = arrow(alloc, var(0), compares);
    each_type(
        alloc,
        arrow(alloc, compares, basic_at(alloc, symbols::EQ, var(0))),
    )
}

/// `takes -> xml ctx use []`, where the context and the fields have the numbers 1 and 0
fn for_leaf(alloc: Global, takes: Result<Con, AllocError>) -> Result<Con, AllocError>
    ensures { (t : Cn) → Makes takes t
        → Makes result (tree.arrow t (types.xml_of (tree.var 1) (tree.var 0) types.no_types)) }
{
    arrow(alloc, takes, xml(alloc, var(1), var(0), no_fields(alloc)))
}

/// `t ::: Type -> ctx ::: {Unit} -> use ::: {Type} -> show t -> t -> xml ctx use []`
fn txt_type(alloc: Global) -> Result<Con, AllocError>
    ensures { IfOk result (λ new. con_tree new ≡ meant.basis_type value.Txt) }
{
    let body = arrow(
        alloc,
        basic_at(alloc, symbols::SHOW, var(2)),
        for_leaf(alloc, var(2)),
    );
    each_type(alloc, each_context(alloc, each_row(alloc, body)))
}

/// `ctx ::: {Unit} -> use ::: {Type} -> string -> xml ctx use []`
fn cdata_type(alloc: Global) -> Result<Con, AllocError>
    ensures { IfOk result (λ new. con_tree new ≡ meant.basis_type value.Cdata) }
{
    let body = for_leaf(alloc, Ok(string_type()));
    each_context(alloc, each_row(alloc, body))
}

/// `xml ctx u b -> xml ctx (u ++ b) c -> xml ctx u (b ++ c)`, where these have the numbers 3 to 0
fn joins(alloc: Global) -> Result<Con, AllocError>
    ensures { Makes result (types.function
        (types.xml_of (tree.var 3) (tree.var 2) (tree.var 1) ∷ types.xml_of (tree.var 3) (tree.cat (tree.var 2)
        (tree.var 1)) (tree.var 0) ∷ [])
        (types.xml_of (tree.var 3) (tree.var 2) (tree.cat (tree.var 1) (tree.var 0)))) }
{
    let first = xml(alloc, var(3), var(2), var(1));
    let second = xml(alloc, var(3), joined(alloc, var(2), var(1)), var(0));
    let whole = xml(alloc, var(3), var(2), joined(alloc, var(1), var(0)));
    arrow(alloc, first, arrow(alloc, second, whole))
}

/// `ctx ::: {Unit} -> u ::: {Type} -> b ::: {Type} -> c ::: {Type} -> [u ~ b] => [b ~ c] =>`, and
/// then two trees joined
fn join_type(alloc: Global) -> Result<Con, AllocError>
    ensures { IfOk result (λ new. con_tree new ≡ meant.basis_type value.Join) }
{
    let body = guarded(alloc, var(1), var(0), joins(alloc));
    let body = guarded(alloc, var(2), var(1), body);
    let body = each_row(alloc, each_row(alloc, body));
    each_context(alloc, each_row(alloc, body))
}
