//! The operations on records.
ghost use Rattle.std.specs.Prelude.{◌≡◌, IfOk, IfSome};
ghost use Rattle.con_terms.specs.View.{con_tree, kind_tree};
ghost use Rattle.core_terms.specs.View.{maybe_con};
ghost use Rattle.core_typing.specs.Compared.{field_of, without_pieces as without_those};
ghost use Rattle.judgements.specs.View.{cons_view, forms_tree, judged_tree, maybe_cons, maybe_taken, sc_view};
ghost use Rattle.node_rules.specs.Records as computed;
ghost use Rattle.node_rules.specs.Records.{Glues};
ghost use Rattle.node_rules.specs.View.{op_tree, value_tree};
ghost use Rattle.row_normal.specs.Ordered.{ordered, ordered_pieces};
ghost use Rattle.told_faults.specs.Computed.{record_row};
ghost use Rattle.type_faults.specs.View.{maybe_fault};

use crate::records::{is_kinded, name_flaw};
use con_terms::{Con, Cons, Kind, Place};
use judgements::{
    Forms, Globals, Here, Judged, Taken, both_forms, copied, has_kind, head_of_record, meets,
    no_record, normal_of, other_form, pieces_of, row_of_rest, take_field, without_pieces,
};
use std::alloc::{AllocError, Global};
use type_faults::{Fault, first};
use type_makers::{joined, one_field, record, row_kind};

/// What an operation gives, or what is told where it gives nothing. Contracts see it as `value_tree`.
#[derive(Drop)]
pub struct Value {
    pub ty: Option<Con>,
    pub own: Option<Fault>,
}

/// Nothing, with what is told.
fn no_value(own: Option<Fault>) -> Value
    ensures { value_tree result ≡ computed.no_value (maybe_fault own) }
{
    Value { ty: None, own }
}

/// A type.
fn a_value(t: Con) -> Value
    ensures { value_tree result ≡ computed.a_value (con_tree t) }
{
    Value {
        ty: Some(t),
        own: None,
    }
}

/// What is told where a record lacks the field.
fn no_field(
    alloc: Global,
    g: &Globals,
    s: &Here,
    p: Place,
    name: Con,
    row: Con,
) -> Result<Value, AllocError>
    ensures { IfOk result
        (λ v. value_tree v ≡ computed.lacks_field (sc_view g.now s.now) p (con_tree name) (con_tree row)) }
{
    let one = one_field(alloc, name, Con::UnitCon)?;
    let wanted = record(alloc, one)?;
    let found = record(alloc, row)?;
    Ok(no_value(Some(other_form(alloc, g, s, p, wanted, found)?)))
}

/// An operation on one record.
#[derive(Clone, Copy, PartialEq, Eq)]
pub enum Operation {
    /// `e.c`
    Select,
    /// `e -- c`
    Cut,
    /// `e --- c`
    CutRow,
}

/// The record of what is left.
fn left_of(alloc: Global, rest: Cons) -> Result<Value, AllocError>
    requires { Glues (cons_view rest) }
    ensures { IfOk result (λ v. value_tree v ≡ computed.a_value (computed.left_of (cons_view rest))) }
{
    let row = row_of_rest(alloc, rest)?;
    Ok(a_value(record(alloc, row)?))
}

/// `e.c`, where `e` has a record of this row.
fn selected(
    alloc: Global,
    g: &Globals,
    s: &Here,
    p: Place,
    name: Con,
    row: Con,
    field: Option<Taken>,
) -> Result<Value, AllocError>
    ensures { IfOk result
        (λ v. value_tree v
        ≡ computed.selected (sc_view g.now s.now) p (con_tree name) (con_tree row) (maybe_taken field)) }
{
    match field {
        None => no_field(alloc, g, s, p, name, row),
        Some(Taken { value, rest: _ }) => Ok(a_value(value)),
    }
}

/// `e -- c`, where `e` has a record of this row.
fn cut(
    alloc: Global,
    g: &Globals,
    s: &Here,
    p: Place,
    name: Con,
    row: Con,
    field: Option<Taken>,
) -> Result<Value, AllocError>
    requires { IfSome field (λ t. Glues (cons_view t.rest)) }
    ensures { IfOk result
        (λ v. value_tree v
        ≡ computed.cut (sc_view g.now s.now) p (con_tree name) (con_tree row) (maybe_taken field)) }
{
    match field {
        None => no_field(alloc, g, s, p, name, row),
        Some(Taken { value: _, rest }) => left_of(alloc, rest),
    }
}

/// `e --- c`, where `e` has a record of this row.
fn row_cut(
    alloc: Global,
    g: &Globals,
    s: &Here,
    p: Place,
    out: Con,
    row: Con,
    left: Option<Cons>,
) -> Result<Value, AllocError>
    requires { IfSome left (λ ps. Glues (cons_view ps)) }
    ensures { IfOk result
        (λ v. value_tree v
        ≡ computed.row_cut (sc_view g.now s.now) p (con_tree out) (con_tree row) (maybe_cons left)) }
{
    match left {
        None => {
            let wanted = record(alloc, out)?;
            let found = record(alloc, row)?;
            Ok(no_value(Some(other_form(alloc, g, s, p, wanted, found)?)))
        }
        Some(rest) => left_of(alloc, rest),
    }
}

/// `e.c`, where `e` has a record of this row, whose pieces these are.
fn select_of(
    alloc: Global,
    g: &Globals,
    s: &Here,
    p: Place,
    n: Con,
    row: Con,
    pieces: Cons,
) -> Result<Value, AllocError>
    ensures { IfOk result
        (λ v. value_tree v ≡ computed.selected
        (sc_view g.now s.now)
        p
        (con_tree n)
        (con_tree row)
        (field_of (con_tree n) (cons_view pieces))) }
{
    let field = take_field(alloc, &n, pieces)?;
    selected(alloc, g, s, p, n, row, field)
}

/// `e -- c`, where `e` has a record of this row, whose pieces these are.
#[tactic(auto, using(crate::proofs::LeftInOrder::taken_glues))]
fn cut_of(
    alloc: Global,
    g: &Globals,
    s: &Here,
    p: Place,
    n: Con,
    row: Con,
    pieces: Cons,
) -> Result<Value, AllocError>
    requires row { ordered (con_tree row) ≡ con_tree row }
    requires pieces { cons_view pieces ≡ ordered_pieces (con_tree row) }
    ensures { IfOk result
        (λ v. value_tree v ≡ computed.cut
        (sc_view g.now s.now)
        p
        (con_tree n)
        (con_tree row)
        (field_of (con_tree n) (cons_view pieces))) }
{
    let field = take_field(alloc, &n, pieces)?;
    cut(alloc, g, s, p, n, row, field)
}

/// `e --- c`, where `e` has a record of this row, whose pieces these are.
#[tactic(auto, using(crate::proofs::LeftInOrder::left_glues))]
fn row_cut_of(
    alloc: Global,
    g: &Globals,
    s: &Here,
    p: Place,
    n: Con,
    row: Con,
    pieces: Cons,
) -> Result<Value, AllocError>
    requires form { ordered (con_tree n) ≡ con_tree n }
    requires row { ordered (con_tree row) ≡ con_tree row }
    requires pieces { cons_view pieces ≡ ordered_pieces (con_tree row) }
    ensures { IfOk result
        (λ v. value_tree v ≡ computed.row_cut
        (sc_view g.now s.now)
        p
        (con_tree n)
        (con_tree row)
        (without_those (ordered_pieces (con_tree n)) (cons_view pieces))) }
{
    let out = pieces_of(alloc, &n)?;
    let left = without_pieces(alloc, &out, pieces)?;
    row_cut(alloc, g, s, p, n, row, left)
}

/// An operation with the normal form of its constructor, on a record of a row.
fn on_row(
    alloc: Global,
    g: &Globals,
    s: &Here,
    p: Place,
    does: Operation,
    n: Con,
    row: Con,
) -> Result<Value, AllocError>
    requires form { ordered (con_tree n) ≡ con_tree n }
    requires row { ordered (con_tree row) ≡ con_tree row }
    ensures { IfOk result
        (λ v. value_tree v
        ≡ computed.on_row (op_tree does) (sc_view g.now s.now) p (con_tree n) (con_tree row)) }
{
    let pieces = pieces_of(alloc, &row)?;
    match does {
        Operation::Select => select_of(alloc, g, s, p, n, row, pieces),
        Operation::Cut => cut_of(alloc, g, s, p, n, row, pieces),
        Operation::CutRow => row_cut_of(alloc, g, s, p, n, row, pieces),
    }
}

/// An operation with the normal forms of a type and of its constructor.
#[tactic(auto, using(crate::proofs::LeftInOrder::row_stays))]
fn on_head(
    alloc: Global,
    g: &Globals,
    s: &Here,
    p: Place,
    does: Operation,
    left: Con,
    right: Con,
) -> Result<Value, AllocError>
    requires left { ordered (con_tree left) ≡ con_tree left }
    requires right { ordered (con_tree right) ≡ con_tree right }
    ensures { IfOk result
        (λ v. value_tree v ≡ computed.on_head
        (op_tree does)
        (sc_view g.now s.now)
        p
        (con_tree right)
        (record_row (con_tree left))) }
{
    match head_of_record(left) {
        None => Ok(no_value(None)),
        Some(row) => on_row(alloc, g, s, p, does, right, row),
    }
}

/// An operation on a type, where its constructor has its kind.
fn on_forms(
    alloc: Global,
    g: &Globals,
    s: &Here,
    p: Place,
    does: Operation,
    f: Option<Forms>,
) -> Result<Value, AllocError>
    requires left { IfSome f (λ f. ordered (con_tree f.left) ≡ con_tree f.left) }
    requires right { IfSome f (λ f. ordered (con_tree f.right) ≡ con_tree f.right) }
    ensures { IfOk result
        (λ v. value_tree v ≡ computed.on_forms (op_tree does) (sc_view g.now s.now) p (forms_tree f)) }
{
    match f {
        None => Ok(no_value(Some(Fault::TooLarge(p)))),
        Some(Forms { left, right }) => on_head(alloc, g, s, p, does, left, right),
    }
}

/// An operation on a type with this normal form, from the kind of its constructor.
fn on_form(
    alloc: Global,
    g: &Globals,
    s: &Here,
    p: Place,
    does: Operation,
    c: &Con,
    t: &Con,
    is_kinded: bool,
    n: Option<Con>,
) -> Result<Value, AllocError>
    ensures { IfOk result
        (λ v. value_tree v ≡ computed.on_form
        (op_tree does)
        (sc_view g.now s.now)
        p
        (con_tree c.now)
        (con_tree t.now)
        is_kinded
        (maybe_con n)) }
{
    match n {
        Some(Con::Record(_)) => {
            if is_kinded {
                let f = both_forms(alloc, t, c)?;
                on_forms(alloc, g, s, p, does, f)
            } else {
                Ok(no_value(None))
            }
        }
        _ => Ok(no_value(None)),
    }
}

/// The kind of the operation's constructor.
fn kind_for(alloc: Global, does: Operation) -> Result<Kind, AllocError>
    ensures { IfOk result (λ k. kind_tree k ≡ computed.kind_for (op_tree does)) }
{
    match does {
        Operation::Select => Ok(Kind::Names),
        Operation::Cut => Ok(Kind::Names),
        Operation::CutRow => row_kind(alloc, Kind::Types),
    }
}

/// `e.c`, `e -- c` and `e --- c`, from what is found for `e`, which stands at `q`.
pub fn of_operation(
    alloc: Global,
    g: &Globals,
    s: &Here,
    p: Place,
    q: Place,
    does: Operation,
    c: &Con,
    j: Judged,
) -> Result<Judged, AllocError>
    ensures { IfOk result
        (λ r. judged_tree r ≡ computed.of_operation
        (op_tree does)
        (sc_view g.now s.now)
        p
        q
        (con_tree c.now)
        (judged_tree j)) }
{
    let Judged { ty, told } = j;
    let k = has_kind(alloc, s, c, &kind_for(alloc, does)?)?;
    let has_its_kind = is_kinded(&k);
    let flaw = name_flaw(alloc, g, s, p, k)?;
    match ty {
        None => Ok(Judged {
            ty: None,
            told: first(told, first(None, first(flaw, None))),
        }),
        Some(t) => {
            let n = normal_of(alloc, &t)?;
            let form = maybe_copied(alloc, &n)?;
            let Value { ty, own } = on_form(alloc, g, s, p, does, c, &t, has_its_kind, form)?;
            let no = no_record(alloc, g, s, q, n)?;
            Ok(Judged {
                ty,
                told: first(told, first(no, first(flaw, own))),
            })
        }
    }
}

/// A copy of a type, where there is one.
fn maybe_copied(alloc: Global, t: &Option<Con>) -> Result<Option<Con>, AllocError>
    ensures { IfOk result (λ o. maybe_con o ≡ maybe_con t.now) }
{
    match t {
        None => Ok(None),
        Some(t) => Ok(Some(copied(alloc, t)?)),
    }
}

/// The row of a type's normal form, where that is a record.
fn row_of_form(n: Option<Con>) -> Option<Con>
    ensures { maybe_con result ≡ computed.row_of_form (maybe_con n) }
{
    match n {
        None => None,
        Some(n) => head_of_record(n),
    }
}

/// The row of both, unless a fault is told.
fn unless_meet(alloc: Global, r: Con, t: Con, own: Option<Fault>) -> Result<Value, AllocError>
    ensures { IfOk result
        (λ v. value_tree v ≡ computed.unless_meet (con_tree r) (con_tree t) (maybe_fault own)) }
{
    match own {
        None => Ok(a_value(record(alloc, joined(alloc, r, t)?)?)),
        Some(f) => Ok(no_value(Some(f))),
    }
}

/// The record of two rows, where both are there and are apart.
fn of_rows(
    alloc: Global,
    g: &Globals,
    s: &Here,
    p: Place,
    r: Option<Con>,
    t: Option<Con>,
) -> Result<Value, AllocError>
    ensures { IfOk result
        (λ v. value_tree v ≡ computed.of_rows (sc_view g.now s.now) p (maybe_con r) (maybe_con t)) }
{
    match r {
        None => Ok(no_value(None)),
        Some(r) => match t {
            None => Ok(no_value(None)),
            Some(t) => {
                let own = meets(alloc, g, s, p, &r, &t)?;
                unless_meet(alloc, r, t, own)
            }
        },
    }
}

/// What a part of `++` has: its row, where it is a record, or what is told of it.
#[derive(Drop)]
struct Side {
    row: Option<Con>,
    own: Option<Fault>,
}

/// A part of `++`, which stands at `q`, from its type.
fn side_of(
    alloc: Global,
    g: &Globals,
    s: &Here,
    q: Place,
    ty: Option<Con>,
) -> Result<Side, AllocError>
    ensures row { IfOk result (λ r. maybe_con r.row ≡ computed.row_of_type (maybe_con ty)) }
    ensures own { IfOk result
        (λ r. maybe_fault r.own ≡ computed.record_told (sc_view g.now s.now) q (maybe_con ty)) }
{
    match ty {
        None => Ok(Side {
            row: None,
            own: None,
        }),
        Some(t) => {
            let n = normal_of(alloc, &t)?;
            let row = row_of_form(maybe_copied(alloc, &n)?);
            Ok(Side {
                row,
                own: no_record(alloc, g, s, q, n)?,
            })
        }
    }
}

/// `e ++ d`, from what is found for both, which stand at `q` and at `r`.
pub fn of_concat(
    alloc: Global,
    g: &Globals,
    s: &Here,
    p: Place,
    q: Place,
    r: Place,
    j: Judged,
    k: Judged,
) -> Result<Judged, AllocError>
    ensures { IfOk result
        (λ d. judged_tree d
        ≡ computed.of_concat (sc_view g.now s.now) p q r (judged_tree j) (judged_tree k)) }
{
    let Judged { ty: left_ty, told } = j;
    let Judged {
        ty: right_ty,
        told: right_told,
    } = k;
    let Side {
        row: left,
        own: left_own,
    } = side_of(alloc, g, s, q, left_ty)?;
    let Side {
        row: right,
        own: right_own,
    } = side_of(alloc, g, s, r, right_ty)?;
    let Value { ty, own } = of_rows(alloc, g, s, p, left, right)?;
    Ok(Judged {
        ty,
        told: first(
            first(told, right_told),
            first(left_own, first(right_own, own)),
        ),
    })
}
