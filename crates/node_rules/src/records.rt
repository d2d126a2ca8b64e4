//! Records: the row of the fields that have types.
ghost use Rattle.std.specs.Prelude.{◌≡◌, IfOk};
ghost use Rattle.con_terms.specs.Trees.{pair_list};
ghost use Rattle.con_terms.specs.View.{con_tree, kind_tree, pairs_from, pairs_tree};
ghost use Rattle.core_terms.specs.Types.{type_row};
ghost use Rattle.core_terms.specs.View.{maybe_con};
ghost use Rattle.judgements.specs.View.{judged_tree, sc_view};
ghost use Rattle.kind_rules.specs.View.{found};
ghost use Rattle.node_rules.specs.Records as computed;
ghost use Rattle.node_rules.specs.View.{maybe_pairs, row_tree};
ghost use Rattle.told_faults.specs.Computed.{flawed};
ghost use Rattle.type_faults.specs.View.{maybe_fault};

use con_terms::{Con, Kind, Pair, Pairs, Place};
use judgements::{Globals, Here, Judged, copied, flaw_at, has_kind};
use kind_rules::Flaw;
use std::alloc::{AllocError, Global};
use type_faults::{Fault, first};
use type_makers::{record, row_kind};

/// The fields that have types so far, where all do; what is told of their terms, and of their names. Contracts see it
/// as `row_tree`.
#[derive(Drop)]
pub struct Row {
    pub row: Option<Pairs>,
    pub kids: Option<Fault>,
    pub own: Option<Fault>,
}

/// Before the first field.
pub fn no_fields_yet(alloc: Global) -> Row
    ensures { row_tree result ≡ computed.no_fields_yet }
{
    Row {
        row: Some(Pairs::new(alloc)),
        kids: None,
        own: None,
    }
}

/// The fields with one more, where its term has a type.
fn with_value(
    alloc: Global,
    n: &Con,
    t: Option<Con>,
    done: Pairs,
) -> Result<Option<Pairs>, AllocError>
    ensures { IfOk result
        (λ r. maybe_pairs r
        ≡ computed.with_value (con_tree n.now) (maybe_con t) (pair_list (pairs_tree done))) }
{
    match t {
        None => Ok(None),
        Some(value) => {
            let mut all = done;
            let name = copied(alloc, n)?;
            all.push(Pair { name, value })?;
            Ok(Some(all))
        }
    }
}

/// The fields with one more, where its name is one and its term has a type.
fn with_kinded(
    alloc: Global,
    n: &Con,
    is_name: bool,
    t: Option<Con>,
    row: Option<Pairs>,
) -> Result<Option<Pairs>, AllocError>
    ensures { IfOk result
        (λ r. maybe_pairs r
        ≡ computed.with_kinded (con_tree n.now) is_name (maybe_con t) (maybe_pairs row)) }
{
    if !is_name {
        return Ok(None);
    }
    match row {
        None => Ok(None),
        Some(done) => with_value(alloc, n, t, done),
    }
}

/// Whether a constructor has its kind.
pub fn is_kinded(k: &Result<Kind, Flaw>) -> bool
    ensures { result ≡ computed.is_kinded (found kind_tree k.now) }
{
    match k {
        Ok(_) => true,
        Err(_) => false,
    }
}

/// What a name's kind tells.
pub fn name_flaw(
    alloc: Global,
    g: &Globals,
    s: &Here,
    q: Place,
    k: Result<Kind, Flaw>,
) -> Result<Option<Fault>, AllocError>
    ensures { IfOk result
        (λ o. maybe_fault o ≡ flawed (sc_view g.now s.now) q (found kind_tree k)) }
{
    match k {
        Ok(_) => Ok(None),
        Err(flaw) => Ok(Some(flaw_at(alloc, g, s, q, flaw)?)),
    }
}

/// One more field, which stands at `q`, from its name's kind: its name, and what is found for its term.
fn with_known(
    alloc: Global,
    g: &Globals,
    s: &Here,
    q: Place,
    n: &Con,
    k: Result<Kind, Flaw>,
    j: Judged,
    past: Row,
) -> Result<Row, AllocError>
    ensures { IfOk result
        (λ r. row_tree r
        ≡ computed.with_known
        (sc_view g.now s.now)
        q
        (con_tree n.now)
        (found kind_tree k)
        (judged_tree j)
        (row_tree past)) }
{
    let Judged { ty, told } = j;
    let Row { row, kids, own } = past;
    let is_name = is_kinded(&k);
    let flaw = name_flaw(alloc, g, s, q, k)?;
    Ok(Row {
        row: with_kinded(alloc, n, is_name, ty, row)?,
        kids: first(kids, told),
        own: first(own, flaw),
    })
}

/// One more field, which stands at `q`: its name, and what is found for its term.
pub fn with_field(
    alloc: Global,
    g: &Globals,
    s: &Here,
    q: Place,
    n: &Con,
    j: Judged,
    past: Row,
) -> Result<Row, AllocError>
    ensures { IfOk result
        (λ r. row_tree r
        ≡ computed.with_field (sc_view g.now s.now) q (con_tree n.now) (judged_tree j) (row_tree past)) }
{
    let k = has_kind(alloc, s, n, &Kind::Names)?;
    with_known(alloc, g, s, q, n, k, j, past)
}

/// A record of this row, from the row's kind.
fn of_whole(
    alloc: Global,
    g: &Globals,
    s: &Here,
    p: Place,
    kids: Option<Fault>,
    own: Option<Fault>,
    r: Con,
    k: Result<Kind, Flaw>,
) -> Result<Judged, AllocError>
    ensures { IfOk result
        (λ j. judged_tree j ≡ computed.of_whole
        (sc_view g.now s.now)
        p
        (maybe_fault kids)
        (maybe_fault own)
        (con_tree r)
        (found kind_tree k)) }
{
    match k {
        Err(flaw) => {
            let whole = flaw_at(alloc, g, s, p, flaw)?;
            Ok(Judged {
                ty: None,
                told: first(kids, first(own, Some(whole))),
            })
        }
        Ok(_) => Ok(Judged {
            ty: Some(record(alloc, r)?),
            told: first(kids, own),
        }),
    }
}

/// A row of types.
fn row_of(alloc: Global, fields: Pairs) -> Result<Con, AllocError>
    ensures { IfOk result (λ c. con_tree c ≡ type_row (pairs_tree fields)) }
{
    Ok(Con::Row(Box::new(alloc, Kind::Types)?, fields))
}

/// A row of types, from its fields in order.
fn listed_row(alloc: Global, fields: Pairs) -> Result<Con, AllocError>
    ensures { IfOk result (λ c. con_tree c ≡ type_row (pairs_from (pair_list (pairs_tree fields)))) }
{
    row_of(alloc, fields)
}

/// `{n = e, ..}`, from what is found for its fields.
pub fn of_fields(
    alloc: Global,
    g: &Globals,
    s: &Here,
    p: Place,
    fields: Row,
) -> Result<Judged, AllocError>
    ensures { IfOk result (λ j. judged_tree j ≡ computed.of_fields (sc_view g.now s.now) p (row_tree fields)) }
{
    let Row { row, kids, own } = fields;
    match row {
        None => Ok(Judged {
            ty: None,
            told: first(kids, own),
        }),
        Some(fields) => {
            let r = listed_row(alloc, fields)?;
            let k = has_kind(alloc, s, &r, &row_kind(alloc, Kind::Types)?)?;
            of_whole(alloc, g, s, p, kids, own, r, k)
        }
    }
}
