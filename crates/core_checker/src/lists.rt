//! What is found for a list from what is found for the terms in it, which stand in the list's order.
ghost use Rattle.std.specs.Prelude.{◌≡◌, IfOk};
ghost use Rattle.core_terms.specs.Lists.{field_list, field_tree, item_list, item_tree, name_list};
ghost use Rattle.core_terms.specs.View.{fields_tree, items_tree, named_list_tree, named_tree};
ghost use Rattle.judged_terms.specs.Listed as computed;
ghost use Rattle.judgements.specs.View.{judged_tree, sc_view};
ghost use Rattle.markup_rules.specs.Nodes.{told_of as told_of_all};
ghost use Rattle.markup_rules.specs.View.{judgements_view};
ghost use Rattle.node_rules.specs.View.{found_tree, past_tree, row_tree};
ghost use Rattle.type_faults.specs.View.{maybe_fault};

use crate::places::{field_name, field_place, named_con, named_term, term_place, type_stands};
use con_terms::Place;
use core_terms::{Field, Fields, Item, Items, Named, NamedList};
use judgements::{Globals, Here, Judged};
use markup_rules::Judgements;
use node_rules::{
    Found, Past, Row, no_fields_yet, of_call, of_fields, starts, with_con_item, with_declared,
    with_field, with_guard_item, with_term_item,
};
use std::alloc::{AllocError, Global};
use type_faults::{Fault, first};

/// Behind one more item of a call whose function stands at this place.
fn with_item(
    alloc: Global,
    g: &Globals,
    s: &Here,
    p: Place,
    item: &Item,
    found: Judged,
    past: Past,
) -> Result<Past, AllocError>
    ensures { IfOk result
        (λ r. past_tree r
        ≡ computed.item_found (sc_view g.now s.now) p (item_tree item.now) (judged_tree found) (past_tree past)) }
{
    match item {
        Item::Term(e) => with_term_item(alloc, g, s, p, term_place(e), found, past),
        Item::Con(q, o, c) => with_con_item(alloc, g, s, p, *q, *o, c, past),
        Item::Guard(q, _) => with_guard_item(alloc, g, s, p, *q, past),
    }
}

/// Behind the items of a call.
#[tactic(auto, using(crate::proofs::Listed::items_step, crate::proofs::Listed::items_end))]
fn with_items(
    alloc: Global,
    g: &Globals,
    s: &Here,
    p: Place,
    is: &Items,
    found: Judgements,
    past: Past,
) -> Result<Past, AllocError>
    ensures { IfOk result
        (λ r. past_tree r ≡ computed.items_found
        (sc_view g.now s.now)
        p
        (judgements_view found)
        (item_list (items_tree is.now))
        (past_tree past)) }
{
    let mut now = past;
    let mut i = 0;
    for j in found.items {
        if i >= is.len() {
            return Ok(now);
        }
        now = with_item(alloc, g, s, p, is.at(i), j, now)?;
        i += 1;
    }
    Ok(now)
}

/// A call, from what is found for its head, which stands at this place, and for its items.
pub fn of_items(
    alloc: Global,
    g: &Globals,
    s: &Here,
    p: Place,
    head: Judged,
    is: &Items,
    found: Judgements,
) -> Result<Judged, AllocError>
    ensures { IfOk result
        (λ r. judged_tree r ≡ computed.of_items
        (sc_view g.now s.now)
        p
        (items_tree is.now)
        (judged_tree head)
        (judgements_view found)) }
{
    let past = with_items(alloc, g, s, p, is, found, starts(head))?;
    Ok(of_call(past))
}

/// One more field of a record.
fn with_one_field(
    alloc: Global,
    g: &Globals,
    s: &Here,
    f: &Field,
    found: Judged,
    past: Row,
) -> Result<Row, AllocError>
    ensures { IfOk result
        (λ r. row_tree r
        ≡ computed.field_found (sc_view g.now s.now) (field_tree f.now) (judged_tree found) (row_tree past)) }
{
    with_field(alloc, g, s, field_place(f), field_name(f), found, past)
}

/// The fields of a record, from what is found for them.
#[tactic(auto, using(crate::proofs::Listed::fields_step, crate::proofs::Listed::fields_end))]
fn with_fields(
    alloc: Global,
    g: &Globals,
    s: &Here,
    fs: &Fields,
    found: Judgements,
    past: Row,
) -> Result<Row, AllocError>
    ensures { IfOk result
        (λ r. row_tree r ≡ computed.fields_found
        (sc_view g.now s.now)
        (judgements_view found)
        (field_list (fields_tree fs.now))
        (row_tree past)) }
{
    let mut now = past;
    let mut i = 0;
    for j in found.items {
        if i >= fs.len() {
            return Ok(now);
        }
        now = with_one_field(alloc, g, s, fs.at(i), j, now)?;
        i += 1;
    }
    Ok(now)
}

/// A record, from what is found for its fields.
pub fn of_record(
    alloc: Global,
    g: &Globals,
    s: &Here,
    p: Place,
    fs: &Fields,
    found: Judgements,
) -> Result<Judged, AllocError>
    ensures { IfOk result
        (λ r. judged_tree r
        ≡ computed.of_record (sc_view g.now s.now) p (fields_tree fs.now) (judgements_view found)) }
{
    let past = with_fields(alloc, g, s, fs, found, no_fields_yet(alloc))?;
    of_fields(alloc, g, s, p, past)
}

/// One more name with its type, from what is found for its term.
pub fn with_named(
    alloc: Global,
    g: &Globals,
    s: &Here,
    n: &Named,
    found: Judged,
    past: Found,
) -> Result<Found, AllocError>
    ensures { IfOk result
        (λ r. found_tree r
        ≡ computed.name_found (sc_view g.now s.now) (named_tree n.now) (judged_tree found) (found_tree past)) }
{
    let p = type_stands(n);
    let q = term_place(named_term(n));
    with_declared(alloc, g, s, p, q, named_con(n), found, past)
}

/// Further names with their types, from what is found for their terms.
#[tactic(auto, using(crate::proofs::Listed::names_step, crate::proofs::Listed::names_end))]
pub fn with_names(
    alloc: Global,
    g: &Globals,
    s: &Here,
    ns: &NamedList,
    found: Judgements,
    past: Found,
) -> Result<Found, AllocError>
    ensures { IfOk result
        (λ r. found_tree r ≡ computed.named_found
        (sc_view g.now s.now)
        (named_list_tree ns.now)
        (judgements_view found)
        (found_tree past)) }
{
    let mut now = past;
    let mut i = 0;
    for j in found.items {
        if i >= ns.len() {
            return Ok(now);
        }
        now = with_named(alloc, g, s, ns.at(i), j, now)?;
        i += 1;
    }
    Ok(now)
}

/// The earliest fault that is told of some terms.
fn told_of(found: Judgements) -> Option<Fault>
    ensures { maybe_fault result ≡ told_of_all (judgements_view found) }
{
    let mut told = None;
    for j in found.items {
        let Judged { ty: _, told: other } = j;
        told = first(told, other);
    }
    told
}

/// A form of SQL, for which there is no rule yet, from what is found for its terms.
pub fn of_sql(p: Place, found: Judgements) -> Judged
    ensures { judged_tree result ≡ computed.of_sql p (judgements_view found) }
{
    Judged {
        ty: None,
        told: first(told_of(found), Some(Fault::NotBuilt(p))),
    }
}
