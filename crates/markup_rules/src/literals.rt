//! Literals of pages.
ghost use Rattle.std.specs.Prelude.{◌≡◌, IfOk};
ghost use Rattle.con_terms.specs.View.{con_tree};
ghost use Rattle.core_terms.specs.Lists.{node_list};
ghost use Rattle.core_terms.specs.View.{nodes_tree};
ghost use Rattle.judgements.specs.View.{judged_tree, sc_view};
ghost use Rattle.markup_rules.specs.Elements as computed;
ghost use Rattle.markup_rules.specs.View.{judgements_view, literal_tree};

use crate::elements::{row_type, with_terms};
use crate::judged::{Judgements, told_of};
use crate::nodes::{NodesFound, nodes_found};
use crate::standing::rows_told;
use con_terms::{Con, Place};
use core_terms::{Literal, Nodes};
use judgements::{Globals, Here, Judged};
use std::alloc::{AllocError, Global};

/// The row of where a literal stands.
fn context_of(l: &Literal) -> &Con
    ensures { con_tree result.now ≡ (literal_tree l.now).0 }
{
    &l.context
}

/// The fields that are filled before a literal.
fn uses_of(l: &Literal) -> &Con
    ensures { con_tree result.now ≡ (literal_tree l.now).1 }
{
    &l.uses
}

/// A literal's nodes.
fn nodes_of(l: &Literal) -> &Nodes
    ensures { nodes_tree result.now ≡ (literal_tree l.now).2 }
{
    &l.nodes
}

/// A literal whose rows have their kinds.
fn of_nodes(
    alloc: Global,
    g: &Globals,
    s: &Here,
    context: &Con,
    uses: &Con,
    nodes: &Nodes,
    judged: &Judgements,
) -> Result<Judged, AllocError>
    ensures { IfOk result
        (λ j. judged_tree j ≡ computed.literal_nodes (sc_view g.now s.now) (con_tree context.now) (con_tree uses.now)
        (node_list (nodes_tree nodes.now)) (judgements_view judged.now)) }
{
    let found = nodes_found(alloc, g, s, context, uses, nodes, judged)?;
    let NodesFound { own, row } = found;
    let ty = row_type(alloc, context, uses, row)?;
    Ok(Judged { ty, told: own })
}

/// A literal, from what is found for its nodes, without what these tell.
fn literal_found(
    alloc: Global,
    g: &Globals,
    s: &Here,
    p: Place,
    l: &Literal,
    judged: &Judgements,
) -> Result<Judged, AllocError>
    ensures { let t = literal_tree l.now in IfOk result
        (λ j. judged_tree j ≡ computed.literal_found (sc_view g.now s.now) p t.0 t.1 t.2
        (judgements_view judged.now)) }
{
    let context = context_of(l);
    let uses = uses_of(l);
    match rows_told(alloc, g, s, p, context, uses)? {
        Some(f) => Ok(Judged {
            ty: None,
            told: Some(f),
        }),
        None => of_nodes(alloc, g, s, context, uses, nodes_of(l), judged),
    }
}

/// `<xml>..</xml>`, from what is found for its nodes.
pub fn of_literal(
    alloc: Global,
    g: &Globals,
    s: &Here,
    p: Place,
    l: &Literal,
    judged: Judgements,
) -> Result<Judged, AllocError>
    ensures { let t = literal_tree l.now in IfOk result
        (λ j. judged_tree j ≡ computed.of_literal (sc_view g.now s.now) p t.0 t.1 t.2 (judgements_view judged)) }
{
    let found = literal_found(alloc, g, s, p, l, &judged)?;
    Ok(with_terms(told_of(judged), found))
}
