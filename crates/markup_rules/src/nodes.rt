//! Nodes beside one another: the fields that they fill together, and what is told of them.
ghost use Rattle.std.specs.Prelude.{◌≡◌, ◌+◌, ◌<◌, None, drop, length, IfOk};
ghost use Rattle.con_terms.specs.Trees.{cat};
ghost use Rattle.con_terms.specs.View.{con_tree};
ghost use Rattle.core_terms.specs.Lists.{node_list, node_tree};
ghost use Rattle.core_terms.specs.View.{maybe_con, nodes_tree};
ghost use Rattle.judgements.specs.View.{sc_view};
ghost use Rattle.markup_rules.specs.Nodes as computed;
ghost use Rattle.markup_rules.specs.View.{forward_tree, judgements_view, nodes_found_tree, one_tree};
ghost use Rattle.row_normal.specs.Ordered.{ordered as in_its_order};
ghost use Rattle.type_faults.specs.View.{maybe_fault};

use crate::judged::{Judgements, is_silent};
use crate::places::{node_fills, node_place};
use con_terms::{Con, Kind, Place};
use core_terms::{Node, Nodes};
use judgements::{Globals, Here, copied, kind_flaw, meets, wants};
use row_normal::ordered;
use std::alloc::{AllocError, Global};
use type_faults::{Fault, first};
use type_makers::{joined, no_types, row_kind, xml_of};

/// What is told of nodes, and the fields that they fill, where all of them are found. Contracts see it as
/// `nodes_found_tree`.
#[derive(Drop)]
pub struct NodesFound {
    pub own: Option<Fault>,
    pub row: Option<Con>,
}

/// Two rows beside one another, in order.
fn both_rows(alloc: Global, a: &Con, b: &Con) -> Result<Con, AllocError>
    ensures { IfOk result (λ new. con_tree new ≡ in_its_order (cat (con_tree a.now) (con_tree b.now))) }
{
    let left = copied(alloc, a)?;
    let right = copied(alloc, b)?;
    let mut both = joined(alloc, left, right)?;
    ordered(alloc, &mut both)?;
    Ok(both)
}

/// What a node tells of itself at a context, with the fields filled before it: whether it is found, whether nodes
/// behind it can be looked at, and what is told. Contracts see it as `one_tree`.
#[derive(Drop)]
struct OneNode {
    found: bool,
    goes_on: bool,
    told: Option<Fault>,
}

/// A node's type at its place, where it has one.
fn at_place(
    alloc: Global,
    g: &Globals,
    s: &Here,
    p: Place,
    context: &Con,
    uses: &Con,
    fills: &Con,
    t: &Option<Con>,
) -> Result<OneNode, AllocError>
    ensures { IfOk result
        (λ o. one_tree o ≡ computed.at_place (sc_view g.now s.now) p (con_tree context.now) (con_tree uses.now)
        (con_tree fills.now) (maybe_con t.now)) }
{
    match t {
        None => Ok(OneNode {
            found: false,
            goes_on: true,
            told: None,
        }),
        Some(t) => {
            let c = copied(alloc, context)?;
            let u = copied(alloc, uses)?;
            let b = copied(alloc, fills)?;
            let wanted = xml_of(alloc, c, u, b)?;
            let told = wants(alloc, g, s, p, &wanted, t)?;
            Ok(OneNode {
                found: is_silent(&told),
                goes_on: true,
                told,
            })
        }
    }
}

/// A node whose fields have to be apart from those before it.
fn with_clash(here: OneNode, clash: Option<Fault>) -> OneNode
    ensures { one_tree result ≡ computed.with_clash (maybe_fault clash) (one_tree here) }
{
    let OneNode {
        found,
        goes_on: _,
        told,
    } = here;
    let is_apart = is_silent(&clash);
    OneNode {
        found: found && is_apart,
        goes_on: true,
        told: first(told, clash),
    }
}

/// A node whose fields have their kind, which stands at a place. They are apart from the fields filled before, where
/// another node stands behind it.
fn kinded_node(
    alloc: Global,
    g: &Globals,
    s: &Here,
    p: Place,
    context: &Con,
    uses: &Con,
    fills: &Con,
    t: &Option<Con>,
    is_last: bool,
) -> Result<OneNode, AllocError>
    ensures { IfOk result
        (λ o. one_tree o ≡ computed.kinded_node (sc_view g.now s.now) p (con_tree context.now) (con_tree uses.now)
        (con_tree fills.now) (maybe_con t.now) is_last) }
{
    let here = at_place(alloc, g, s, p, context, uses, fills, t)?;
    if is_last {
        return Ok(here);
    }
    let clash = meets(alloc, g, s, p, uses, fills)?;
    Ok(with_clash(here, clash))
}

/// A node that stands at a place.
fn node_told(
    alloc: Global,
    g: &Globals,
    s: &Here,
    p: Place,
    context: &Con,
    uses: &Con,
    fills: &Con,
    t: &Option<Con>,
    is_last: bool,
) -> Result<OneNode, AllocError>
    ensures { IfOk result
        (λ o. one_tree o ≡ computed.node_told (sc_view g.now s.now) p (con_tree context.now) (con_tree uses.now)
        (con_tree fills.now) (maybe_con t.now) is_last) }
{
    let rows = row_kind(alloc, Kind::Types)?;
    match kind_flaw(alloc, g, s, p, fills, &rows)? {
        Some(f) => Ok(OneNode {
            found: false,
            goes_on: false,
            told: Some(f),
        }),
        None => kinded_node(alloc, g, s, p, context, uses, fills, t, is_last),
    }
}

/// A node by itself.
fn one_node(
    alloc: Global,
    g: &Globals,
    s: &Here,
    context: &Con,
    uses: &Con,
    node: &Node,
    t: &Option<Con>,
    is_last: bool,
) -> Result<OneNode, AllocError>
    ensures { IfOk result
        (λ o. one_tree o ≡ computed.one_node (sc_view g.now s.now) (con_tree context.now) (con_tree uses.now)
        (node_tree node.now) (maybe_con t.now) is_last) }
{
    node_told(
        alloc,
        g,
        s,
        node_place(node),
        context,
        uses,
        node_fills(node),
        t,
        is_last,
    )
}

/// What the nodes tell from the first to the last: for each whether it is found, up to the last that could be looked
/// at. Contracts see it as `forward_tree`.
#[derive(Drop)]
struct Forward {
    found: Vec<bool>,
    told: Option<Fault>,
}

/// Whether no node stands behind one.
#[tactic(auto, using(crate::proofs::Loops::more_behind, crate::proofs::Loops::no_more_behind))]
fn is_last(nodes: &Nodes, i: usize) -> bool
    requires { i < length (node_list (nodes_tree nodes.now)) }
    ensures { result ≡ computed.none_behind (drop (i + 1) (node_list (nodes_tree nodes.now))) }
{
    let count = nodes.len();
    let next = i + 1;
    if next < count { false } else { true }
}

/// The nodes from the first to the last, each with the fields that are filled before it.
fn going_forward(
    alloc: Global,
    g: &Globals,
    s: &Here,
    context: &Con,
    uses: &Con,
    nodes: &Nodes,
    judged: &Judgements,
) -> Result<Forward, AllocError>
    ensures { IfOk result
        (λ r. forward_tree r ≡ computed.forward (sc_view g.now s.now) (con_tree context.now) (con_tree uses.now) None
        (node_list (nodes_tree nodes.now)) (judgements_view judged.now)) }
{
    let mut found = Vec::new(alloc);
    let mut told = None;
    let mut before = copied(alloc, uses)?;
    for i in 0..nodes.len() {
        if i >= judged.len() {
            return Err(AllocError);
        }
        let node = nodes.at(i);
        let last = is_last(nodes, i);
        let one = one_node(alloc, g, s, context, &before, node, &judged.at(i).ty, last)?;
        let OneNode {
            found: is_found,
            goes_on,
            told: of_node,
        } = one;
        told = first(told, of_node);
        found.push(is_found)?;
        if !goes_on {
            return Ok(Forward { found, told });
        }
        before = both_rows(alloc, &before, node_fills(node))?;
    }
    Ok(Forward { found, told })
}

/// Nodes at a context, with the fields filled before them: what is told of them, and the fields that they fill.
pub fn nodes_found(
    alloc: Global,
    g: &Globals,
    s: &Here,
    context: &Con,
    uses: &Con,
    nodes: &Nodes,
    judged: &Judgements,
) -> Result<NodesFound, AllocError>
    ensures { IfOk result
        (λ r. nodes_found_tree r ≡ computed.nodes_found (sc_view g.now s.now) (con_tree context.now)
        (con_tree uses.now) (node_list (nodes_tree nodes.now)) (judgements_view judged.now)) }
{
    let forward = going_forward(alloc, g, s, context, uses, nodes, judged)?;
    going_backward(alloc, g, s, nodes, forward)
}

/// The fields that a node and those behind it fill, which are apart; none where one isn't found.
fn before_row(
    alloc: Global,
    g: &Globals,
    s: &Here,
    node: &Node,
    is_found: bool,
    behind: &Con,
) -> Result<NodesFound, AllocError>
    ensures { IfOk result
        (λ r. nodes_found_tree r ≡ computed.before_row (sc_view g.now s.now) (node_tree node.now) is_found
        (con_tree behind.now)) }
{
    let fills = node_fills(node);
    match meets(alloc, g, s, node_place(node), fills, behind)? {
        Some(clash) => Ok(NodesFound {
            own: Some(clash),
            row: None,
        }),
        None => {
            if is_found {
                Ok(NodesFound {
                    own: None,
                    row: Some(both_rows(alloc, fills, behind)?),
                })
            } else {
                Ok(NodesFound {
                    own: None,
                    row: None,
                })
            }
        }
    }
}

/// The fields that a node fills; none where it isn't found.
fn last_row(alloc: Global, node: &Node, is_found: bool) -> Result<NodesFound, AllocError>
    ensures { IfOk result (λ r. nodes_found_tree r ≡ computed.last_row (node_tree node.now).0 is_found) }
{
    if is_found {
        Ok(NodesFound {
            own: None,
            row: Some(copied(alloc, node_fills(node))?),
        })
    } else {
        Ok(NodesFound {
            own: None,
            row: None,
        })
    }
}

/// The fields that a node fills, with those behind it where there are nodes.
fn with_before(
    alloc: Global,
    g: &Globals,
    s: &Here,
    node: &Node,
    is_found: bool,
    behind: &Option<Con>,
) -> Result<NodesFound, AllocError>
    ensures { IfOk result
        (λ r. nodes_found_tree r ≡ computed.with_before (sc_view g.now s.now) (node_tree node.now) is_found
        (maybe_con behind.now)) }
{
    match behind {
        None => last_row(alloc, node, is_found),
        Some(row) => before_row(alloc, g, s, node, is_found, row),
    }
}

/// The fields that all nodes fill: none where there is no node.
fn whole(alloc: Global, own: Option<Fault>, behind: Option<Con>) -> Result<NodesFound, AllocError>
    ensures { IfOk result (λ r. nodes_found_tree r ≡ computed.whole (maybe_fault own) (maybe_con behind)) }
{
    match behind {
        None => Ok(NodesFound {
            own,
            row: Some(no_types(alloc)?),
        }),
        Some(row) => Ok(NodesFound {
            own,
            row: Some(row),
        }),
    }
}

/// From the last node to the first: the fields that each and those behind it fill, which are apart.
fn going_backward(
    alloc: Global,
    g: &Globals,
    s: &Here,
    nodes: &Nodes,
    forward: Forward,
) -> Result<NodesFound, AllocError>
    ensures { IfOk result
        (λ r. nodes_found_tree r ≡ computed.after_forward (sc_view g.now s.now) (node_list (nodes_tree nodes.now))
        (forward_tree forward)) }
{
    let Forward { found, told } = forward;
    let mut own = told;
    let mut behind: Option<Con> = None;
    let count = nodes.len();
    for done in 0..count {
        let left = count - 1 - done;
        let node = nodes.at(left);
        if left >= found.len() {
            return Ok(NodesFound { own, row: None });
        }
        let is_found = found[left];
        let one = with_before(alloc, g, s, node, is_found, &behind)?;
        let NodesFound { own: clash, row } = one;
        own = first(own, clash);
        match row {
            None => return Ok(NodesFound { own, row: None }),
            Some(row) => behind = Some(row),
        }
    }
    whole(alloc, own, behind)
}
