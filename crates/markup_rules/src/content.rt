//! What an element holds.
ghost use Rattle.std.specs.Prelude.{◌≡◌, IfOk};
ghost use Rattle.con_terms.specs.View.{con_tree};
ghost use Rattle.core_terms.specs.Lists.{node_list, node_tree};
ghost use Rattle.core_terms.specs.View.{exp_tree, maybe_con, maybe_name, nodes_tree};
ghost use Rattle.judgements.specs.View.{sc_view};
ghost use Rattle.markup_rules.specs.Content as computed;
ghost use Rattle.markup_rules.specs.View.{around_view, judgements_view, nodes_found_tree, words_tree};
ghost use Rattle.type_faults.specs.View.{maybe_fault};
ghost use Rattle.type_makers.specs.Standing.{sort_view, where_of};

use crate::judged::Judgements;
use crate::nodes::{NodesFound, nodes_found};
use crate::places::{node_place, node_term};
use crate::standing::{Around, field_row_of};
use con_terms::{Con, Place};
use core_terms::{BasisName, Exp, Form, InputName, Node, Nodes};
use judgements::{Globals, Here, normal_of, other_form};
use std::alloc::{AllocError, Global};
use type_faults::{Fault, first};
use type_makers::{Standing, TagSort, bool_type, context_row, no_types, string_type, unit_type};

/// A type that isn't this one, which has no values of its own unless this one is such.
fn other_than_unit(alloc: Global, n: &Con) -> Result<Con, AllocError>
    ensures { IfOk result (λ c. con_tree c ≡ computed.other_than_unit (con_tree n.now)) }
{
    match n {
        Con::UnitCon => unit_type(alloc),
        _ => Ok(Con::UnitCon),
    }
}

/// What is told where a node of a type stands and nothing may.
fn not_held(
    alloc: Global,
    g: &Globals,
    s: &Here,
    p: Place,
    t: &Con,
) -> Result<Option<Fault>, AllocError>
    ensures { IfOk result (λ o. maybe_fault o ≡ computed.not_held (sc_view g.now s.now) p (con_tree t.now)) }
{
    match normal_of(alloc, t)? {
        None => Ok(Some(Fault::TooLarge(p))),
        Some(n) => {
            let wanted = other_than_unit(alloc, &n)?;
            Ok(Some(other_form(alloc, g, s, p, wanted, n)?))
        }
    }
}

/// What is told where a node stands and nothing may, where its type is found.
fn node_not_held(
    alloc: Global,
    g: &Globals,
    s: &Here,
    node: &Node,
    t: &Option<Con>,
) -> Result<Option<Fault>, AllocError>
    ensures { IfOk result
        (λ o. maybe_fault o ≡ computed.node_not_held (sc_view g.now s.now) (node_tree node.now)
        (maybe_con t.now)) }
{
    match t {
        None => Ok(None),
        Some(t) => not_held(alloc, g, s, node_place(node), t),
    }
}

/// An element that holds nothing: the fields that it fills are these, where there is no node.
fn holds_nothing(
    alloc: Global,
    g: &Globals,
    s: &Here,
    nodes: &Nodes,
    judged: &Judgements,
    row: Option<Con>,
) -> Result<NodesFound, AllocError>
    ensures { IfOk result
        (λ r. nodes_found_tree r ≡ computed.holds_nothing (sc_view g.now s.now) (node_list (nodes_tree nodes.now))
        (judgements_view judged.now) (maybe_con row)) }
{
    if nodes.len() == 0 {
        return Ok(NodesFound { own: None, row });
    }
    if judged.len() == 0 {
        return Err(AllocError);
    }
    let own = node_not_held(alloc, g, s, nodes.at(0), &judged.at(0).ty)?;
    Ok(NodesFound { own, row: None })
}

/// Whether a name is `cdata` or `txt`.
fn is_text_name(b: BasisName) -> bool
    ensures { result ≡ computed.is_text_name b }
{
    matches!(b, BasisName::Cdata | BasisName::Txt)
}

/// Whether a term is `cdata` or `txt`.
fn is_text_maker(e: &Exp) -> bool
    ensures { result ≡ computed.is_text_maker (exp_tree e.now) }
{
    match &e.form {
        Form::Basis(b) => is_text_name(*b),
        _ => false,
    }
}

/// Whether a term is text alone: a call of `cdata` or of `txt`.
fn is_words(e: &Exp) -> bool
    ensures { result ≡ computed.is_words (exp_tree e.now) }
{
    match &e.form {
        Form::Call(f, _, _) => is_text_maker(f),
        _ => false,
    }
}

/// The type of texts, or another one where this is a basic one.
fn other_than_basic(alloc: Global, n: &Con) -> Result<Con, AllocError>
    ensures { IfOk result (λ c. con_tree c ≡ computed.other_than_basic (con_tree n.now)) }
{
    match n {
        Con::Basic(_) => unit_type(alloc),
        _ => Ok(string_type()),
    }
}

/// What is told of a node in a title that isn't text.
fn no_words(
    alloc: Global,
    g: &Globals,
    s: &Here,
    p: Place,
    t: &Con,
) -> Result<Option<Fault>, AllocError>
    ensures { IfOk result (λ o. maybe_fault o ≡ computed.no_words (sc_view g.now s.now) p (con_tree t.now)) }
{
    match normal_of(alloc, t)? {
        None => Ok(Some(Fault::TooLarge(p))),
        Some(n) => {
            let wanted = other_than_basic(alloc, &n)?;
            Ok(Some(other_form(alloc, g, s, p, wanted, n)?))
        }
    }
}

/// What is told of a node in a title that isn't text, where its type is found.
fn other_told(
    alloc: Global,
    g: &Globals,
    s: &Here,
    p: Place,
    t: &Option<Con>,
) -> Result<Option<Fault>, AllocError>
    ensures { IfOk result (λ o. maybe_fault o ≡ computed.other_told (sc_view g.now s.now) p (maybe_con t.now)) }
{
    match t {
        None => Ok(None),
        Some(t) => no_words(alloc, g, s, p, t),
    }
}

/// Whether all nodes are text, and what is told of the first that isn't. Contracts see it as `words_tree`.
#[derive(Drop)]
struct Words {
    are_all: bool,
    told: Option<Fault>,
}

/// The nodes of a title.
fn words_in(
    alloc: Global,
    g: &Globals,
    s: &Here,
    nodes: &Nodes,
    judged: &Judgements,
) -> Result<Words, AllocError>
    ensures { IfOk result
        (λ r. words_tree r ≡ computed.words_in (sc_view g.now s.now) (node_list (nodes_tree nodes.now))
        (judgements_view judged.now)) }
{
    for i in 0..nodes.len() {
        if i >= judged.len() {
            return Err(AllocError);
        }
        let node = nodes.at(i);
        let found = judged.at(i);
        if !is_words(node_term(node)) {
            let told = other_told(alloc, g, s, node_place(node), &found.ty)?;
            return Ok(Words {
                are_all: false,
                told,
            });
        }
    }
    Ok(Words {
        are_all: true,
        told: None,
    })
}

/// Nodes of a place with a form around or without, with the fields filled before them.
fn nodes_at(
    alloc: Global,
    g: &Globals,
    s: &Here,
    uses: &Con,
    standing: Standing,
    in_form: bool,
    nodes: &Nodes,
    judged: &Judgements,
) -> Result<NodesFound, AllocError>
    ensures { IfOk result
        (λ r. nodes_found_tree r ≡ computed.nodes_at (sc_view g.now s.now) (con_tree uses.now) (where_of standing)
        in_form (node_list (nodes_tree nodes.now)) (judgements_view judged.now)) }
{
    let context = context_row(alloc, standing, in_form)?;
    nodes_found(alloc, g, s, &context, uses, nodes, judged)
}

/// Nodes of a place with a form around or without; where the element stands elsewhere they aren't looked at.
fn within(
    alloc: Global,
    g: &Globals,
    s: &Here,
    uses: &Con,
    standing: Standing,
    around: Around,
    nodes: &Nodes,
    judged: &Judgements,
) -> Result<NodesFound, AllocError>
    ensures { IfOk result
        (λ r. nodes_found_tree r ≡ computed.within (sc_view g.now s.now) (con_tree uses.now) (where_of standing)
        (around_view around) (node_list (nodes_tree nodes.now)) (judgements_view judged.now)) }
{
    match around {
        Around::Elsewhere => Ok(NodesFound {
            own: None,
            row: None,
        }),
        Around::Form => nodes_at(alloc, g, s, uses, standing, true, nodes, judged),
        Around::NoForm => nodes_at(alloc, g, s, uses, standing, false, nodes, judged),
    }
}

/// Nodes of which all have to be text.
fn with_words(words: Words, nodes: NodesFound) -> NodesFound
    ensures { nodes_found_tree result ≡ computed.with_words (words_tree words) (nodes_found_tree nodes) }
{
    let Words { are_all, told } = words;
    let NodesFound { own, row } = nodes;
    let own = first(told, own);
    if are_all {
        NodesFound { own, row }
    } else {
        NodesFound { own, row: None }
    }
}

/// The content of a title.
fn title(
    alloc: Global,
    g: &Globals,
    s: &Here,
    uses: &Con,
    standing: Standing,
    around: Around,
    nodes: &Nodes,
    judged: &Judgements,
) -> Result<NodesFound, AllocError>
    ensures { IfOk result
        (λ r. nodes_found_tree r ≡ computed.title (sc_view g.now s.now) (con_tree uses.now) (where_of standing)
        (around_view around) (node_list (nodes_tree nodes.now)) (judgements_view judged.now)) }
{
    let found = within(alloc, g, s, uses, standing, around, nodes, judged)?;
    let words = words_in(alloc, g, s, nodes, judged)?;
    Ok(with_words(words, found))
}

/// The content of a form, which fills no field outside of it.
fn form(
    alloc: Global,
    g: &Globals,
    s: &Here,
    nodes: &Nodes,
    judged: &Judgements,
) -> Result<NodesFound, AllocError>
    ensures { IfOk result
        (λ r. nodes_found_tree r ≡ computed.form (sc_view g.now s.now) (node_list (nodes_tree nodes.now))
        (judgements_view judged.now)) }
{
    let uses = no_types(alloc)?;
    let found = nodes_at(alloc, g, s, &uses, Standing::Body, true, nodes, judged)?;
    let NodesFound { own, row } = found;
    match row {
        None => Ok(NodesFound { own, row: None }),
        Some(_) => Ok(NodesFound {
            own,
            row: Some(no_types(alloc)?),
        }),
    }
}

/// An element that holds nothing and fills no field.
fn empty(
    alloc: Global,
    g: &Globals,
    s: &Here,
    nodes: &Nodes,
    judged: &Judgements,
) -> Result<NodesFound, AllocError>
    ensures { IfOk result
        (λ r. nodes_found_tree r ≡ computed.empty_content (sc_view g.now s.now) (node_list (nodes_tree nodes.now))
        (judgements_view judged.now)) }
{
    let row = no_types(alloc)?;
    holds_nothing(alloc, g, s, nodes, judged, Some(row))
}

/// An input of a field of this type, which holds nothing.
fn input(
    alloc: Global,
    g: &Globals,
    s: &Here,
    field: &Option<InputName>,
    t: Con,
    nodes: &Nodes,
    judged: &Judgements,
) -> Result<NodesFound, AllocError>
    ensures { IfOk result
        (λ r. nodes_found_tree r ≡ computed.input_content (sc_view g.now s.now) (maybe_name field.now) (con_tree t)
        (node_list (nodes_tree nodes.now)) (judgements_view judged.now)) }
{
    let row = field_row_of(alloc, field, t)?;
    holds_nothing(alloc, g, s, nodes, judged, row)
}

/// What an element holds: what is told of it, and the fields that the element fills.
pub fn content_by(
    alloc: Global,
    g: &Globals,
    s: &Here,
    field: &Option<InputName>,
    uses: &Con,
    standing: Standing,
    around: Around,
    nodes: &Nodes,
    judged: &Judgements,
    sort: TagSort,
) -> Result<NodesFound, AllocError>
    ensures { IfOk result
        (λ r. nodes_found_tree r ≡ computed.content_by (sc_view g.now s.now) (maybe_name field.now)
        (con_tree uses.now) (where_of standing) (around_view around) (node_list (nodes_tree nodes.now))
        (judgements_view judged.now) (sort_view sort)) }
{
    match sort {
        TagSort::Holding(inside) => within(alloc, g, s, uses, inside, around, nodes, judged),
        TagSort::Words => title(alloc, g, s, uses, standing, around, nodes, judged),
        TagSort::Form => form(alloc, g, s, nodes, judged),
        TagSort::Empty => empty(alloc, g, s, nodes, judged),
        TagSort::Button => empty(alloc, g, s, nodes, judged),
        TagSort::TextInput => input(alloc, g, s, field, string_type(), nodes, judged),
        TagSort::TruthInput => input(alloc, g, s, field, bool_type(), nodes, judged),
    }
}
