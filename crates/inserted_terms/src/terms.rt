//! The folders and instances that the calls in a term insert.
ghost use Rattle.std.specs.Prelude.{◌≡◌, IfOk, IfSome, IsTrue};
ghost use Rattle.core_terms.specs.Lists.{attribute_tree, branch_tree, field_tree, item_tree, local_tree, node_tree};
ghost use Rattle.core_terms.specs.View.{attributes_tree, branches_tree, exp_tree, exps_tree, fields_tree};
ghost use Rattle.core_terms.specs.View.{form_tree, items_tree, locals_tree, named_list_tree, named_tree, nodes_tree};
ghost use Rattle.inserted_terms.specs.Chosen as chosen;
ghost use Rattle.inserted_terms.specs.Inside as inside;
ghost use Rattle.inserted_terms.specs.Parts as parts;
ghost use Rattle.inserted_terms.specs.View.{at_view};

use crate::at::At;
use crate::items::are_asked;
use crate::scopes::{inside_named, inside_names, inside_pattern, inside_variable, share};
use core_terms::{
    Attribute, Attributes, Branch, Branches, Exp, Exps, Field, Fields, Form, Item, Items, Local,
    Locals, Named, NamedList, Node, Nodes,
};
use std::alloc::{AllocError, Global};

/// Whether those in a term are chosen by their rules.
#[cycle(term_chosen)]
pub fn term_chosen(alloc: Global, h: &At<'_>, e: &Exp) -> Result<bool, AllocError>
    ensures { IfOk result (λ b. IsTrue b → chosen.Chosen (at_view h.now) (exp_tree e.now)) }
{
    form_chosen(alloc, h, &e.form)
}

/// Whether those in what a term is are.
#[cycle(term_chosen)]
fn form_chosen(alloc: Global, h: &At<'_>, f: &Form) -> Result<bool, AllocError>
    ensures { IfOk result (λ b. IsTrue b → chosen.FormChosen (at_view h.now) (form_tree f.now)) }
{
    match f {
        Form::Var(_)
        | Form::Top(_)
        | Form::Foreign(_)
        | Form::Basis(_)
        | Form::Fold(_)
        | Form::Int(_)
        | Form::Words(_)
        | Form::Build(_, _)
        | Form::Folder(_, _) => Ok(true),
        Form::Fn(q, _, e) => term_chosen(alloc, &inside_pattern(alloc, h, q)?, e),
        Form::FnCon(_, _, _, _, e) => term_chosen(alloc, &inside_variable(alloc, h)?, e),
        Form::FnGuard(_, _, e) => term_chosen(alloc, h, e),
        Form::Call(e, _, is) => {
            if !are_asked(alloc, h, e, is)? {
                return Ok(false);
            }
            if !term_chosen(alloc, h, e)? {
                return Ok(false);
            }
            items_chosen(alloc, h, is)
        }
        Form::Let(ls, e) => match behind_locals(alloc, h, ls)? {
            None => Ok(false),
            Some(inner) => term_chosen(alloc, &inner, e),
        },
        Form::Case(e, b, bs) => {
            if !term_chosen(alloc, h, e)? {
                return Ok(false);
            }
            if !branch_chosen(alloc, h, b)? {
                return Ok(false);
            }
            branches_chosen(alloc, h, bs)
        }
        Form::Typed(e, _) => term_chosen(alloc, h, e),
        Form::Rec(fs) => fields_chosen(alloc, h, fs),
        Form::Proj(e, _) => term_chosen(alloc, h, e),
        Form::Cat(e, d) => {
            if !term_chosen(alloc, h, e)? {
                return Ok(false);
            }
            term_chosen(alloc, h, d)
        }
        Form::Drop(e, _) => term_chosen(alloc, h, e),
        Form::DropRow(e, _) => term_chosen(alloc, h, e),
        Form::Element(m) => {
            if !attributes_chosen(alloc, h, &m.attributes)? {
                return Ok(false);
            }
            nodes_chosen(alloc, h, &m.content)
        }
        Form::Literal(l) => nodes_chosen(alloc, h, &l.nodes),
        Form::Sql(_, es) => all_chosen(alloc, h, es),
    }
}

/// Whether those in the items of a call are.
#[cycle(term_chosen)]
#[tactic(auto, using(crate::proofs::Parts::items_more))]
fn items_chosen(alloc: Global, h: &At<'_>, is: &Items) -> Result<bool, AllocError>
    ensures { IfOk result (λ b. IsTrue b → chosen.ItemsChosen (at_view h.now) (items_tree is.now)) }
{
    for i in 0..is.items.len() {
        if !item_chosen(alloc, h, &is.items[i])? {
            return Ok(false);
        }
    }
    Ok(true)
}

/// Whether those in an item of a call are.
#[cycle(term_chosen)]
fn item_chosen(alloc: Global, h: &At<'_>, i: &Item) -> Result<bool, AllocError>
    ensures { IfOk result (λ b. IsTrue b → parts.ItemChosen (at_view h.now) (item_tree i.now)) }
{
    match i {
        Item::Term(e) => term_chosen(alloc, h, e),
        Item::Con(_, _, _) | Item::Guard(_, _) => Ok(true),
    }
}

/// Whether those in the terms of names are, in the scope of these terms.
#[cycle(term_chosen)]
pub fn names_chosen(alloc: Global, h: &At<'_>, ns: &NamedList) -> Result<bool, AllocError>
    ensures { IfOk result (λ b. IsTrue b → chosen.NamesChosen (at_view h.now) (named_list_tree ns.now)) }
{
    for i in 0..ns.items.len() {
        if !named_chosen(alloc, h, &ns.items[i])? {
            return Ok(false);
        }
    }
    Ok(true)
}

/// Whether those in the term of a name are, in the scope of the term.
#[cycle(term_chosen)]
pub fn named_chosen(alloc: Global, h: &At<'_>, n: &Named) -> Result<bool, AllocError>
    ensures { IfOk result (λ b. IsTrue b → chosen.Chosen (at_view h.now) (named_tree n.now).4) }
{
    term_chosen(alloc, h, &n.exp)
}

/// The scope behind the declarations of a `let`, where those in them are; none where some aren't.
#[cycle(term_chosen)]
#[tactic(auto, using(crate::proofs::Parts::locals_more, crate::proofs::Parts::inside_more))]
fn behind_locals<'p>(alloc: Global, h: &At<'p>, ls: &Locals) -> Result<Option<At<'p>>, AllocError>
    ensures { IfOk result (λ o. IfSome o (λ r. chosen.LocalsChosen (at_view h.now) (locals_tree ls.now)
        × (at_view r ≡ inside.inside_locals (locals_tree ls.now) (at_view h.now)))) }
{
    let mut here = share(h)?;
    for i in 0..ls.items.len() {
        let local = &ls.items[i];
        if !local_chosen(alloc, &here, local)? {
            return Ok(None);
        }
        here = inside_local(alloc, &here, local)?;
    }
    Ok(Some(here))
}

/// Whether those in a declaration of a `let` are.
#[cycle(term_chosen)]
fn local_chosen(alloc: Global, h: &At<'_>, l: &Local) -> Result<bool, AllocError>
    ensures { IfOk result (λ b. IsTrue b → parts.LocalChosen (at_view h.now) (local_tree l.now)) }
{
    match l {
        Local::Val(n) => named_chosen(alloc, h, n),
        Local::ValRec(ns) => names_chosen(alloc, &inside_names(alloc, h, ns)?, ns),
    }
}

/// The scope behind a declaration of a `let`.
fn inside_local<'p>(alloc: Global, h: &At<'p>, l: &Local) -> Result<At<'p>, AllocError>
    ensures { IfOk result (λ r. at_view r ≡ parts.inside_local (local_tree l.now) (at_view h.now)) }
{
    match l {
        Local::Val(n) => inside_named(alloc, h, n),
        Local::ValRec(ns) => inside_names(alloc, h, ns),
    }
}

/// Whether those in the branches of a `case` are.
#[cycle(term_chosen)]
fn branches_chosen(alloc: Global, h: &At<'_>, bs: &Branches) -> Result<bool, AllocError>
    ensures { IfOk result (λ b. IsTrue b → chosen.BranchesChosen (at_view h.now) (branches_tree bs.now)) }
{
    for i in 0..bs.items.len() {
        if !branch_chosen(alloc, h, &bs.items[i])? {
            return Ok(false);
        }
    }
    Ok(true)
}

/// Whether those in a branch of a `case` are.
#[cycle(term_chosen)]
fn branch_chosen(alloc: Global, h: &At<'_>, b: &Branch) -> Result<bool, AllocError>
    ensures { IfOk result (λ r. IsTrue r
        → chosen.Chosen (inside.inside (branch_tree b.now).1 (at_view h.now)) (branch_tree b.now).2) }
{
    term_chosen(alloc, &inside_pattern(alloc, h, &b.pat)?, &b.body)
}

/// Whether those in the fields of a record are.
#[cycle(term_chosen)]
fn fields_chosen(alloc: Global, h: &At<'_>, fs: &Fields) -> Result<bool, AllocError>
    ensures { IfOk result (λ b. IsTrue b → chosen.FieldsChosen (at_view h.now) (fields_tree fs.now)) }
{
    for i in 0..fs.items.len() {
        if !field_chosen(alloc, h, &fs.items[i])? {
            return Ok(false);
        }
    }
    Ok(true)
}

/// Whether those in a field of a record are.
#[cycle(term_chosen)]
fn field_chosen(alloc: Global, h: &At<'_>, f: &Field) -> Result<bool, AllocError>
    ensures { IfOk result (λ b. IsTrue b → chosen.Chosen (at_view h.now) (field_tree f.now).2) }
{
    term_chosen(alloc, h, &f.value)
}

/// Whether those in the attributes of an element are.
#[cycle(term_chosen)]
fn attributes_chosen(alloc: Global, h: &At<'_>, items: &Attributes) -> Result<bool, AllocError>
    ensures { IfOk result (λ b. IsTrue b → chosen.AttributesChosen (at_view h.now) (attributes_tree items.now)) }
{
    for i in 0..items.items.len() {
        if !attribute_chosen(alloc, h, &items.items[i])? {
            return Ok(false);
        }
    }
    Ok(true)
}

/// Whether those in an attribute are.
#[cycle(term_chosen)]
fn attribute_chosen(alloc: Global, h: &At<'_>, a: &Attribute) -> Result<bool, AllocError>
    ensures { IfOk result (λ b. IsTrue b → chosen.Chosen (at_view h.now) (attribute_tree a.now).2) }
{
    term_chosen(alloc, h, &a.value)
}

/// Whether those in the nodes of an element or a literal are.
#[cycle(term_chosen)]
fn nodes_chosen(alloc: Global, h: &At<'_>, xs: &Nodes) -> Result<bool, AllocError>
    ensures { IfOk result (λ b. IsTrue b → chosen.NodesChosen (at_view h.now) (nodes_tree xs.now)) }
{
    for i in 0..xs.items.len() {
        if !node_chosen(alloc, h, &xs.items[i])? {
            return Ok(false);
        }
    }
    Ok(true)
}

/// Whether those in a node are.
#[cycle(term_chosen)]
fn node_chosen(alloc: Global, h: &At<'_>, x: &Node) -> Result<bool, AllocError>
    ensures { IfOk result (λ b. IsTrue b → chosen.Chosen (at_view h.now) (node_tree x.now).1) }
{
    term_chosen(alloc, h, &x.term)
}

/// Whether those in the terms that stand in a query are.
#[cycle(term_chosen)]
fn all_chosen(alloc: Global, h: &At<'_>, es: &Exps) -> Result<bool, AllocError>
    ensures { IfOk result (λ b. IsTrue b → chosen.AllChosen (at_view h.now) (exps_tree es.now)) }
{
    for i in 0..es.items.len() {
        if !term_chosen(alloc, h, &es.items[i])? {
            return Ok(false);
        }
    }
    Ok(true)
}
