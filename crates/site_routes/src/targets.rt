//! The links and the actions of terms, each by the number of the value that it calls.
ghost use Rattle.std.specs.Prelude.{◌≡◌, ◌++◌, ◌<◌, ℕ, false, length, slice_set};
ghost use Rattle.std.specs.Prelude.{true, get_or, vec_len, map, IfOk, OnOk};
ghost use Rattle.std.specs.List.{flat_map};
ghost use Rattle.core_terms.specs.Lists.{attribute_tree, branch_tree, field_tree, item_tree, local_tree, node_tree};
ghost use Rattle.core_terms.specs.View as tree;
ghost use Rattle.core_typing.specs.Targets as meant;
ghost use Rattle.site_routes.specs.Marking.{TellsNumbers, TellsTargets, Unmarked, attribute_targets, decl_targets};
ghost use Rattle.site_routes.specs.Marking.{item_targets, local_targets, mark_all, mark_numbers};
ghost use Rattle.site_routes.specs.View.{element_tree, targets_view};

use core_terms::{
    AttrName, Attribute, Attributes, Branch, Branches, Decl, Decls, Element, Exp, Exports, Exps,
    Field, Fields, Form, Item, Items, Local, Locals, MOST_NESTED, Named, NamedList, Node, Nodes,
};
use std::alloc::{AllocError, Global};

/// For each value whether a link calls it, and whether an action does.
#[derive(Drop)]
pub struct Targets {
    pub links: Vec<bool>,
    pub actions: Vec<bool>,
}

/// So many marks, all of them off.
fn no_marks(alloc: Global, count: usize) -> Result<Vec<bool>, AllocError>
    ensures len { IfOk result (λ v. length v.items ≡ count) }
    ensures off { IfOk result (λ v. (j : ℕ) → get_or v.items j false ≡ false) }
{
    let mut marks = Vec::with_capacity(alloc, count)?;
    for i in 0..count {
        marks.push(false)?;
    }
    Ok(marks)
}

/// No targets, of so many values.
fn no_targets(alloc: Global, count: usize) -> Result<Targets, AllocError>
    ensures { IfOk result (λ t. Unmarked count (targets_view t)) }
{
    let links = no_marks(alloc, count)?;
    let actions = no_marks(alloc, count)?;
    Ok(Targets { links, actions })
}

/// Marks the values that are exports.
fn mark_exports(exports: &Exports, marks: &mut Vec<bool>)
    ensures { marks.new.items ≡ mark_numbers exports.now.items.items marks.old.items }
{
    for e in 0..exports.items.len() {
        set(marks, exports.items[e] as usize);
    }
}

/// For each of so many values whether it is an export.
pub fn export_marks(alloc: Global, exports: &Exports, count: usize) -> Result<Vec<bool>, AllocError>
    ensures { IfOk result (λ v. TellsNumbers count exports.now.items.items v.items) }
{
    let mut marks = no_marks(alloc, count)?;
    mark_exports(exports, &mut marks);
    Ok(marks)
}

/// The top-level value that a term is.
fn head_of(e: &Exp) -> Option<u32>
    ensures { result ≡ meant.head_of (tree.exp_tree e.now) }
{
    match &e.form {
        Form::Top(i) => Some(*i),
        _ => None,
    }
}

/// The top-level value that a term is, or is a call of.
fn callee(e: &Exp) -> Option<u32>
    ensures { result ≡ meant.callee (tree.exp_tree e.now) }
{
    match &e.form {
        Form::Top(i) => Some(*i),
        Form::Call(f, _, _) => head_of(f),
        _ => None,
    }
}

/// Marks a place of a list, where it has it.
fn set(marks: &mut Vec<bool>, index: usize)
    ensures { marks.new.items ≡ slice_set marks.old.items index true }
{
    if index < marks.len() {
        marks[index] = true;
    }
}

/// Marks a value that a link calls.
fn mark_link(callee: Option<u32>, targets: &mut Targets)
    ensures { targets_view targets.new ≡ mark_all (meant.target_if false callee) (targets_view targets.old) }
{
    match callee {
        None => {}
        Some(i) => set(&mut targets.links, i as usize),
    }
}

/// Marks a value that an action calls.
fn mark_action(callee: Option<u32>, targets: &mut Targets)
    ensures { targets_view targets.new ≡ mark_all (meant.target_if true callee) (targets_view targets.old) }
{
    match callee {
        None => {}
        Some(i) => set(&mut targets.actions, i as usize),
    }
}

/// Marks the value that a link or an action calls.
fn mark(name: AttrName, e: &Exp, targets: &mut Targets)
    ensures { targets_view targets.new
        ≡ mark_all (meant.own_target name (tree.exp_tree e.now)) (targets_view targets.old) }
{
    match name {
        AttrName::Link => mark_link(callee(e), targets),
        AttrName::Action => mark_action(callee(e), targets),
        _ => {}
    }
}

/// Marks the targets of a term. One that is nested deeper than the room counts as want of memory.
#[cycle(mark_term)]
fn mark_term(e: &Exp, targets: &mut Targets, room: u32) -> Result<(), AllocError>
    ensures { OnOk result (targets_view targets.new
        ≡ mark_all (meant.targets (tree.exp_tree e.now)) (targets_view targets.old)) }
{
    if room == 0 {
        return Err(AllocError);
    }
    mark_form(&e.form, targets, room - 1)
}

/// The same by the form of a term.
#[cycle(mark_term)]
fn mark_form(f: &Form, targets: &mut Targets, room: u32) -> Result<(), AllocError>
    ensures { OnOk result (targets_view targets.new
        ≡ mark_all (meant.form_targets (tree.form_tree f.now)) (targets_view targets.old)) }
{
    match f {
        Form::Fn(_, _, b) => mark_term(b, targets, room),
        Form::FnCon(_, _, _, _, b) => mark_term(b, targets, room),
        Form::FnGuard(_, _, b) => mark_term(b, targets, room),
        Form::Typed(b, _) => mark_term(b, targets, room),
        Form::Proj(b, _) => mark_term(b, targets, room),
        Form::Drop(b, _) => mark_term(b, targets, room),
        Form::DropRow(b, _) => mark_term(b, targets, room),
        Form::Call(f, _, is) => mark_call(f, is, targets, room),
        Form::Let(ls, b) => mark_let(ls, b, targets, room),
        Form::Case(m, b, bs) => mark_case(m, b, bs, targets, room),
        Form::Rec(fs) => mark_fields(fs, targets, room),
        Form::Cat(a, b) => mark_two(a, b, targets, room),
        Form::Element(m) => mark_element(m, targets, room),
        Form::Literal(l) => mark_nodes(&l.nodes, targets, room),
        Form::Sql(_, es) => mark_terms(es, targets, room),
        _ => Ok(()),
    }
}

/// The targets of a call.
#[cycle(mark_term)]
#[tactic(auto, using(crate::proofs::Marks::marked_twice))]
fn mark_call(f: &Exp, is: &Items, targets: &mut Targets, room: u32) -> Result<(), AllocError>
    ensures { OnOk result (targets_view targets.new
        ≡ mark_all
        (meant.targets (tree.exp_tree f.now)
        ++ meant.items_targets (tree.items_tree is.now))
        (targets_view targets.old)) }
{
    mark_term(f, targets, room)?;
    mark_items(is, targets, room)
}

/// The targets of a `let`.
#[cycle(mark_term)]
#[tactic(auto, using(crate::proofs::Marks::marked_twice))]
fn mark_let(ls: &Locals, b: &Exp, targets: &mut Targets, room: u32) -> Result<(), AllocError>
    ensures { OnOk result (targets_view targets.new
        ≡ mark_all
        (meant.locals_targets (tree.locals_tree ls.now)
        ++ meant.targets (tree.exp_tree b.now))
        (targets_view targets.old)) }
{
    mark_locals(ls, targets, room)?;
    mark_term(b, targets, room)
}

/// The targets of two terms.
#[cycle(mark_term)]
#[tactic(auto, using(crate::proofs::Marks::marked_twice))]
fn mark_two(a: &Exp, b: &Exp, targets: &mut Targets, room: u32) -> Result<(), AllocError>
    ensures { OnOk result (targets_view targets.new
        ≡ mark_all
        (meant.targets (tree.exp_tree a.now)
        ++ meant.targets (tree.exp_tree b.now))
        (targets_view targets.old)) }
{
    mark_term(a, targets, room)?;
    mark_term(b, targets, room)
}

/// The targets of what branches are for, and of the first.
#[cycle(mark_term)]
#[tactic(auto, using(crate::proofs::Marks::marked_twice))]
fn mark_first(m: &Exp, b: &Branch, targets: &mut Targets, room: u32) -> Result<(), AllocError>
    ensures { OnOk result (targets_view targets.new
        ≡ mark_all
        (meant.targets (tree.exp_tree m.now)
        ++ meant.targets (branch_tree b.now).2)
        (targets_view targets.old)) }
{
    mark_term(m, targets, room)?;
    mark_branch(b, targets, room)
}

/// The targets of a `case`.
#[cycle(mark_term)]
#[tactic(auto, using(crate::proofs::Marks::marked_twice))]
fn mark_case(
    m: &Exp,
    b: &Branch,
    bs: &Branches,
    targets: &mut Targets,
    room: u32,
) -> Result<(), AllocError>
    ensures { OnOk result (targets_view targets.new
        ≡ mark_all
        ((meant.targets (tree.exp_tree m.now)
        ++ meant.targets (branch_tree b.now).2)
        ++ meant.branches_targets (tree.branches_tree bs.now))
        (targets_view targets.old)) }
{
    mark_first(m, b, targets, room)?;
    mark_branches(bs, targets, room)
}

/// The targets of an element's attributes and of what it holds.
#[cycle(mark_term)]
#[tactic(auto, using(crate::proofs::Marks::marked_twice))]
fn mark_parts(
    attributes: &Attributes,
    nodes: &Nodes,
    targets: &mut Targets,
    room: u32,
) -> Result<(), AllocError>
    ensures { OnOk result (targets_view targets.new
        ≡ mark_all
        (meant.attributes_targets (tree.attributes_tree attributes.now)
        ++ meant.nodes_targets (tree.nodes_tree nodes.now))
        (targets_view targets.old)) }
{
    mark_attributes(attributes, targets, room)?;
    mark_nodes(nodes, targets, room)
}

/// The targets of what a term is applied to.
#[cycle(mark_term)]
fn mark_items(is: &Items, targets: &mut Targets, room: u32) -> Result<(), AllocError>
    ensures { OnOk result (targets_view targets.new
        ≡ mark_all (meant.items_targets (tree.items_tree is.now)) (targets_view targets.old)) }
{
    for i in 0..is.items.len() {
        mark_item(&is.items[i], targets, room)?;
    }
    Ok(())
}

/// The targets of one thing that a term is applied to.
#[cycle(mark_term)]
fn mark_item(item: &Item, targets: &mut Targets, room: u32) -> Result<(), AllocError>
    ensures { OnOk result (targets_view targets.new
        ≡ mark_all (item_targets (item_tree item.now)) (targets_view targets.old)) }
{
    match item {
        Item::Term(e) => mark_term(e, targets, room),
        _ => Ok(()),
    }
}

/// The targets of names with their terms.
#[cycle(mark_term)]
fn mark_named(ns: &NamedList, targets: &mut Targets, room: u32) -> Result<(), AllocError>
    ensures { OnOk result (targets_view targets.new
        ≡ mark_all (meant.named_targets (tree.named_list_tree ns.now)) (targets_view targets.old)) }
{
    for i in 0..ns.items.len() {
        mark_name(&ns.items[i], targets, room)?;
    }
    Ok(())
}

/// The targets of one of them.
#[cycle(mark_term)]
fn mark_name(x: &Named, targets: &mut Targets, room: u32) -> Result<(), AllocError>
    ensures { OnOk result (targets_view targets.new
        ≡ mark_all (meant.targets (tree.named_tree x.now).4) (targets_view targets.old)) }
{
    mark_term(&x.exp, targets, room)
}

/// The targets of the declarations of a `let`.
#[cycle(mark_term)]
fn mark_locals(ls: &Locals, targets: &mut Targets, room: u32) -> Result<(), AllocError>
    ensures { OnOk result (targets_view targets.new
        ≡ mark_all (meant.locals_targets (tree.locals_tree ls.now)) (targets_view targets.old)) }
{
    for i in 0..ls.items.len() {
        mark_local(&ls.items[i], targets, room)?;
    }
    Ok(())
}

/// The targets of a declaration of a `let`.
#[cycle(mark_term)]
fn mark_local(l: &Local, targets: &mut Targets, room: u32) -> Result<(), AllocError>
    ensures { OnOk result (targets_view targets.new
        ≡ mark_all (local_targets (local_tree l.now)) (targets_view targets.old)) }
{
    match l {
        Local::Val(n) => mark_term(&n.exp, targets, room),
        Local::ValRec(ns) => mark_named(ns, targets, room),
    }
}

/// The targets of branches.
#[cycle(mark_term)]
fn mark_branches(bs: &Branches, targets: &mut Targets, room: u32) -> Result<(), AllocError>
    ensures { OnOk result (targets_view targets.new
        ≡ mark_all (meant.branches_targets (tree.branches_tree bs.now)) (targets_view targets.old)) }
{
    for i in 0..bs.items.len() {
        mark_branch(&bs.items[i], targets, room)?;
    }
    Ok(())
}

/// The targets of one of them.
#[cycle(mark_term)]
fn mark_branch(x: &Branch, targets: &mut Targets, room: u32) -> Result<(), AllocError>
    ensures { OnOk result (targets_view targets.new
        ≡ mark_all (meant.targets (branch_tree x.now).2) (targets_view targets.old)) }
{
    mark_term(&x.body, targets, room)
}

/// The targets of fields.
#[cycle(mark_term)]
fn mark_fields(fs: &Fields, targets: &mut Targets, room: u32) -> Result<(), AllocError>
    ensures { OnOk result (targets_view targets.new
        ≡ mark_all (meant.fields_targets (tree.fields_tree fs.now)) (targets_view targets.old)) }
{
    for i in 0..fs.items.len() {
        mark_field(&fs.items[i], targets, room)?;
    }
    Ok(())
}

/// The targets of one of them.
#[cycle(mark_term)]
fn mark_field(x: &Field, targets: &mut Targets, room: u32) -> Result<(), AllocError>
    ensures { OnOk result (targets_view targets.new
        ≡ mark_all (meant.targets (field_tree x.now).2) (targets_view targets.old)) }
{
    mark_term(&x.value, targets, room)
}

/// The targets of an element.
#[cycle(mark_term)]
fn mark_element(m: &Element, targets: &mut Targets, room: u32) -> Result<(), AllocError>
    ensures { OnOk result (targets_view targets.new
        ≡ mark_all (meant.element_targets (element_tree m.now)) (targets_view targets.old)) }
{
    mark_parts(&m.attributes, &m.content, targets, room)
}

/// The targets of attributes: of links and actions the values that they call, too.
#[cycle(mark_term)]
fn mark_attributes(all: &Attributes, targets: &mut Targets, room: u32) -> Result<(), AllocError>
    ensures { OnOk result (targets_view targets.new
        ≡ mark_all (meant.attributes_targets (tree.attributes_tree all.now)) (targets_view targets.old)) }
{
    for i in 0..all.items.len() {
        mark_attribute(&all.items[i], targets, room)?;
    }
    Ok(())
}

/// The targets of an attribute.
#[cycle(mark_term)]
#[tactic(auto, using(crate::proofs::Marks::marked_twice))]
fn mark_attribute(a: &Attribute, targets: &mut Targets, room: u32) -> Result<(), AllocError>
    ensures { OnOk result (targets_view targets.new
        ≡ mark_all (attribute_targets (attribute_tree a.now)) (targets_view targets.old)) }
{
    mark(a.name, &a.value, targets);
    mark_term(&a.value, targets, room)
}

/// The targets of nodes.
#[cycle(mark_term)]
fn mark_nodes(ns: &Nodes, targets: &mut Targets, room: u32) -> Result<(), AllocError>
    ensures { OnOk result (targets_view targets.new
        ≡ mark_all (meant.nodes_targets (tree.nodes_tree ns.now)) (targets_view targets.old)) }
{
    for i in 0..ns.items.len() {
        mark_node(&ns.items[i], targets, room)?;
    }
    Ok(())
}

/// The targets of one of them.
#[cycle(mark_term)]
fn mark_node(x: &Node, targets: &mut Targets, room: u32) -> Result<(), AllocError>
    ensures { OnOk result (targets_view targets.new
        ≡ mark_all (meant.targets (node_tree x.now).1) (targets_view targets.old)) }
{
    mark_term(&x.term, targets, room)
}

/// The targets of terms.
#[cycle(mark_term)]
fn mark_terms(es: &Exps, targets: &mut Targets, room: u32) -> Result<(), AllocError>
    ensures { OnOk result (targets_view targets.new
        ≡ mark_all (meant.exps_targets (tree.exps_tree es.now)) (targets_view targets.old)) }
{
    for i in 0..es.items.len() {
        mark_term(&es.items[i], targets, room)?;
    }
    Ok(())
}

/// Marks the targets of a declaration.
fn mark_decl(d: &Decl, targets: &mut Targets) -> Result<(), AllocError>
    ensures { OnOk result (targets_view targets.new
        ≡ mark_all (decl_targets (tree.decl_tree d.now)) (targets_view targets.old)) }
{
    match d {
        Decl::Val(_, n) => mark_term(&n.exp, targets, MOST_NESTED),
        Decl::ValRec(_, ns) => mark_named(ns, targets, MOST_NESTED),
        _ => Ok(()),
    }
}

/// Marks the targets of declarations.
fn mark_decls(decls: &Decls, targets: &mut Targets) -> Result<(), AllocError>
    ensures { OnOk result (targets_view targets.new
        ≡ mark_all (flat_map decl_targets (tree.decls_view decls.now)) (targets_view targets.old)) }
{
    for i in 0..decls.items.len() {
        mark_decl(&decls.items[i], targets)?;
    }
    Ok(())
}

/// The targets of all declarations, of so many values.
pub fn called_by(alloc: Global, decls: &Decls, count: usize) -> Result<Targets, AllocError>
    ensures { IfOk result
        (λ t. TellsTargets count (flat_map decl_targets (tree.decls_view decls.now)) (targets_view t)) }
{
    let mut all = no_targets(alloc, count)?;
    mark_decls(decls, &mut all)?;
    Ok(all)
}
