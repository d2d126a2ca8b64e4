//! Names in terms.
ghost use Rattle.std.specs.Prelude.{◌≡◌, IfOk};
ghost use Rattle.plain_tree.specs.ExpView as view;
ghost use Rattle.source_names.specs.Scopes.{under_values};
ghost use Rattle.unbound_names.specs.Terms as terms;
ghost use Rattle.unbound_names.specs.View.{around_view, ask_view};

use crate::around::Around;
use crate::asked::{Asked, is_path, is_word};
use crate::cons::{unbound_con, unbound_maybe};
use crate::in_scope::{is_attribute, is_tag, value_in_scope};
use crate::patterns::{
    inside_args, inside_pattern, unbound_args, unbound_constructor, unbound_pat,
};
use plain_tree::{
    Attribute, Attributes, Branch, Branches, Exp, Field, Fields, Form, Item, Items, Link, Links,
    Local, Locals, Named, NamedList, Node, Nodes, Path,
};
use std::alloc::{AllocError, Global};
use table_rows::Text;

/// The name of a value.
pub fn name_of(n: &Named) -> &Text
    ensures { result.now ≡ terms.name_of (view.named_tree n.now) }
{
    &n.name.text
}

/// The scope inside of names that are declared together.
fn inside_group<'p>(alloc: Global, s: &Around<'p>, ns: &NamedList) -> Result<Around<'p>, AllocError>
    ensures { IfOk result (λ r. around_view r ≡
        under_values (terms.group_names (view.named_list_tree ns.now)) (around_view s.now)) }
{
    let mut here = s.share()?;
    for i in 0..ns.items.len() {
        here = here.under_value(alloc, name_of(&ns.items[i]))?;
    }
    Ok(here)
}

/// The scope behind a declaration of a `let`.
fn behind_local<'p>(alloc: Global, s: &Around<'p>, l: &Local) -> Result<Around<'p>, AllocError>
    ensures { IfOk result
        (λ r. around_view r ≡ terms.behind_local (view.local_tree l.now) (around_view s.now)) }
{
    match l {
        Local::Val(_, n) => s.under_value(alloc, name_of(n)),
        Local::ValRec(_, ns) => inside_group(alloc, s, ns),
    }
}

/// The scope behind declarations of a `let`.
fn behind_locals<'p>(alloc: Global, s: &Around<'p>, ls: &Locals) -> Result<Around<'p>, AllocError>
    ensures { IfOk result
        (λ r. around_view r ≡ terms.behind_locals (view.locals_tree ls.now) (around_view s.now)) }
{
    let mut here = s.share()?;
    for i in 0..ls.items.len() {
        here = behind_local(alloc, &here, &ls.items[i])?;
    }
    Ok(here)
}

/// Whether a value at a byte is the one that is asked of, and isn't in scope.
fn unbound_value(q: &Asked<'_>, s: &Around<'_>, at: u32, path: &Path) -> Result<bool, AllocError>
    ensures { IfOk result (λ b. b ≡ terms.unbound_value (ask_view q.now) (around_view s.now) at path.now) }
{
    Ok(is_path(q, at, path)? && !value_in_scope(s, path))
}

/// Whether a tag at a byte is the name that is asked of, and there is none of that name.
fn unbound_tag(q: &Asked<'_>, at: u32, name: &Text) -> bool
    ensures { result ≡ terms.unbound_tag (ask_view q.now) at name.now }
{
    is_word(q, at, name) && !is_tag(name)
}

/// The same for an attribute.
fn unbound_attribute(q: &Asked<'_>, at: u32, name: &Text) -> bool
    ensures { result ≡ terms.unbound_attribute (ask_view q.now) at name.now }
{
    is_word(q, at, name) && !is_attribute(name)
}

/// Whether the name that is asked of stands in a term, and isn't in scope there.
#[cycle(unbound_exp)]
pub fn unbound_exp(q: &Asked<'_>, s: &Around<'_>, e: &Exp) -> Result<bool, AllocError>
    ensures { IfOk result
        (λ b. b ≡ terms.unbound_exp (ask_view q.now) (around_view s.now) (view.exp_tree e.now)) }
{
    match &e.form {
        Form::Name(_, path) => unbound_value(q, s, e.at, path),
        Form::Builder(_, path) => unbound_constructor(q, s, e.at, path),
        Form::Call(head, items) => {
            if unbound_exp(q, s, head)? {
                return Ok(true);
            }
            unbound_items(q, s, items)
        }
        Form::Fn(args, body) => {
            if unbound_args(q, s, args)? {
                return Ok(true);
            }
            let under = inside_args(q.alloc, s, args)?;
            unbound_exp(q, &under, body)
        }
        Form::Case(of, first, more) => {
            if unbound_exp(q, s, of)? {
                return Ok(true);
            }
            if unbound_branch(q, s, first)? {
                return Ok(true);
            }
            unbound_branches(q, s, more)
        }
        Form::Let(locals, body) => {
            if unbound_locals(q, s, locals)? {
                return Ok(true);
            }
            let behind = behind_locals(q.alloc, s, locals)?;
            unbound_exp(q, &behind, body)
        }
        Form::Typed(part, c) => {
            if unbound_exp(q, s, part)? {
                return Ok(true);
            }
            unbound_con(q, s, c)
        }
        Form::Rec(fields) => unbound_fields(q, s, fields),
        Form::Chain(first, links) => {
            if unbound_exp(q, s, first)? {
                return Ok(true);
            }
            unbound_links(q, s, links)
        }
        Form::Xml(nodes) => unbound_nodes(q, s, nodes),
        Form::Int(_) | Form::Words(_) | Form::Basis(_) | Form::Sql(_, _) => Ok(false),
    }
}

/// The same for what a term is applied to.
#[cycle(unbound_exp)]
#[inline(never)]
fn unbound_items(q: &Asked<'_>, s: &Around<'_>, is: &Items) -> Result<bool, AllocError>
    ensures { IfOk result
        (λ b. b ≡ terms.unbound_items (ask_view q.now) (around_view s.now) (view.items_tree is.now)) }
{
    for i in 0..is.items.len() {
        if unbound_item(q, s, &is.items[i])? {
            return Ok(true);
        }
    }
    Ok(false)
}

/// The same for one of these.
#[cycle(unbound_exp)]
fn unbound_item(q: &Asked<'_>, s: &Around<'_>, item: &Item) -> Result<bool, AllocError>
    ensures { IfOk result
        (λ b. b ≡ terms.unbound_item (ask_view q.now) (around_view s.now) (view.item_tree item.now)) }
{
    match item {
        Item::Term(e) => unbound_exp(q, s, e),
        Item::Con(_, c) => unbound_con(q, s, c),
        Item::Guard(_) => Ok(false),
    }
}

/// The same for a branch, whose term sees the variables of its pattern.
#[cycle(unbound_exp)]
#[inline(never)]
fn unbound_branch(q: &Asked<'_>, s: &Around<'_>, b: &Branch) -> Result<bool, AllocError>
    ensures { IfOk result
        (λ r. r ≡ terms.unbound_branch (ask_view q.now) (around_view s.now) (view.branch_tree b.now)) }
{
    if unbound_pat(q, s, &b.pat)? {
        return Ok(true);
    }
    let under = inside_pattern(q.alloc, s, &b.pat)?;
    unbound_exp(q, &under, &b.body)
}

/// The same for branches.
#[cycle(unbound_exp)]
#[inline(never)]
fn unbound_branches(q: &Asked<'_>, s: &Around<'_>, bs: &Branches) -> Result<bool, AllocError>
    ensures { IfOk result
        (λ b. b ≡ terms.unbound_branches (ask_view q.now) (around_view s.now) (view.branches_tree bs.now)) }
{
    for i in 0..bs.items.len() {
        if unbound_branch(q, s, &bs.items[i])? {
            return Ok(true);
        }
    }
    Ok(false)
}

/// The same for declarations of a `let`, each of which sees those before it.
#[cycle(unbound_exp)]
#[inline(never)]
fn unbound_locals(q: &Asked<'_>, s: &Around<'_>, ls: &Locals) -> Result<bool, AllocError>
    ensures { IfOk result
        (λ b. b ≡ terms.unbound_locals (ask_view q.now) (around_view s.now) (view.locals_tree ls.now)) }
{
    let mut here = s.share()?;
    for i in 0..ls.items.len() {
        let local = &ls.items[i];
        if unbound_local(q, &here, local)? {
            return Ok(true);
        }
        here = behind_local(q.alloc, &here, local)?;
    }
    Ok(false)
}

/// The same for a declaration of a `let`.
#[cycle(unbound_exp)]
#[inline(never)]
fn unbound_local(q: &Asked<'_>, s: &Around<'_>, l: &Local) -> Result<bool, AllocError>
    ensures { IfOk result
        (λ b. b ≡ terms.unbound_local (ask_view q.now) (around_view s.now) (view.local_tree l.now)) }
{
    match l {
        Local::Val(_, n) => unbound_named(q, s, n),
        Local::ValRec(_, ns) => {
            let inner = inside_group(q.alloc, s, ns)?;
            unbound_group(q, &inner, ns)
        }
    }
}

/// The same for a name with its term, and its type where that is written.
#[cycle(unbound_exp)]
#[inline(never)]
pub fn unbound_named(q: &Asked<'_>, s: &Around<'_>, n: &Named) -> Result<bool, AllocError>
    ensures { IfOk result
        (λ b. b ≡ terms.unbound_named (ask_view q.now) (around_view s.now) (view.named_tree n.now)) }
{
    if unbound_maybe(q, s, &n.con)? {
        return Ok(true);
    }
    unbound_exp(q, s, &n.exp)
}

/// The same for names that are declared together.
#[cycle(unbound_exp)]
#[inline(never)]
pub fn unbound_group(q: &Asked<'_>, s: &Around<'_>, ns: &NamedList) -> Result<bool, AllocError>
    ensures { IfOk result
        (λ b. b ≡ terms.unbound_group (ask_view q.now) (around_view s.now) (view.named_list_tree ns.now)) }
{
    for i in 0..ns.items.len() {
        if unbound_named(q, s, &ns.items[i])? {
            return Ok(true);
        }
    }
    Ok(false)
}

/// The same for the fields of a record.
#[cycle(unbound_exp)]
#[inline(never)]
fn unbound_fields(q: &Asked<'_>, s: &Around<'_>, fs: &Fields) -> Result<bool, AllocError>
    ensures { IfOk result
        (λ b. b ≡ terms.unbound_fields (ask_view q.now) (around_view s.now) (view.fields_tree fs.now)) }
{
    for i in 0..fs.items.len() {
        if unbound_field(q, s, &fs.items[i])? {
            return Ok(true);
        }
    }
    Ok(false)
}

/// The same for a field of a record.
#[cycle(unbound_exp)]
fn unbound_field(q: &Asked<'_>, s: &Around<'_>, f: &Field) -> Result<bool, AllocError>
    ensures { IfOk result
        (λ b. b ≡ terms.unbound_field (ask_view q.now) (around_view s.now) (view.field_tree f.now)) }
{
    if unbound_con(q, s, &f.name)? {
        return Ok(true);
    }
    unbound_exp(q, s, &f.value)
}

/// The same for what follows a term in a chain.
#[cycle(unbound_exp)]
#[inline(never)]
fn unbound_links(q: &Asked<'_>, s: &Around<'_>, ls: &Links) -> Result<bool, AllocError>
    ensures { IfOk result
        (λ b. b ≡ terms.unbound_links (ask_view q.now) (around_view s.now) (view.links_tree ls.now)) }
{
    for i in 0..ls.items.len() {
        if unbound_link(q, s, &ls.items[i])? {
            return Ok(true);
        }
    }
    Ok(false)
}

/// The same for one of these.
#[cycle(unbound_exp)]
fn unbound_link(q: &Asked<'_>, s: &Around<'_>, l: &Link) -> Result<bool, AllocError>
    ensures { IfOk result
        (λ b. b ≡ terms.unbound_link (ask_view q.now) (around_view s.now) (view.link_tree l.now)) }
{
    match l {
        Link::Infix(_, _, e) => unbound_exp(q, s, e),
        Link::Field(c) => unbound_con(q, s, c),
        Link::Without(_, c) => unbound_con(q, s, c),
        Link::WithoutRow(_, c) => unbound_con(q, s, c),
    }
}

/// The same for what stands in an element, or in a literal of a page.
#[cycle(unbound_exp)]
#[inline(never)]
fn unbound_nodes(q: &Asked<'_>, s: &Around<'_>, ns: &Nodes) -> Result<bool, AllocError>
    ensures { IfOk result
        (λ b. b ≡ terms.unbound_nodes (ask_view q.now) (around_view s.now) (view.nodes_tree ns.now)) }
{
    for i in 0..ns.items.len() {
        if unbound_node(q, s, &ns.items[i])? {
            return Ok(true);
        }
    }
    Ok(false)
}

/// The same for one of these.
#[cycle(unbound_exp)]
#[inline(never)]
fn unbound_node(q: &Asked<'_>, s: &Around<'_>, n: &Node) -> Result<bool, AllocError>
    ensures { IfOk result
        (λ b. b ≡ terms.unbound_node (ask_view q.now) (around_view s.now) (view.node_tree n.now)) }
{
    match n {
        Node::Run(_, _) => Ok(false),
        Node::Exp(_, e) => unbound_exp(q, s, e),
        Node::Element(at, name, c, attributes, content) => {
            if unbound_tag(q, *at, name) {
                return Ok(true);
            }
            if unbound_maybe(q, s, c)? {
                return Ok(true);
            }
            if unbound_attributes(q, s, attributes)? {
                return Ok(true);
            }
            unbound_nodes(q, s, content)
        }
    }
}

/// The same for the attributes of an element.
#[cycle(unbound_exp)]
#[inline(never)]
fn unbound_attributes(q: &Asked<'_>, s: &Around<'_>, xs: &Attributes) -> Result<bool, AllocError>
    ensures { IfOk result
        (λ b. b ≡ terms.unbound_attributes (ask_view q.now) (around_view s.now) (view.attributes_tree xs.now)) }
{
    for i in 0..xs.items.len() {
        if unbound_given(q, s, &xs.items[i])? {
            return Ok(true);
        }
    }
    Ok(false)
}

/// The same for an attribute of an element.
#[cycle(unbound_exp)]
fn unbound_given(q: &Asked<'_>, s: &Around<'_>, x: &Attribute) -> Result<bool, AllocError>
    ensures { IfOk result
        (λ b. b ≡ terms.unbound_given (ask_view q.now) (around_view s.now) (view.attribute_tree x.now)) }
{
    if unbound_attribute(q, x.name.at, &x.name.text) {
        return Ok(true);
    }
    unbound_exp(q, s, &x.value)
}
