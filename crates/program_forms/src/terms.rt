//! The names and literals of terms.
ghost use Rattle.std.specs.Prelude.{IsTrue, ◌<◌};
ghost use Rattle.core_terms.specs.Leaves.{AttributesFit, BranchesFit, ElementFits, FieldNameThere, FieldsFit};
ghost use Rattle.core_terms.specs.Leaves.{FormFits, ItemsFit, LocalsFit, NamedFit, NamesThere, NodesFit};
ghost use Rattle.core_terms.specs.Leaves.{PatternFits, TermFits, TermsFit};
ghost use Rattle.core_terms.specs.Lists.{attribute_tree, branch_tree, field_tree, item_tree, local_tree, node_tree};
ghost use Rattle.core_terms.specs.View.{attributes_tree, branches_tree, exp_tree, exps_tree, fields_tree};
ghost use Rattle.core_terms.specs.View.{form_tree, items_tree, locals_tree, maybe_name, named_list_tree};
ghost use Rattle.core_terms.specs.View.{named_tree, nodes_tree};
ghost use Rattle.program_forms.specs.Parts.{ItemFits, LocalFits};
ghost use Rattle.program_forms.specs.Elements.{element_tree};

use crate::constructors::{field_names_there, names_there};
use crate::literals::{number_fits, text_fits};
use crate::patterns::pattern_fits;
use core_terms::{
    Attribute, Attributes, Branch, Branches, Element, Exp, Exps, Field, Fields, Form, InputName,
    Item, Items, Local, Locals, Named, NamedList, Node, Nodes,
};

/// Whether each name in a term is one of so many symbols.
#[cycle(term_fits)]
pub fn term_fits(count: usize, e: &Exp) -> bool
    ensures { IsTrue result → TermFits count (exp_tree e.now) }
{
    form_fits(count, &e.form)
}

/// Whether so is each in what a term is.
#[cycle(term_fits)]
fn form_fits(count: usize, f: &Form) -> bool
    ensures { IsTrue result → FormFits count (form_tree f.now) }
{
    match f {
        Form::Var(_)
        | Form::Top(_)
        | Form::Foreign(_)
        | Form::Basis(_)
        | Form::Fold(_)
        | Form::Build(_, _) => true,
        Form::Int(z) => number_fits(z),
        Form::Words(t) => text_fits(t),
        Form::Fn(p, t, e) => {
            pattern_fits(count, p) && names_there(count, t) && term_fits(count, e)
        }
        Form::FnCon(x, _, _, _, e) => (x.number as usize) < count && term_fits(count, e),
        Form::FnGuard(c, d, e) => {
            names_there(count, c) && names_there(count, d) && term_fits(count, e)
        }
        Form::Call(e, _, is) => term_fits(count, e) && items_fit(count, is),
        Form::Let(ls, e) => locals_fit(count, ls) && term_fits(count, e),
        Form::Case(e, b, bs) => {
            term_fits(count, e) && branch_fits(count, b) && branches_fit(count, bs)
        }
        Form::Typed(e, t) => term_fits(count, e) && names_there(count, t),
        Form::Rec(fs) => fields_fit(count, fs),
        Form::Proj(e, c) => term_fits(count, e) && names_there(count, c),
        Form::Cat(e, d) => term_fits(count, e) && term_fits(count, d),
        Form::Drop(e, c) => term_fits(count, e) && names_there(count, c),
        Form::DropRow(e, c) => term_fits(count, e) && names_there(count, c),
        Form::Folder(_, ps) => field_names_there(count, ps),
        Form::Element(m) => element_fits(count, m),
        Form::Literal(l) => {
            names_there(count, &l.context)
                && names_there(count, &l.uses)
                && nodes_fit(count, &l.nodes)
        }
        Form::Sql(_, es) => terms_fit(count, es),
    }
}

/// Whether so is each in the items of a call.
#[cycle(term_fits)]
#[tactic(auto, using(crate::proofs::Parts::items_more))]
fn items_fit(count: usize, is: &Items) -> bool
    ensures { IsTrue result → ItemsFit count (items_tree is.now) }
{
    for i in 0..is.items.len() {
        if !item_fits(count, &is.items[i]) {
            return false;
        }
    }
    true
}

/// Whether so is each in an item of a call.
#[cycle(term_fits)]
fn item_fits(count: usize, i: &Item) -> bool
    ensures { IsTrue result → ItemFits count (item_tree i.now) }
{
    match i {
        Item::Term(e) => term_fits(count, e),
        Item::Con(_, _, c) => names_there(count, c),
        Item::Guard(_, _) => true,
    }
}

/// Whether so is a name, and each in its term and its type.
#[cycle(term_fits)]
pub fn named_fits(count: usize, x: &Named) -> bool
    ensures { IsTrue result
        → ((named_tree x.now).1 < count) × NamesThere count (named_tree x.now).3
        × TermFits count (named_tree x.now).4 }
{
    (x.name.number as usize) < count && names_there(count, &x.con) && term_fits(count, &x.exp)
}

/// Whether so is each of the names, and each in their terms and types.
#[cycle(term_fits)]
pub fn named_fit(count: usize, ns: &NamedList) -> bool
    ensures { IsTrue result → NamedFit count (named_list_tree ns.now) }
{
    for i in 0..ns.items.len() {
        if !named_fits(count, &ns.items[i]) {
            return false;
        }
    }
    true
}

/// Whether so is each in the declarations of a `let`.
#[cycle(term_fits)]
#[tactic(auto, using(crate::proofs::Parts::locals_more))]
fn locals_fit(count: usize, ls: &Locals) -> bool
    ensures { IsTrue result → LocalsFit count (locals_tree ls.now) }
{
    for i in 0..ls.items.len() {
        if !local_fits(count, &ls.items[i]) {
            return false;
        }
    }
    true
}

/// Whether so is each in a declaration of a `let`.
#[cycle(term_fits)]
fn local_fits(count: usize, l: &Local) -> bool
    ensures { IsTrue result → LocalFits count (local_tree l.now) }
{
    match l {
        Local::Val(n) => named_fits(count, n),
        Local::ValRec(ns) => named_fit(count, ns),
    }
}

/// Whether so is each in the branches of a `case`.
#[cycle(term_fits)]
fn branches_fit(count: usize, bs: &Branches) -> bool
    ensures { IsTrue result → BranchesFit count (branches_tree bs.now) }
{
    for i in 0..bs.items.len() {
        if !branch_fits(count, &bs.items[i]) {
            return false;
        }
    }
    true
}

/// Whether so is each in a branch of a `case`.
#[cycle(term_fits)]
fn branch_fits(count: usize, b: &Branch) -> bool
    ensures { IsTrue result → PatternFits count (branch_tree b.now).1 × TermFits count (branch_tree b.now).2 }
{
    pattern_fits(count, &b.pat) && term_fits(count, &b.body)
}

/// Whether so is each in the fields of a record.
#[cycle(term_fits)]
fn fields_fit(count: usize, fs: &Fields) -> bool
    ensures { IsTrue result → FieldsFit count (fields_tree fs.now) }
{
    for i in 0..fs.items.len() {
        if !field_fits(count, &fs.items[i]) {
            return false;
        }
    }
    true
}

/// Whether so is each in a field of a record.
#[cycle(term_fits)]
fn field_fits(count: usize, f: &Field) -> bool
    ensures { IsTrue result → NamesThere count (field_tree f.now).1 × TermFits count (field_tree f.now).2 }
{
    names_there(count, &f.name) && term_fits(count, &f.value)
}

/// Whether so is each in the name of an input.
fn input_name_there(count: usize, x: &Option<InputName>) -> bool
    ensures { IsTrue result → FieldNameThere count (maybe_name x.now) }
{
    match x {
        None => true,
        Some(x) => names_there(count, &x.name),
    }
}

/// Whether so is each in an element.
#[cycle(term_fits)]
fn element_fits(count: usize, m: &Element) -> bool
    ensures { IsTrue result → ElementFits count (element_tree m.now) }
{
    input_name_there(count, &m.field)
        && names_there(count, &m.context)
        && names_there(count, &m.uses)
        && attributes_fit(count, &m.attributes)
        && nodes_fit(count, &m.content)
}

/// Whether so is each in the attributes of an element.
#[cycle(term_fits)]
fn attributes_fit(count: usize, items: &Attributes) -> bool
    ensures { IsTrue result → AttributesFit count (attributes_tree items.now) }
{
    for i in 0..items.items.len() {
        if !attribute_fits(count, &items.items[i]) {
            return false;
        }
    }
    true
}

/// Whether so is each in an attribute.
#[cycle(term_fits)]
fn attribute_fits(count: usize, a: &Attribute) -> bool
    ensures { IsTrue result → TermFits count (attribute_tree a.now).2 }
{
    term_fits(count, &a.value)
}

/// Whether so is each in the nodes of an element or a literal.
#[cycle(term_fits)]
fn nodes_fit(count: usize, xs: &Nodes) -> bool
    ensures { IsTrue result → NodesFit count (nodes_tree xs.now) }
{
    for i in 0..xs.items.len() {
        if !node_fits(count, &xs.items[i]) {
            return false;
        }
    }
    true
}

/// Whether so is each in a node.
#[cycle(term_fits)]
fn node_fits(count: usize, x: &Node) -> bool
    ensures { IsTrue result → NamesThere count (node_tree x.now).0 × TermFits count (node_tree x.now).1 }
{
    names_there(count, &x.fills) && term_fits(count, &x.term)
}

/// Whether so is each in the terms that stand in a query.
#[cycle(term_fits)]
fn terms_fit(count: usize, es: &Exps) -> bool
    ensures { IsTrue result → TermsFit count (exps_tree es.now) }
{
    for i in 0..es.items.len() {
        if !term_fits(count, &es.items[i]) {
            return false;
        }
    }
    true
}
