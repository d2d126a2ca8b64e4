//! The parts of explicit declarations, taken apart one by one. What was inserted is passed.
ghost use Rattle.std.specs.Prelude.{◌≡◌, ◌∷◌, [], map, IfOk, OnOk};
ghost use Rattle.core_terms.specs.Lists.{item_tree};
ghost use Rattle.core_terms.specs.Strip as strip;
ghost use Rattle.core_terms.specs.View as view;
ghost use Rattle.placed_terms.specs.Left.{is_alone as leaves_head, is_empty, is_left as was_left};
ghost use Rattle.placed_terms.specs.Made as goal;
ghost use Rattle.placed_terms.specs.MadeItems.{branch_places};
ghost use Rattle.placed_terms.specs.Left.{element_tree};
ghost use Rattle.placed_terms.specs.Parts.{first_before, made_listed, made_then};

use crate::made_lists::{put_branch, put_inside};
use crate::made_parts::{MadePart, put, put_all, put_at};
use con_terms::Place;
use core_terms::{
    Attributes, Branch, Branches, ConOrigin, Datatype, Decl, Element, Exp, Exps, Fields, Form,
    InputName, Item, Items, Locals, Nodes, Pat, PatFields, PatForm, Sigil, Sort,
};
use std::alloc::AllocError;

/// Fields of a record.
#[tactic(auto, using(crate::proofs::Bridges::fields_are))]
fn put_fields<'a>(parts: &mut Vec<MadePart<'a>>, fields: &'a Fields) -> Result<(), AllocError>
    ensures { OnOk result (made_listed parts.new.items
        ≡ goal.fields_then (strip.strip_fields (view.fields_tree fields.now)) (made_listed parts.old.items)) }
{
    put_all(parts, fields.items.as_slice())
}

/// Attributes.
#[tactic(auto, using(crate::proofs::Bridges::attributes_are))]
fn put_attributes<'a>(
    parts: &mut Vec<MadePart<'a>>,
    attributes: &'a Attributes,
) -> Result<(), AllocError>
    ensures { OnOk result (made_listed parts.new.items
        ≡ goal.attributes_then (strip.strip_attributes (view.attributes_tree attributes.now))
        (made_listed parts.old.items)) }
{
    put_all(parts, attributes.items.as_slice())
}

/// Nodes of a page.
#[tactic(auto, using(crate::proofs::Bridges::nodes_are))]
fn put_nodes<'a>(parts: &mut Vec<MadePart<'a>>, nodes: &'a Nodes) -> Result<(), AllocError>
    ensures { OnOk result (made_listed parts.new.items
        ≡ goal.nodes_then (strip.strip_nodes (view.nodes_tree nodes.now)) (made_listed parts.old.items)) }
{
    put_all(parts, nodes.items.as_slice())
}

/// Terms.
#[tactic(auto, using(crate::proofs::Bridges::terms_are))]
fn put_terms<'a>(parts: &mut Vec<MadePart<'a>>, terms: &'a Exps) -> Result<(), AllocError>
    ensures { OnOk result (made_listed parts.new.items
        ≡ goal.exps_then (strip.strip_exps (view.exps_tree terms.now)) (made_listed parts.old.items)) }
{
    put_all(parts, terms.items.as_slice())
}

/// Declarations of a `let`.
#[tactic(auto, using(crate::proofs::Bridges::locals_are))]
fn put_locals<'a>(parts: &mut Vec<MadePart<'a>>, locals: &'a Locals) -> Result<(), AllocError>
    ensures { OnOk result (made_listed parts.new.items
        ≡ goal.locals_then (strip.strip_locals (view.locals_tree locals.now)) (made_listed parts.old.items)) }
{
    put_all(parts, locals.items.as_slice())
}

/// Branches of a `case`, behind the first.
#[tactic(auto, using(crate::proofs::Bridges::branches_are))]
fn put_branches<'a>(parts: &mut Vec<MadePart<'a>>, branches: &'a Branches) -> Result<(), AllocError>
    ensures { OnOk result (made_listed parts.new.items
        ≡ goal.branches_then (strip.strip_branches (view.branches_tree branches.now)) (made_listed parts.old.items)) }
{
    put_all(parts, branches.items.as_slice())
}

/// Items of a call, where they were written.
#[tactic(auto, using(crate::proofs::Bridges::items_are))]
fn put_items<'a>(parts: &mut Vec<MadePart<'a>>, items: &'a Items) -> Result<(), AllocError>
    ensures { OnOk result (made_listed parts.new.items
        ≡ goal.items_then (strip.strip_items (view.items_tree items.now)) (made_listed parts.old.items)) }
{
    put_all(parts, items.items.as_slice())
}

/// Fields of a record pattern.
#[tactic(auto, using(crate::proofs::Bridges::pattern_fields_are))]
fn put_pattern_fields<'a>(
    parts: &mut Vec<MadePart<'a>>,
    fields: &'a PatFields,
) -> Result<(), AllocError>
    ensures { OnOk result (made_listed parts.new.items
        ≡ goal.pattern_fields_then (strip.strip_pattern_fields (view.pat_fields_tree fields.now))
        (made_listed parts.old.items)) }
{
    put_all(parts, fields.items.as_slice())
}

/// Whether an item of a call was written.
fn is_left(item: &Item) -> bool
    ensures { result ≡ was_left (item_tree item.now) }
{
    match item {
        Item::Term(x) => !x.added,
        Item::Con(_, origin, _) => !matches!(origin, ConOrigin::Inserted),
        Item::Guard(_, added) => !*added,
    }
}

/// Whether no item was written.
#[tactic(auto, using(crate::proofs::Calls::passed, crate::proofs::Calls::some_left))]
fn none_left(items: &[Item]) -> bool
    ensures { result ≡ is_empty (strip.strip_items (view.items_from (map item_tree items.now))) }
{
    let mut rest = items;
    while let Some((first, others)) = rest.split_first() {
        if is_left(first) {
            return false;
        }
        rest = others;
    }
    true
}

/// Whether of a call only the head is left.
#[tactic(auto, using(crate::proofs::Bridges::items_tree_is))]
fn is_alone(sigil: Sigil, items: &Items) -> bool
    ensures { result ≡ leaves_head sigil (strip.strip_items (view.items_tree items.now)) }
{
    match sigil {
        Sigil::Plain => none_left(items.items.as_slice()),
        Sigil::At | Sigil::AtAt => false,
    }
}

/// A call at a place: its head alone, where nothing else of it is left.
#[tactic(auto, using(crate::proofs::Calls::alone_is, crate::proofs::Calls::call_is_kept))]
fn put_call<'a>(
    parts: &mut Vec<MadePart<'a>>,
    place: Place,
    _added: bool,
    head: &'a Exp,
    sigil: Sigil,
    items: &'a Items,
) -> Result<(), AllocError>
    ensures { OnOk result (made_listed parts.new.items ≡ goal.exp_then (strip.call_left place _added
        (strip.strip (view.exp_tree head.now)) sigil (strip.strip_items (view.items_tree items.now)))
        (made_listed parts.old.items)) }
{
    if is_alone(sigil, items) {
        return put(parts, MadePart::Term(head));
    }
    put_items(parts, items)?;
    put_inside(parts, place, head)
}

/// A function at a place.
fn put_function<'a>(
    parts: &mut Vec<MadePart<'a>>,
    place: Place,
    p: &'a Pat,
    e: &'a Exp,
) -> Result<(), AllocError>
    ensures { OnOk result (made_listed parts.new.items
        ≡ place ∷ goal.pattern_then (strip.strip_pattern (view.pat_tree p.now))
        (goal.exp_then (strip.strip (view.exp_tree e.now)) (made_listed parts.old.items))) }
{
    put(parts, MadePart::Term(e))?;
    put(parts, MadePart::Pattern(p))?;
    put_at(parts, place)
}

/// Two terms at a place.
fn put_both<'a>(
    parts: &mut Vec<MadePart<'a>>,
    place: Place,
    e: &'a Exp,
    d: &'a Exp,
) -> Result<(), AllocError>
    ensures { OnOk result (made_listed parts.new.items ≡ place ∷ goal.exp_then (strip.strip (view.exp_tree e.now))
        (goal.exp_then (strip.strip (view.exp_tree d.now)) (made_listed parts.old.items))) }
{
    put(parts, MadePart::Term(d))?;
    put_inside(parts, place, e)
}

/// `let` at a place.
fn put_let<'a>(
    parts: &mut Vec<MadePart<'a>>,
    place: Place,
    locals: &'a Locals,
    e: &'a Exp,
) -> Result<(), AllocError>
    ensures { OnOk result (made_listed parts.new.items
        ≡ place ∷ goal.locals_then (strip.strip_locals (view.locals_tree locals.now))
        (goal.exp_then (strip.strip (view.exp_tree e.now)) (made_listed parts.old.items))) }
{
    put(parts, MadePart::Term(e))?;
    put_locals(parts, locals)?;
    put_at(parts, place)
}

/// `case` at a place.
fn put_case<'a>(
    parts: &mut Vec<MadePart<'a>>,
    place: Place,
    e: &'a Exp,
    first: &'a Branch,
    rest: &'a Branches,
) -> Result<(), AllocError>
    ensures { OnOk result (made_listed parts.new.items ≡ place ∷ goal.exp_then (strip.strip (view.exp_tree e.now))
        (branch_places first.now (goal.branches_then (strip.strip_branches (view.branches_tree rest.now))
        (made_listed parts.old.items)))) }
{
    put_branches(parts, rest)?;
    put_branch(parts, first)?;
    put_inside(parts, place, e)
}

/// The field that an input fills.
fn put_filled(parts: &mut Vec<MadePart<'_>>, field: &Option<InputName>) -> Result<(), AllocError>
    ensures { OnOk result (made_listed parts.new.items
        ≡ goal.filled_then (view.maybe_name field.now) (made_listed parts.old.items)) }
{
    match field {
        None => Ok(()),
        Some(name) => put_at(parts, name.place),
    }
}

/// An element at a place.
fn put_element<'a>(
    parts: &mut Vec<MadePart<'a>>,
    place: Place,
    e: &'a Element,
) -> Result<(), AllocError>
    ensures { OnOk result (made_listed parts.new.items
        ≡ place ∷ goal.element_then (strip.strip_element (element_tree e.now)) (made_listed parts.old.items)) }
{
    put_nodes(parts, &e.content)?;
    put_attributes(parts, &e.attributes)?;
    put_filled(parts, &e.field)?;
    put_at(parts, place)
}

/// A term at a place with its parts, by its form.
fn put_form<'a>(
    parts: &mut Vec<MadePart<'a>>,
    place: Place,
    _added: bool,
    f: &'a Form,
) -> Result<(), AllocError>
    ensures { OnOk result (made_listed parts.new.items
        ≡ goal.exp_then (strip.strip_form place _added (view.form_tree f.now)) (made_listed parts.old.items)) }
{
    match f {
        Form::Var(_)
        | Form::Top(_)
        | Form::Foreign(_)
        | Form::Basis(_)
        | Form::Fold(_)
        | Form::Int(_)
        | Form::Words(_)
        | Form::Build(_, _)
        | Form::Folder(_, _) => put_at(parts, place),
        Form::Fn(p, _, e) => put_function(parts, place, p, e),
        Form::FnCon(_, _, _, _, e) => put_inside(parts, place, e),
        Form::FnGuard(_, _, e) => put_inside(parts, place, e),
        Form::Call(head, sigil, items) => put_call(parts, place, _added, head, *sigil, items),
        Form::Let(locals, e) => put_let(parts, place, locals, e),
        Form::Case(e, first, rest) => put_case(parts, place, e, first, rest),
        Form::Typed(e, _) => put_inside(parts, place, e),
        Form::Rec(fields) => {
            put_fields(parts, fields)?;
            put_at(parts, place)
        }
        Form::Proj(e, _) => put_inside(parts, place, e),
        Form::Cat(e, d) => put_both(parts, place, e, d),
        Form::Drop(e, _) => put_inside(parts, place, e),
        Form::DropRow(e, _) => put_inside(parts, place, e),
        Form::Element(element) => put_element(parts, place, element),
        Form::Literal(literal) => {
            put_nodes(parts, &literal.nodes)?;
            put_at(parts, place)
        }
        Form::Sql(_, terms) => {
            put_terms(parts, terms)?;
            put_at(parts, place)
        }
    }
}

/// A term with its parts.
fn put_term<'a>(parts: &mut Vec<MadePart<'a>>, x: &'a Exp) -> Result<(), AllocError>
    ensures { OnOk result (made_listed parts.new.items
        ≡ goal.exp_then (strip.strip (view.exp_tree x.now)) (made_listed parts.old.items)) }
{
    put_form(parts, x.place, x.added, &x.form)
}

/// A pattern behind its place, by its form.
fn put_pattern_form<'a>(parts: &mut Vec<MadePart<'a>>, f: &'a PatForm) -> Result<(), AllocError>
    ensures { OnOk result (made_listed parts.new.items ≡ goal.pattern_form_then
        (strip.strip_pattern_form (view.pat_form_tree f.now)) (made_listed parts.old.items)) }
{
    match f {
        PatForm::Any
        | PatForm::Bind(_, _)
        | PatForm::Int(_)
        | PatForm::Words(_)
        | PatForm::Build(_, _, None) => Ok(()),
        PatForm::Build(_, _, Some(held)) => put(parts, MadePart::Pattern(held)),
        PatForm::Rec(fields, _) => put_pattern_fields(parts, fields),
        PatForm::Typed(inner, _) => put(parts, MadePart::Pattern(inner)),
    }
}

/// A pattern with its parts.
fn put_pattern<'a>(parts: &mut Vec<MadePart<'a>>, p: &'a Pat) -> Result<(), AllocError>
    ensures { OnOk result (made_listed parts.new.items
        ≡ goal.pattern_then (strip.strip_pattern (view.pat_tree p.now)) (made_listed parts.old.items)) }
{
    put_pattern_form(parts, &p.form)?;
    put_at(parts, p.place)
}

/// Takes a part apart.
fn open<'a>(parts: &mut Vec<MadePart<'a>>, part: MadePart<'a>) -> Result<(), AllocError>
    ensures { OnOk result (made_listed parts.new.items ≡ made_then part.entry (made_listed parts.old.items)) }
{
    match part {
        MadePart::At(place) => put_at(parts, place),
        MadePart::Term(x) => put_term(parts, x),
        MadePart::Pattern(p) => put_pattern(parts, p),
        MadePart::Names(names) => put_all(parts, names),
    }
}

/// Takes the first place away.
#[tactic(auto, using(crate::proofs::Listing::made_push))]
pub fn next_place(parts: &mut Vec<MadePart<'_>>) -> Result<Option<Place>, AllocError>
    ensures { IfOk result (λ o. made_listed parts.old.items ≡ first_before o (made_listed parts.new.items)) }
{
    for _ in 0..u64::MAX {
        match parts.pop() {
            None => return Ok(None),
            Some(MadePart::At(place)) => return Ok(Some(place)),
            Some(part) => open(parts, part)?,
        }
    }
    Err(AllocError)
}

/// What a value without a term is, behind its place.
#[tactic(auto, using(crate::proofs::Bridges::columns_are))]
fn put_sort<'a>(parts: &mut Vec<MadePart<'a>>, sort: &'a Sort) -> Result<(), AllocError>
    ensures { OnOk result (made_listed parts.new.items
        ≡ goal.thing_then (view.sort_tree sort.now) (made_listed parts.old.items)) }
{
    match sort {
        Sort::Table(columns) => put_all(parts, columns.items.as_slice()),
        Sort::Sequence | Sort::Cookie | Sort::Given => Ok(()),
    }
}

/// A datatype.
#[tactic(auto, using(crate::proofs::Bridges::constructors_are))]
fn put_datatype<'a>(parts: &mut Vec<MadePart<'a>>, t: &'a Datatype) -> Result<(), AllocError>
    ensures { OnOk result (made_listed parts.new.items ≡ t.now.place ∷ goal.constructors_then
        (view.datatype_view t.now).constructors (made_listed parts.old.items)) }
{
    put_all(parts, t.constructors.items.as_slice())?;
    put_at(parts, t.place)
}

/// The parts of a declaration, where none wait.
#[tactic(auto, using(crate::proofs::Bridges::names_are))]
pub fn put_decl<'a>(parts: &mut Vec<MadePart<'a>>, d: &'a Decl) -> Result<(), AllocError>
    requires { made_listed parts.now.items ≡ [] }
    ensures { OnOk result
        (made_listed parts.new.items ≡ goal.places_of (strip.strip_decl (view.decl_tree d.now))) }
{
    match d {
        Decl::Val(_, n) => put_inside(parts, n.place, &n.exp),
        Decl::ValRec(_, ns) => put(parts, MadePart::Names(ns.items.as_slice())),
        Decl::Con(c) => put_at(parts, c.place),
        Decl::Datatype(t) => put_datatype(parts, t),
        Decl::Thing(t) => {
            put_sort(parts, &t.sort)?;
            put_at(parts, t.place)
        }
    }
}
