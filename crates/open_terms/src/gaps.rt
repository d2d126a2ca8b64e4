//! Gaps: what stands where a call lacks a folder or an instance. A gap is a value of a number that no program reaches,
//! so that the checker refuses the program there; the crate `inserted_terms` holds each gap against the rules.
use crate::memory::on_heap;
use con_terms::Place;
use core_terms::{
    Attributes, Branches, Element, Exp, Exps, Fields, Form, Item, Items, Local, Locals, NamedList,
    Nodes,
};
use std::alloc::{AllocError, Global};

/// What stands where no instance is in scope.
pub const NO_INSTANCE: u32 = 4_294_967_295;

/// What stands where the fields of a folder's row aren't known.
pub const NO_FOLDER: u32 = 4_294_967_294;

/// How many terms are looked at for the gaps in a call's arguments. Those behind them are told at their own places.
const MOST: u32 = 1_000;

/// An inserted term.
pub fn inserted(alloc: Global, place: Place, form: Form) -> Result<Box<Exp>, AllocError> {
    let exp = Exp {
        place,
        added: true,
        form,
    };
    on_heap(alloc, exp)
}

/// Whether a term is a gap.
fn is_gap(e: &Exp) -> bool {
    match e.form {
        Form::Top(i) => e.added && i >= NO_FOLDER,
        _ => false,
    }
}

/// Whether a call lacks something itself.
fn has_gap(items: &Items) -> bool {
    for i in 0..items.items.len() {
        if let Item::Term(e) = &items.items[i]
            && is_gap(e)
        {
            return true;
        }
    }
    false
}

/// The terms that are still to be looked at.
#[derive(Drop)]
struct Left<'a> {
    terms: Vec<&'a Exp>,
}

impl<'a> Left<'a> {
    /// With one more.
    fn add(&mut self, e: &'a Exp) -> Result<(), AllocError> {
        self.terms.push(e)?;
        Ok(())
    }

    /// With the terms among the items of a call.
    fn items(&mut self, items: &'a Items) -> Result<(), AllocError> {
        for i in 0..items.items.len() {
            if let Item::Term(e) = &items.items[i] {
                self.add(e)?;
            }
        }
        Ok(())
    }

    /// With the terms of names.
    fn names(&mut self, names: &'a NamedList) -> Result<(), AllocError> {
        for i in 0..names.items.len() {
            self.add(&names.items[i].exp)?;
        }
        Ok(())
    }

    /// With those in the declarations of a `let`.
    fn locals(&mut self, locals: &'a Locals) -> Result<(), AllocError> {
        for i in 0..locals.items.len() {
            match &locals.items[i] {
                Local::Val(named) => self.add(&named.exp)?,
                Local::ValRec(names) => self.names(names)?,
            }
        }
        Ok(())
    }

    /// With those of branches.
    fn branches(&mut self, branches: &'a Branches) -> Result<(), AllocError> {
        for i in 0..branches.items.len() {
            self.add(&branches.items[i].body)?;
        }
        Ok(())
    }

    /// With those of fields.
    fn fields(&mut self, fields: &'a Fields) -> Result<(), AllocError> {
        for i in 0..fields.items.len() {
            self.add(&fields.items[i].value)?;
        }
        Ok(())
    }

    /// With those of attributes.
    fn attributes(&mut self, attributes: &'a Attributes) -> Result<(), AllocError> {
        for i in 0..attributes.items.len() {
            self.add(&attributes.items[i].value)?;
        }
        Ok(())
    }

    /// With those of nodes.
    fn nodes(&mut self, nodes: &'a Nodes) -> Result<(), AllocError> {
        for i in 0..nodes.items.len() {
            self.add(&nodes.items[i].term)?;
        }
        Ok(())
    }

    /// With those of an element.
    fn element(&mut self, element: &'a Element) -> Result<(), AllocError> {
        self.attributes(&element.attributes)?;
        self.nodes(&element.content)
    }

    /// With those of a query.
    fn all(&mut self, terms: &'a Exps) -> Result<(), AllocError> {
        for i in 0..terms.items.len() {
            self.add(&terms.items[i])?;
        }
        Ok(())
    }

    /// With two terms.
    fn both(&mut self, one: &'a Exp, other: &'a Exp) -> Result<(), AllocError> {
        self.add(one)?;
        self.add(other)
    }

    /// With the parts of a term.
    fn parts(&mut self, form: &'a Form) -> Result<(), AllocError> {
        match form {
            Form::Var(_)
            | Form::Top(_)
            | Form::Foreign(_)
            | Form::Basis(_)
            | Form::Fold(_)
            | Form::Int(_)
            | Form::Words(_)
            | Form::Build(_, _)
            | Form::Folder(_, _) => Ok(()),
            Form::Fn(_, _, e)
            | Form::FnCon(_, _, _, _, e)
            | Form::FnGuard(_, _, e)
            | Form::Typed(e, _)
            | Form::Proj(e, _)
            | Form::Drop(e, _)
            | Form::DropRow(e, _) => self.add(e),
            Form::Cat(e, d) => self.both(e, d),
            Form::Call(e, _, items) => {
                self.add(e)?;
                self.items(items)
            }
            Form::Let(locals, e) => {
                self.add(e)?;
                self.locals(locals)
            }
            Form::Case(e, first, others) => {
                self.both(e, &first.body)?;
                self.branches(others)
            }
            Form::Rec(fields) => self.fields(fields),
            Form::Element(element) => self.element(element),
            Form::Literal(literal) => self.nodes(&literal.nodes),
            Form::Sql(_, terms) => self.all(terms),
        }
    }
}

/// The earlier one of two places, of which the first may be none.
fn earlier(one: Option<Place>, other: Place) -> Place {
    match one {
        Some(place) if place.at <= other.at => place,
        _ => other,
    }
}

/// The first place of a gap in what a call is applied to, but for its own gaps; none where none is found.
fn gap_in_arguments(alloc: Global, items: &Items) -> Result<Option<Place>, AllocError> {
    let mut left = Left {
        terms: Vec::new(alloc),
    };
    for i in 0..items.items.len() {
        if let Item::Term(e) = &items.items[i]
            && !e.added
        {
            left.add(e)?;
        }
    }
    let mut first = None;
    for _ in 0..MOST {
        match left.terms.pop() {
            None => return Ok(first),
            Some(e) => {
                if is_gap(e) {
                    first = Some(earlier(first, e.place));
                }
                left.parts(&e.form)?;
            }
        }
    }
    Ok(first)
}

/// Puts an item at a place, where it is a gap.
fn put_gap_at(item: &mut Item, place: Place) {
    if let Item::Term(e) = item
        && is_gap(e)
    {
        e.place = place;
    }
}

/// The items of a call, with its own gaps at a place.
fn with_gaps_at(items: Items, place: Place) -> Items {
    let mut items = items;
    for item in items.items.iter_mut() {
        put_gap_at(item, place);
    }
    items
}

/// The items of a call. Where an argument lacks something too, what the call lacks is told there: the argument may have
/// this type only because of that.
pub fn inner_gaps_first(alloc: Global, items: Items) -> Result<Items, AllocError> {
    if !has_gap(&items) {
        return Ok(items);
    }
    match gap_in_arguments(alloc, &items)? {
        None => Ok(items),
        Some(place) => Ok(with_gaps_at(items, place)),
    }
}
