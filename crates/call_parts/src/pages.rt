//! The parts of a page's type, and the rows of its places.
use crate::arguments::{Match, Refusal, match_type};
use con_terms::{Con, Cons, Kind, copy_con};
use open_terms::{boxed_copy, on_heap, reduced};
use row_normal::pieces::pieces;
use row_normal::row_of_pieces_in_order;
use std::alloc::{AllocError, Global};
use type_makers::{no_types, symbols};
use unknowns::{Found, filled, is_known};

/// What a type of pages is put together of.
#[derive(Drop)]
pub struct PageParts {
    /// Where it stands, as a row of units.
    pub context: Box<Con>,
    /// The fields of the form that are filled before it.
    pub uses: Box<Con>,
    /// The fields that it fills.
    pub fills: Box<Con>,
}

/// The parts of `xml c u b`.
fn parts_of_page(c: Con) -> Option<PageParts> {
    let Con::App(f, fills) = c else {
        return None;
    };
    let Con::App(g, uses) = Box::into_inner(f) else {
        return None;
    };
    let Con::App(x, context) = Box::into_inner(g) else {
        return None;
    };
    let Con::Basic(s) = Box::into_inner(x) else {
        return None;
    };
    if s != symbols::XML {
        return None;
    }
    Some(PageParts {
        context,
        uses,
        fills,
    })
}

/// The parts of a type of pages, each reduced with rows as written; none where the type is another or too large.
pub fn page_parts(alloc: Global, t: &Con) -> Result<Option<PageParts>, AllocError> {
    match reduced(alloc, t)? {
        None => Ok(None),
        Some(t) => Ok(parts_of_page(t)),
    }
}

/// A row with its parts reduced, or as it stands where that is too large.
pub fn reduced_row(alloc: Global, row: &Con) -> Result<Box<Con>, AllocError> {
    match reduced(alloc, row)? {
        None => boxed_copy(alloc, row),
        Some(row) => on_heap(alloc, row),
    }
}

/// No fields.
pub fn no_fields(alloc: Global) -> Result<Box<Con>, AllocError> {
    on_heap(alloc, no_types(alloc)?)
}

/// Whether a row is a literal without fields.
pub fn is_empty_row(row: &Con) -> bool {
    match row {
        Con::Row(_, fields) => fields.items.is_empty(),
        _ => false,
    }
}

/// Puts the pieces of a row last.
fn add_pieces(alloc: Global, all: &mut Cons, row: &Con) -> Result<(), AllocError> {
    for piece in pieces(alloc, copy_con(alloc, row)?)?.items {
        all.push(piece)?;
    }
    Ok(())
}

/// The row of the pieces of one row and then of another.
pub fn rows_joined(alloc: Global, first: &Con, second: &Con) -> Result<Box<Con>, AllocError> {
    let mut all = Cons::new(alloc);
    add_pieces(alloc, &mut all, first)?;
    add_pieces(alloc, &mut all, second)?;
    on_heap(alloc, row_of_pieces_in_order(alloc, Kind::Types, all)?)
}

/// Whether this piece of a context is the unit `Form`.
fn is_form(piece: &Con) -> bool {
    match piece {
        Con::Row(_, fields) => match fields.items.first() {
            Some(field) => match &field.name {
                Con::Name(s) => *s == symbols::FORM,
                _ => false,
            },
            None => false,
        },
        _ => false,
    }
}

/// Whether a context tells that a form is around.
pub fn has_form_around(alloc: Global, context: &Con) -> Result<bool, AllocError> {
    let all = pieces(alloc, copy_con(alloc, context)?)?;
    for i in 0..all.items.len() {
        if is_form(&all.items[i]) {
            return Ok(true);
        }
    }
    Ok(false)
}

/// Matches what is wanted of a part of a page's type, if it is known.
fn match_part(
    alloc: Global,
    found: &mut Found,
    pattern: &Con,
    wanted: &Option<Box<Con>>,
) -> Result<Option<Refusal>, AllocError> {
    match wanted {
        None => Ok(None),
        Some(c) => match match_type(alloc, found, pattern, c)? {
            Match::Refused(refusal) => Ok(Some(refusal)),
            _ => Ok(None),
        },
    }
}

/// Matches the context of a page's type, and the fields that are filled before it, with what is wanted of them.
pub fn match_page(
    alloc: Global,
    found: &mut Found,
    pattern: &Con,
    context: &Option<Box<Con>>,
    uses: &Option<Box<Con>>,
) -> Result<Option<Refusal>, AllocError> {
    if is_known(found, pattern)? {
        return Ok(None);
    }
    let whole = filled(alloc, found, pattern)?;
    match page_parts(alloc, &whole)? {
        None => Ok(None),
        Some(parts) => match match_part(alloc, found, &parts.context, context)? {
            Some(refusal) => Ok(Some(refusal)),
            None => match_part(alloc, found, &parts.uses, uses),
        },
    }
}
