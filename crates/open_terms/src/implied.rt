//! Folders and instances, which calls insert. Where the rules choose none, a gap stands in its place.
use crate::env::Env;
use crate::faults::too_large;
use crate::gaps::{NO_FOLDER, NO_INSTANCE, inserted};
use crate::heads::form_of;
use crate::memory::{maybe_on_heap, on_heap};
use crate::types::{boxed_head, boxed_reduced};
use con_terms::{Con, Cons, Kind, Pairs, Place, Sym};
use core_terms::{Exp, Form};
use kind_rules::kind_of_basic;
use name_scopes::{ElabFault, KnownValue, ValueName};
use row_normal::pieces::pieces;
use std::alloc::{AllocError, Global};
use type_makers::symbols;

/// Whether a basic type is a class.
fn is_class(s: Sym) -> bool {
    s == symbols::SHOW
        || s == symbols::EQ
        || s == symbols::ORD
        || s == symbols::NUM
        || s == symbols::SQL_INJECTABLE
}

/// The kind of a basic type, on the heap; none where it has none.
fn basic_kind(alloc: Global, env: &Env, s: Sym) -> Result<Option<Box<Kind>>, AllocError> {
    match kind_of_basic(alloc, env.scope.kinds(), s)? {
        Ok(kind) => Ok(Some(on_heap(alloc, kind)?)),
        Err(_) => Ok(None),
    }
}

/// The kind of the values of rows of a kind; none where it isn't one of rows.
fn values_of(rows: Box<Kind>) -> Option<Box<Kind>> {
    match Box::into_inner(rows) {
        Kind::Row(values) => Some(values),
        _ => None,
    }
}

/// The kind of the values of the rows that functions of a kind take; none where they take no rows.
fn values_taken(functions: Box<Kind>) -> Option<Box<Kind>> {
    match Box::into_inner(functions) {
        Kind::Arrow(from, _) => values_of(from),
        _ => None,
    }
}

/// No folder, where none was found; else want of memory.
fn no_folder(fault: &ElabFault) -> Result<bool, AllocError> {
    match fault {
        ElabFault::Memory => Err(AllocError),
        _ => Ok(false),
    }
}

/// Whether this is the type of the folders of rows whose values have this kind.
fn is_folder(alloc: Global, env: &Env, values: &Kind, s: Sym) -> Result<bool, AllocError> {
    match env.scope.folder(alloc, values) {
        Ok(folder) => Ok(folder == s),
        Err(fault) => no_folder(&fault),
    }
}

/// The kind of the values of the rows that a basic type takes; none where it takes no rows.
fn values_of_basic(alloc: Global, env: &Env, s: Sym) -> Result<Option<Box<Kind>>, AllocError> {
    match basic_kind(alloc, env, s)? {
        Some(kind) => Ok(values_taken(kind)),
        None => Ok(None),
    }
}

/// The kind of the values of the rows of which this is the type of folders; none where it is none.
fn folder_kind(alloc: Global, env: &Env, s: Sym) -> Result<Option<Box<Kind>>, AllocError> {
    match values_of_basic(alloc, env, s)? {
        None => Ok(None),
        Some(values) => {
            if is_folder(alloc, env, &values, s)? {
                Ok(Some(values))
            } else {
                Ok(None)
            }
        }
    }
}

/// The basic type that is applied to one constructor.
fn applied_basic(c: &Con) -> Option<Sym> {
    match c {
        Con::App(f, _) => match &**f {
            Con::Basic(s) => Some(*s),
            _ => None,
        },
        _ => None,
    }
}

/// The basic type that is applied to one constructor, once the root is reduced.
fn reduced_basic(alloc: Global, c: &Con) -> Result<Option<Sym>, AllocError> {
    match boxed_head(alloc, c)? {
        None => Ok(None),
        Some(head) => Ok(applied_basic(&head)),
    }
}

/// The basic type that is applied to one constructor, where the root may have to be reduced.
fn basic_in(alloc: Global, c: &Con) -> Result<Option<Sym>, AllocError> {
    match c {
        Con::App(f, _) => match &**f {
            Con::Basic(s) => Ok(Some(*s)),
            _ => reduced_basic(alloc, c),
        },
        Con::Proj(_, _) => reduced_basic(alloc, c),
        _ => Ok(None),
    }
}

/// Whether parameters of this type are inserted: folders and instances.
pub fn is_implied(alloc: Global, env: &Env, c: &Con) -> Result<bool, AllocError> {
    match basic_in(alloc, c)? {
        None => Ok(false),
        Some(s) => {
            if is_class(s) {
                return Ok(true);
            }
            Ok(folder_kind(alloc, env, s)?.is_some())
        }
    }
}

/// Fields with others behind them.
fn with_fields(fields: Pairs, others: Pairs) -> Result<Option<Pairs>, AllocError> {
    let mut all = fields;
    let mut more = others;
    all.items.append(&mut more.items)?;
    Ok(Some(all))
}

/// Fields with those of a piece behind them; none where the piece is no literal.
fn with_piece(fields: Pairs, piece: Con) -> Result<Option<Pairs>, AllocError> {
    match piece {
        Con::Row(_, more) => with_fields(fields, more),
        _ => Ok(None),
    }
}

/// The fields of pieces, in the written order; none where they aren't all literals.
fn fields_of(alloc: Global, pieces: Cons) -> Result<Option<Pairs>, AllocError> {
    let mut fields = Pairs::new(alloc);
    for piece in pieces.items {
        match with_piece(fields, piece)? {
            Some(all) => fields = all,
            None => return Ok(None),
        }
    }
    Ok(Some(fields))
}

/// The fields of a row, in the written order; none where it isn't put together of literals.
fn literal_fields(alloc: Global, row: &Con) -> Result<Option<Pairs>, AllocError> {
    match boxed_reduced(alloc, row)? {
        None => Ok(None),
        Some(row) => {
            let pieces = pieces(alloc, Box::into_inner(row))?;
            fields_of(alloc, pieces)
        }
    }
}

/// The folder of a row whose values have this kind; a gap, where the row isn't put together of literals.
fn folder_of(
    alloc: Global,
    place: Place,
    kind: Box<Kind>,
    row: &Con,
) -> Result<Box<Exp>, AllocError> {
    match literal_fields(alloc, row)? {
        None => inserted(alloc, place, Form::Top(NO_FOLDER)),
        Some(fields) => inserted(alloc, place, Form::Folder(Box::into_inner(kind), fields)),
    }
}

/// What is known of the instance of this type, on the heap, where there is one.
fn known_instance(
    alloc: Global,
    env: &Env,
    t: &Con,
) -> Result<Option<Box<KnownValue>>, AllocError> {
    maybe_on_heap(alloc, env.scope.instance(alloc, t)?)
}

/// The instance with this name; a gap, where the name is no value's.
fn named_instance(alloc: Global, place: Place, name: ValueName) -> Result<Box<Exp>, AllocError> {
    match form_of(name) {
        None => inserted(alloc, place, Form::Top(NO_INSTANCE)),
        Some(form) => inserted(alloc, place, form),
    }
}

/// The instance of this type; a gap, where none is in scope.
fn instance_of(alloc: Global, env: &Env, place: Place, t: &Con) -> Result<Box<Exp>, AllocError> {
    match known_instance(alloc, env, t)? {
        None => inserted(alloc, place, Form::Top(NO_INSTANCE)),
        Some(known) => named_instance(alloc, place, known.name),
    }
}

/// The folder or the instance of a type whose root is reduced.
fn term_for(
    alloc: Global,
    env: &Env,
    place: Place,
    t: &Con,
    head: &Con,
) -> Result<Box<Exp>, AllocError> {
    let Con::App(f, row) = head else {
        return instance_of(alloc, env, place, t);
    };
    let Con::Basic(s) = &**f else {
        return instance_of(alloc, env, place, t);
    };
    match folder_kind(alloc, env, *s)? {
        None => instance_of(alloc, env, place, t),
        Some(kind) => folder_of(alloc, place, kind, row),
    }
}

/// The folder or the instance of this type, or a gap where the rules choose none.
#[inline(never)]
pub fn implied_term(
    alloc: Global,
    env: &Env,
    place: Place,
    t: &Con,
) -> Result<Box<Exp>, ElabFault> {
    match boxed_head(alloc, t)? {
        None => Err(too_large(place)),
        Some(head) => Ok(term_for(alloc, env, place, t, &head)?),
    }
}
