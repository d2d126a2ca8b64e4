//! What a call begins with: names, constructors of datatypes, values that sugar stands for.
use crate::env::{Env, Side};
use crate::faults::unbound;
use crate::memory::{maybe_on_heap, on_heap};
use con_terms::{Con, Kind, Place, copy_kind};
use core_terms::{BasisName, Exp, Form, Sigil};
use kind_rules::Differing;
use name_scopes::{ElabFault, KnownBuilder, KnownValue, ValueName};
use plain_tree::{Basis, BasisBuilder, Infix, Path};
use std::alloc::{AllocError, Global};
use std::mem::replace;
use type_faults::Fault;

/// What a call begins with, and its type.
#[derive(Drop)]
pub struct Head {
    pub exp: Box<Exp>,
    pub con: Con,
    pub sigil: Sigil,
}

/// A term of the source.
pub fn node(alloc: Global, place: Place, form: Form) -> Result<Box<Exp>, AllocError> {
    let exp = Exp {
        place,
        added: false,
        form,
    };
    on_heap(alloc, exp)
}

/// What stands before a name.
fn sigil_of(sigil: plain_tree::Sigil) -> Sigil {
    match sigil {
        plain_tree::Sigil::Nothing => Sigil::Plain,
        plain_tree::Sigil::At => Sigil::At,
        plain_tree::Sigil::AtAt => Sigil::AtAt,
    }
}

/// The term that names a value, but for `fold`.
pub fn form_of(name: ValueName) -> Option<Form> {
    match name {
        ValueName::Local(i) => Some(Form::Var(i)),
        ValueName::Top(i) => Some(Form::Top(i)),
        ValueName::Foreign(i) => Some(Form::Foreign(i)),
        ValueName::Basis(b) => Some(Form::Basis(b)),
        ValueName::Fold => None,
    }
}

/// Whether a value belongs to queries or cookies, for which there are no rules yet.
fn is_unbuilt(name: ValueName) -> bool {
    match name {
        ValueName::Basis(b) => match b {
            BasisName::Query
            | BasisName::QueryX
            | BasisName::OneRow
            | BasisName::OneOrNoRows
            | BasisName::Dml
            | BasisName::Nextval
            | BasisName::GetCookie
            | BasisName::SetCookie
            | BasisName::ClearCookie => true,
            _ => false,
        },
        _ => false,
    }
}

/// The term that names a value that has a type and rules; else the fault that it hasn't.
fn value_node(alloc: Global, place: Place, known: &KnownValue) -> Result<Box<Exp>, ElabFault> {
    match &known.con {
        Con::UnitCon => return Err(ElabFault::Unsolved(place)),
        _ => {}
    }
    if is_unbuilt(known.name) {
        return Err(ElabFault::NotBuilt(place));
    }
    match form_of(known.name) {
        None => Err(ElabFault::Unsolved(place)),
        Some(form) => Ok(node(alloc, place, form)?),
    }
}

/// A term with the type of a value.
fn value_head(
    alloc: Global,
    exp: Box<Exp>,
    known: Box<KnownValue>,
    sigil: Sigil,
) -> Result<Box<Head>, AllocError> {
    let KnownValue { con, .. } = Box::into_inner(known);
    on_heap(alloc, Head { exp, con, sigil })
}

/// A value with its type. That of a function in its own group may be open.
fn of_value(
    alloc: Global,
    place: Place,
    known: Box<KnownValue>,
    sigil: Sigil,
) -> Result<Box<Head>, ElabFault> {
    let exp = value_node(alloc, place, &known)?;
    Ok(value_head(alloc, exp, known, sigil)?)
}

/// A term with the type of a constructor of a datatype.
fn builder_head(
    alloc: Global,
    exp: Box<Exp>,
    known: Box<KnownBuilder>,
    sigil: Sigil,
) -> Result<Box<Head>, AllocError> {
    let mut known = known;
    let con = replace(&mut known.con, Con::UnitCon);
    on_heap(alloc, Head { exp, con, sigil })
}

/// A constructor of a datatype with its type.
fn of_builder(
    alloc: Global,
    place: Place,
    known: Box<KnownBuilder>,
    sigil: Sigil,
) -> Result<Box<Head>, AllocError> {
    let exp = node(alloc, place, Form::Build(known.datatype, known.index))?;
    builder_head(alloc, exp, known, sigil)
}

/// The kind of the values of the rows that functions of a kind take; none where they take no rows.
fn row_values(functions: &Kind) -> Option<&Kind> {
    match functions {
        Kind::Arrow(from, _) => match &**from {
            Kind::Row(values) => Some(&**values),
            _ => None,
        },
        _ => None,
    }
}

/// A copy of a kind, on the heap.
fn boxed_kind(alloc: Global, kind: &Kind) -> Result<Box<Kind>, AllocError> {
    on_heap(alloc, copy_kind(alloc, kind)?)
}

/// The kind of functions that take rows of types and give a type, on the heap.
fn of_rows(alloc: Global) -> Result<Box<Kind>, AllocError> {
    let types = on_heap(alloc, Kind::Types)?;
    let row = on_heap(alloc, Kind::Row(types))?;
    let gives = on_heap(alloc, Kind::Types)?;
    on_heap(alloc, Kind::Arrow(row, gives))
}

/// Two kinds that differ.
fn differing(
    alloc: Global,
    wanted: Box<Kind>,
    found: Box<Kind>,
) -> Result<Box<Differing>, AllocError> {
    let wanted = Box::into_inner(wanted);
    let found = Box::into_inner(found);
    on_heap(alloc, Differing { wanted, found })
}

/// The fault that a kind isn't that of functions of rows.
fn no_rows(alloc: Global, place: Place, found: Box<Kind>) -> Result<ElabFault, AllocError> {
    let wanted = of_rows(alloc)?;
    let kinds = differing(alloc, wanted, found)?;
    Ok(ElabFault::Told(Fault::KindMismatch(place, kinds)))
}

/// The kind of the values of the rows over which `fold` goes, by the kind of its first type argument.
fn fold_kind(alloc: Global, place: Place, kind: &Kind) -> Result<Box<Kind>, ElabFault> {
    match row_values(kind) {
        Some(values) => Ok(boxed_kind(alloc, values)?),
        None => Err(no_rows(alloc, place, boxed_kind(alloc, kind)?)?),
    }
}

/// The kind of a constructor, on the heap.
fn kind_beside(alloc: Global, side: Side) -> Result<Box<Kind>, AllocError> {
    let Side { kind, .. } = side;
    on_heap(alloc, kind)
}

/// The kind of the values of the rows over which `fold` goes, by its first type argument.
fn folded_kind(
    alloc: Global,
    env: &Env,
    at: u32,
    c: &plain_tree::Con,
    room: u32,
) -> Result<Box<Kind>, ElabFault> {
    let kind = kind_beside(alloc, env.con_and_kind(alloc, c, room)?)?;
    fold_kind(alloc, env.place(at), &kind)
}

/// `fold` with this type, over rows whose values have this kind.
fn fold_head(
    alloc: Global,
    place: Place,
    kind: Box<Kind>,
    con: Box<Con>,
    sigil: Sigil,
) -> Result<Box<Head>, AllocError> {
    let exp = node(alloc, place, Form::Fold(Box::into_inner(kind)))?;
    let con = Box::into_inner(con);
    on_heap(alloc, Head { exp, con, sigil })
}

/// `fold`, over rows whose values have this kind.
fn fold_over(
    alloc: Global,
    env: &Env,
    place: Place,
    kind: Box<Kind>,
    sigil: Sigil,
) -> Result<Box<Head>, ElabFault> {
    let con = on_heap(alloc, env.scope.fold(alloc, &kind)?)?;
    Ok(fold_head(alloc, place, kind, con, sigil)?)
}

/// `fold`, over rows of the kind that its first type argument tells.
fn of_fold(
    alloc: Global,
    env: &Env,
    place: Place,
    first: Option<&plain_tree::Item>,
    sigil: Sigil,
    room: u32,
) -> Result<Box<Head>, ElabFault> {
    match first {
        Some(plain_tree::Item::Con(at, c)) => {
            let kind = folded_kind(alloc, env, *at, c, room)?;
            fold_over(alloc, env, place, kind, sigil)
        }
        _ => Err(ElabFault::Unsolved(place)),
    }
}

/// The value of a path, on the heap, where there is one.
fn value_of_path(
    alloc: Global,
    env: &Env,
    path: &Path,
) -> Result<Option<Box<KnownValue>>, AllocError> {
    maybe_on_heap(alloc, env.scope.value(alloc, path)?)
}

/// The constructor of a datatype of a path, on the heap, where there is one.
fn builder_of_path(
    alloc: Global,
    env: &Env,
    path: &Path,
) -> Result<Option<Box<KnownBuilder>>, AllocError> {
    maybe_on_heap(alloc, env.scope.builder(alloc, path)?)
}

/// A value by its name in the source; none where that is `fold`.
fn of_path(
    alloc: Global,
    env: &Env,
    place: Place,
    sigil: Sigil,
    path: &Path,
) -> Result<Option<Box<Head>>, ElabFault> {
    match value_of_path(alloc, env, path)? {
        None => Err(unbound(alloc, place, path)?),
        Some(known) => {
            if known.name == ValueName::Fold {
                Ok(None)
            } else {
                Ok(Some(of_value(alloc, place, known, sigil)?))
            }
        }
    }
}

/// A constructor of a datatype by its name in the source.
fn of_builder_path(
    alloc: Global,
    env: &Env,
    place: Place,
    sigil: Sigil,
    path: &Path,
) -> Result<Box<Head>, ElabFault> {
    match builder_of_path(alloc, env, path)? {
        None => Err(unbound(alloc, place, path)?),
        Some(known) => Ok(of_builder(alloc, place, known, sigil)?),
    }
}

/// A value of the basis, on the heap.
fn boxed_basis(
    alloc: Global,
    env: &Env,
    place: Place,
    name: BasisName,
) -> Result<Box<Head>, ElabFault> {
    let known = on_heap(alloc, env.scope.basis(alloc, name)?)?;
    of_value(alloc, place, known, Sigil::Plain)
}

/// A constructor that every program has.
fn of_basis_builder(
    alloc: Global,
    env: &Env,
    place: Place,
    builder: BasisBuilder,
) -> Result<Box<Head>, AllocError> {
    let known = on_heap(alloc, env.scope.basis_builder(alloc, builder)?)?;
    of_builder(alloc, place, known, Sigil::Plain)
}

/// A value of the basis.
pub fn of_basis(
    alloc: Global,
    env: &Env,
    place: Place,
    name: BasisName,
) -> Result<Head, ElabFault> {
    let head = boxed_basis(alloc, env, place, name)?;
    Ok(Box::into_inner(head))
}

/// The value of the basis that sugar stands for.
fn of_sugar(alloc: Global, env: &Env, place: Place, basis: Basis) -> Result<Box<Head>, ElabFault> {
    let name = match basis {
        Basis::Bind => BasisName::Bind,
        Basis::Txt => BasisName::Txt,
        Basis::Neg => BasisName::Neg,
        Basis::Eq => BasisName::Eq,
        Basis::Ne => BasisName::Ne,
        Basis::Lt => BasisName::Lt,
        Basis::Le => BasisName::Le,
        Basis::Builder(b) => return Ok(of_basis_builder(alloc, env, place, b)?),
    };
    boxed_basis(alloc, env, place, name)
}

/// The value of the basis that an operator of a chain stands for.
pub fn operator(infix: Infix) -> Option<BasisName> {
    match infix {
        Infix::Strcat => Some(BasisName::Strcat),
        Infix::Plus => Some(BasisName::Plus),
        Infix::Minus => Some(BasisName::Minus),
        Infix::Times => Some(BasisName::Times),
        Infix::Divide => Some(BasisName::Divide),
        Infix::Mod => Some(BasisName::Mod),
        Infix::Or | Infix::And | Infix::Concat => None,
    }
}

/// What a call of an identifier begins with; none where the term is none. `first` is what the call is applied to first.
#[inline(never)]
pub fn head_of_call(
    alloc: Global,
    env: &Env,
    e: &plain_tree::Exp,
    first: Option<&plain_tree::Item>,
    room: u32,
) -> Result<Option<Head>, ElabFault> {
    let place = env.place(e.at);
    let head = match &e.form {
        plain_tree::Form::Name(sigil, path) => {
            let sigil = sigil_of(*sigil);
            match of_path(alloc, env, place, sigil, path)? {
                Some(head) => head,
                None => of_fold(alloc, env, place, first, sigil, room)?,
            }
        }
        plain_tree::Form::Builder(sigil, path) => {
            of_builder_path(alloc, env, place, sigil_of(*sigil), path)?
        }
        plain_tree::Form::Basis(basis) => of_sugar(alloc, env, place, *basis)?,
        _ => return Ok(None),
    };
    Ok(Some(Box::into_inner(head)))
}
