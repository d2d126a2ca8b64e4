//! Names, labels, and what their kinds are.
use con_nodes::left_beside;
use con_terms::{Con, Kind, Place, SymTable, copy_kind};
use kind_rules::Differing;
use name_scopes::{ElabFault, KnownType, Scope, path_text};
use plain_tree::{Label, Path};
use std::alloc::{AllocError, Global};
use type_faults::Fault;
use type_makers::{arrow_kind, row_kind};

/// A constructor with its kind.
#[derive(Drop)]
pub struct KindedCon {
    pub con: Box<Con>,
    pub kind: Box<Kind>,
}

/// A constructor, on the heap.
pub fn con_on_heap(alloc: Global, con: Con) -> Result<Box<Con>, AllocError> {
    Ok(Box::new(alloc, con)?)
}

/// A kind, on the heap.
pub fn kind_on_heap(alloc: Global, kind: Kind) -> Result<Box<Kind>, AllocError> {
    Ok(Box::new(alloc, kind)?)
}

/// A constructor with its kind, on the heap.
pub fn kinded(alloc: Global, con: Con, kind: Kind) -> Result<KindedCon, AllocError> {
    let con = con_on_heap(alloc, con)?;
    let kind = kind_on_heap(alloc, kind)?;
    Ok(KindedCon { con, kind })
}

/// What stays the same throughout a constructor.
#[derive(Drop)]
pub struct Here<'a> {
    pub alloc: Global,
    /// The symbols of all texts.
    pub names: &'a SymTable,
    /// The number of the file.
    pub file: u32,
    /// How many nodes what names stand for may still have.
    pub left: u32,
}

impl<'a> Here<'a> {
    /// A place of this file.
    pub fn place(&self, at: u32) -> Place {
        Place {
            file: self.file,
            at,
        }
    }
}

/// A copy of a kind, on the heap.
pub fn boxed_kind(alloc: Global, kind: &Kind) -> Result<Box<Kind>, AllocError> {
    kind_on_heap(alloc, copy_kind(alloc, kind)?)
}

/// The kind of rows of a kind, on the heap.
pub fn boxed_rows(alloc: Global, kind: &Kind) -> Result<Box<Kind>, AllocError> {
    let kind = boxed_kind(alloc, kind)?;
    kind_on_heap(alloc, Kind::Row(kind))
}

/// A copy of a kind on the heap, where there is one.
pub fn copy_maybe(alloc: Global, kind: Option<&Kind>) -> Result<Option<Box<Kind>>, AllocError> {
    match kind {
        None => Ok(None),
        Some(kind) => Ok(Some(boxed_kind(alloc, kind)?)),
    }
}

/// The fault that a kind is found where another is wanted.
pub fn kinds_differ(
    here: &Here<'_>,
    at: u32,
    wanted: Kind,
    found: Kind,
) -> Result<ElabFault, AllocError> {
    let differing = Box::new(here.alloc, Differing { wanted, found })?;
    Ok(ElabFault::Told(Fault::KindMismatch(here.place(at), differing)))
}

/// A name of the type level. One that isn't in scope is told.
#[inline(never)]
pub fn named(
    here: &mut Here<'_>,
    scope: &Scope,
    at: u32,
    path: &Path,
    wanted: Option<&Kind>,
) -> Result<KindedCon, ElabFault> {
    match scope.type_named(here.alloc, path)? {
        Some(KnownType::Known(con, kind)) => known(here, con, kind),
        Some(KnownType::Folder) => folder_wanted(here, scope, wanted),
        Some(KnownType::Map) => map_wanted(here, wanted),
        None => {
            let text = path_text(here.alloc, path)?;
            Err(ElabFault::Unbound(here.place(at), text))
        }
    }
}

/// What a name stands for, where it has fewer nodes than are left.
fn known(here: &mut Here<'_>, con: Con, kind: Kind) -> Result<KindedCon, ElabFault> {
    let left = left_beside(&con, here.left);
    if left == 0 {
        return Err(ElabFault::Memory);
    }
    here.left = left;
    Ok(kinded(here.alloc, con, kind)?)
}

/// `folder` over rows whose values have this kind.
pub fn folder_over(here: &Here<'_>, scope: &Scope, kind: Kind) -> Result<KindedCon, ElabFault> {
    let symbol = scope.folder(here.alloc, &kind)?;
    let rows = row_kind(here.alloc, kind)?;
    let of_rows = arrow_kind(here.alloc, rows, Kind::Types)?;
    Ok(kinded(here.alloc, Con::Basic(symbol), of_rows)?)
}

/// `folder` alone, over rows of the kind that is wanted.
fn folder_wanted(
    here: &Here<'_>,
    scope: &Scope,
    wanted: Option<&Kind>,
) -> Result<KindedCon, ElabFault> {
    if let Some(Kind::Arrow(from, _)) = wanted {
        if let Kind::Row(kind) = &**from {
            return folder_over(here, scope, copy_kind(here.alloc, kind)?);
        }
    }
    folder_over(here, scope, Kind::Types)
}

/// `from -> to`, on the heap.
fn of_each(alloc: Global, from: &Kind, to: &Kind) -> Result<Box<Kind>, AllocError> {
    let from = boxed_kind(alloc, from)?;
    let to = boxed_kind(alloc, to)?;
    kind_on_heap(alloc, Kind::Arrow(from, to))
}

/// `{from} -> {to}`, on the heap.
fn of_rows(alloc: Global, from: &Kind, to: &Kind) -> Result<Box<Kind>, AllocError> {
    let from = boxed_rows(alloc, from)?;
    let to = boxed_rows(alloc, to)?;
    kind_on_heap(alloc, Kind::Arrow(from, to))
}

/// The kind of `map` from a kind to another.
fn kind_of_map(alloc: Global, from: &Kind, to: &Kind) -> Result<Box<Kind>, AllocError> {
    let function = of_each(alloc, from, to)?;
    let rows = of_rows(alloc, from, to)?;
    kind_on_heap(alloc, Kind::Arrow(function, rows))
}

/// `map` from a kind to another.
pub fn map_over(alloc: Global, from: &Kind, to: &Kind) -> Result<KindedCon, AllocError> {
    let kind = kind_of_map(alloc, from, to)?;
    let first = boxed_kind(alloc, from)?;
    let second = boxed_kind(alloc, to)?;
    let con = con_on_heap(alloc, Con::Map(first, second))?;
    Ok(KindedCon { con, kind })
}

/// `map` alone, of the kind that is wanted.
fn map_wanted(here: &Here<'_>, wanted: Option<&Kind>) -> Result<KindedCon, ElabFault> {
    if let Some(Kind::Arrow(function, _)) = wanted {
        if let Kind::Arrow(from, to) = &**function {
            return Ok(map_over(here.alloc, from, to)?);
        }
    }
    Ok(map_over(here.alloc, &Kind::Types, &Kind::Types)?)
}

/// The name of a field. The symbols of all names were made before.
#[inline(never)]
pub fn labelled(here: &Here<'_>, label: &Label) -> Result<KindedCon, ElabFault> {
    let found = match label {
        Label::Word(text) => here.names.find(text.as_str()),
        Label::Number(number) => here.names.find(number.to_string(here.alloc)?.as_str()),
    };
    match found {
        Some(symbol) => Ok(kinded(here.alloc, Con::Name(symbol), Kind::Names)?),
        None => Err(ElabFault::Memory),
    }
}
