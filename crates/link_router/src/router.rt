//! The call that a path is.
ghost use Rattle.std.specs.Prelude.{◌≡◌, ℕ, List, Some, IfOk, IfErr, IfSome, IfNone};
ghost use Rattle.link_router.specs.Links.{Route, path_of, path_pieces};
ghost use Rattle.link_router.specs.Routed.{Astray, Refuses};
ghost use Rattle.link_router.specs.RouteLaws.{AreNamed, ReadAs};
ghost use Rattle.link_router.specs.Calls.{Cl, is_post};
ghost use Rattle.link_router.specs.Answered.{FitsEntry, FoundEntry, NoEntryFound, IsCallAt, StraysAt, IsRefusal, AnswersSo, AnswersCall};
ghost use Rattle.link_router.specs.View.{entry_view, routes_view, call_view};
ghost use Rattle.table_rows.specs.View.{datatypes_view};

use crate::call::Call;
use crate::frames::Stopped;
use crate::pieces::{Pieces, behind_names, target_pieces};
use crate::reader::read_arguments;
use crate::routes::{Entry, Routes};
use std::alloc::{AllocError, Global};
use table_rows::{Bytes, Datatypes, Text};
use thiserror::Error;

/// Why a path is no call.
#[derive(Debug, Drop, Error)]
pub enum LinkFault {
    /// No entry has this name.
    #[error("NoRoute")]
    NoRoute,
    /// Only an entry that is read by the other method has this name.
    #[error("OtherMethod")]
    OtherMethod,
    /// The piece with this number behind the function's name isn't UTF-8, or isn't of its part's form.
    #[error("BadPiece {index}")]
    BadPiece { index: usize },
    /// A part has no piece.
    #[error("TooFewPieces")]
    TooFewPieces,
    /// Pieces are left over.
    #[error("TooManyPieces")]
    TooManyPieces,
    /// Want of memory.
    #[error("Memory")]
    Memory,
}

impl From<AllocError> for LinkFault {
    ghost use Rattle.std.specs.Prelude.{◌≡◌};
    ghost use Rattle.link_router.specs.declared.router.LinkFault.TheVariants.{Memory};

    ghost from_gives = { λ _ fault. fault ≡ Memory };

    fn from(_: AllocError) -> LinkFault {
        LinkFault::Memory
    }
}

/// Whether an entry is read by POST: it has a form.
fn is_read_by_post(entry: &Entry) -> bool
    ensures { result ≡ is_post (entry_view entry.now).form }
{
    match &entry.form {
        Some(_) => true,
        None => false,
    }
}

/// The pieces behind an entry's name, where it is read by this method and the pieces begin with its name.
fn behind_entry<'p>(entry: &Entry, post: bool, pieces: &'p [Bytes]) -> Option<&'p [Bytes]>
    ensures some { IfSome result (λ rest. FitsEntry post pieces.now (entry_view entry.now) rest.now) }
    ensures none { IfNone result ((rest : List (List ℕ)) → FitsEntry post pieces.now (entry_view entry.now) rest → ⊥) }
{
    if is_read_by_post(entry) != post {
        return None;
    }
    behind_names(&entry.name, pieces)
}

/// The first entry, read by this method, whose name the pieces begin with: its place, and the pieces behind the name.
fn entry_named<'e, 'p>(
    routes: &'e Routes,
    post: bool,
    pieces: &'p [Bytes],
) -> Option<(usize, &'e Entry, &'p [Bytes])>
    ensures some { IfSome result (λ found. FoundEntry (routes_view routes.now) post pieces.now
        found.0 (entry_view found.1.now) found.2.now) }
    ensures none { IfNone result (NoEntryFound (routes_view routes.now) post pieces.now) }
{
    for i in 0..routes.entries.len() {
        let entry = &routes.entries[i];
        match behind_entry(entry, post, pieces) {
            Some(rest) => return Some((i, entry, rest)),
            None => {}
        }
    }
    None
}

/// The call of an entry whose arguments these pieces are, or why they are none.
fn called_at(
    alloc: Global,
    datatypes: &Datatypes,
    place: usize,
    entry: &Entry,
    rest: &[Bytes],
) -> Result<Call, LinkFault>
    ensures read { IfOk result (λ call. IsCallAt (datatypes_view datatypes.now) place (entry_view entry.now)
        rest.now (call_view call)) }
    ensures refused { IfErr result (λ fault. StraysAt (datatypes_view datatypes.now) (entry_view entry.now)
        rest.now fault) }
{
    if place > 0xffff_ffff {
        return Err(LinkFault::Memory);
    }
    let mut left = Pieces::of(rest);
    match read_arguments(alloc, datatypes, &entry.arguments, &mut left) {
        Ok(wires) => match left.first() {
            None => Ok(Call {
                entry: place as u32,
                wires,
                form: None,
                cookie: Bytes::new(alloc),
            }),
            Some(_) => Err(LinkFault::TooManyPieces),
        },
        Err(Stopped::Bad) => Err(LinkFault::BadPiece {
            index: rest.len().saturating_sub(left.len()),
        }),
        Err(Stopped::Few) => Err(LinkFault::TooFewPieces),
        Err(Stopped::Memory) => Err(LinkFault::Memory),
    }
}

/// Why pieces that begin with no entry's name, read by this method, are no call.
fn astray(routes: &Routes, post: bool, pieces: &[Bytes]) -> LinkFault
    ensures { (target : List ℕ) → path_pieces (path_of target) ≡ Some pieces.now
        → NoEntryFound (routes_view routes.now) post pieces.now
        → IsRefusal (routes_view routes.now) post target result }
{
    match entry_named(routes, !post, pieces) {
        Some(_) => LinkFault::OtherMethod,
        None => LinkFault::NoRoute,
    }
}

/// The call that the pieces of a target are read as, or why they are none.
fn called_by(
    alloc: Global,
    routes: &Routes,
    post: bool,
    pieces: &[Bytes],
) -> Result<Call, LinkFault>
    ensures read { (target : List ℕ) → path_pieces (path_of target) ≡ Some pieces.now
        → IfOk result (λ call. ReadAs (routes_view routes.now) post target (call_view call)) }
    ensures refused { (target : List ℕ) → path_pieces (path_of target) ≡ Some pieces.now
        → IfErr result (λ fault. IsRefusal (routes_view routes.now) post target fault) }
{
    match entry_named(routes, post, pieces) {
        Some((place, entry, rest)) => called_at(alloc, &routes.datatypes, place, entry, rest),
        None => Err(astray(routes, post, pieces)),
    }
}

/// The call that a target is read as, or why it is none.
fn called(alloc: Global, routes: &Routes, post: bool, target: &[u8]) -> Result<Call, LinkFault>
    ensures read { IfOk result (λ call. ReadAs (routes_view routes.now) post target.now (call_view call)) }
    ensures refused { IfErr result (λ fault. IsRefusal (routes_view routes.now) post target.now fault) }
{
    let found = target_pieces(alloc, target)?;
    match found {
        Some(pieces) => called_by(alloc, routes, post, pieces.as_slice()),
        None => Err(LinkFault::NoRoute),
    }
}

/// The call that a path is, by the method POST or else by GET. It has no form, and no cookie.
pub fn read_link(alloc: Global, routes: &Routes, post: bool, path: &Text) -> Result<Call, LinkFault>
    ensures read { IfOk result (λ call. ReadAs (routes_view routes.now) post path.now (call_view call)) }
    ensures refused { IfErr result (λ fault. IsRefusal (routes_view routes.now) post path.now fault) }
    ensures route { AreNamed (routes_view routes.now)
        → IfOk result (λ call. Route (routes_view routes.now) post path.now (call_view call)) }
    ensures each_route { AreNamed (routes_view routes.now) → (call : Cl)
        → Route (routes_view routes.now) post path.now call → AnswersCall result call }
    ensures each_refusal { AreNamed (routes_view routes.now) → (why : Astray)
        → Refuses (routes_view routes.now) post path.now why → AnswersSo result why }
{
    called(alloc, routes, post, path.as_bytes())
}
