//! The pieces of a path.
ghost use Rattle.std.specs.Prelude.{◌≡◌, ◌∷◌, ◌++◌, ◌<◌, [], ℕ, List, None, Some, map, drop, length, IfOk, IfSome, IfNone};
ghost use Rattle.percent_encoding.specs.Percent as spec;
ghost use Rattle.link_router.specs.Links.{split, from_slash, path_of, path_pieces};

use crate::leaves::are_same;
use percent_encoding::percent_decode;
use std::alloc::{AllocError, Global};
use std::marker::Model;
use table_rows::{Bytes, Texts};

/// The pieces that are left to be read.
#[derive(Drop)]
pub struct Pieces<'p> {
    left: &'p [Bytes],
}

impl<'p> Model for Pieces<'p> {
    ghost use Rattle.std.specs.Prelude.{ℕ, List};

    ghost Value = { List (List ℕ) };

    ghost view = { λ pieces. pieces.left.now };
}

impl<'p> Pieces<'p> {
    /// All of these.
    pub fn of(left: &'p [Bytes]) -> Pieces<'p>
        ensures { result ≡ left.now }
    {
        Pieces { left }
    }

    /// How many are left.
    pub fn len(&self) -> usize
        ensures { result ≡ length self.now }
    {
        self.left.len()
    }

    /// The first that is left.
    pub fn first(&self) -> Option<&'p [u8]>
        ensures some { IfSome result (λ piece. self.now ≡ piece.now ∷ drop 1 self.now) }
        ensures none { IfNone result (self.now ≡ []) }
    {
        let (first, _) = self.left.split_first()?;
        Some(first.as_slice())
    }

    /// Leaves the first away.
    pub fn pass(&mut self)
        requires { 0 < length self.old }
        ensures { self.new ≡ drop 1 self.old }
    {
        self.left = &self.left[1..];
    }
}

/// What stands from the first slash on.
fn behind_authority(bytes: &[u8]) -> &[u8]
    ensures { result.now ≡ from_slash bytes.now }
{
    let mut rest = bytes;
    while let Some((first, others)) = rest.split_first() {
        if *first == b'/' {
            return rest;
        }
        rest = others;
    }
    rest
}

/// The path of a target: `http://` and an authority before it, in whatever case, don't count.
fn path(target: &[u8]) -> &[u8]
    ensures { result.now ≡ path_of target.now }
{
    if target.len() < 7 {
        return target;
    }
    let (scheme, rest) = target.split_at(7);
    if scheme.eq_ignore_ascii_case(b"http://") {
        behind_authority(rest)
    } else {
        target
    }
}

/// A piece, percent-decoded.
fn decoded(alloc: Global, piece: &[u8]) -> Result<Bytes, AllocError>
    ensures { IfOk result (λ bytes. bytes ≡ spec.percent_decode piece.now) }
{
    let mut bytes = Vec::new(alloc);
    percent_decode(piece).append_to(&mut bytes)?;
    Bytes::of(alloc, bytes.as_slice())
}

/// The pieces between slashes, percent-decoded.
fn pieces_between(alloc: Global, bytes: &[u8]) -> Result<Vec<Bytes>, AllocError>
    ensures { IfOk result (λ pieces. pieces.items ≡ map spec.percent_decode (split bytes.now)) }
{
    let mut pieces = Vec::new(alloc);
    let mut piece: Vec<u8> = Vec::new(alloc);
    let mut rest = bytes;
    while let Some((first, others)) = rest.split_first() {
        if *first == b'/' {
            pieces.push(decoded(alloc, piece.as_slice())?)?;
            piece = Vec::new(alloc);
        } else {
            piece.push(*first)?;
        }
        rest = others;
    }
    pieces.push(decoded(alloc, piece.as_slice())?)?;
    Ok(pieces)
}

/// The pieces of a target's path, percent-decoded. A path that doesn't begin with a slash has none.
pub fn target_pieces(alloc: Global, target: &[u8]) -> Result<Option<Vec<Bytes>>, AllocError>
    ensures some { IfOk result (λ found.
        IfSome found (λ pieces. path_pieces (path_of target.now) ≡ Some pieces.items)) }
    ensures none { IfOk result (λ found. IfNone found (path_pieces (path_of target.now) ≡ None)) }
{
    let Some((first, others)) = path(target).split_first() else {
        return Ok(None);
    };
    if *first != b'/' {
        return Ok(None);
    }
    Ok(Some(pieces_between(alloc, others)?))
}

/// The pieces behind names, where these are the first pieces.
pub fn behind_names<'p>(names: &Texts, pieces: &'p [Bytes]) -> Option<&'p [Bytes]>
    ensures some { IfSome result (λ rest. pieces.now ≡ names.now ++ rest.now) }
    ensures none { IfNone result ((rest : List (List ℕ)) → pieces.now ≡ names.now ++ rest → ⊥) }
{
    let mut rest = pieces;
    for i in 0..names.len() {
        let Some((first, others)) = rest.split_first() else {
            return None;
        };
        if are_same(first.as_slice(), names.at(i).as_bytes()) {
            rest = others;
        } else {
            return None;
        }
    }
    Some(rest)
}
