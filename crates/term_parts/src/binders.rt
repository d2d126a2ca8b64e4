//! What stands around a term put around it, once the term is known.
use con_terms::{Con, Kind, Place, Sym, copy_con, copy_kind};
use core_terms::{Branch, Branches, Exp, Form, Locals, Pat, PatForm};
use name_scopes::KnownBuilder;
use open_terms::{CaseRest, Typed, node, on_heap};
use std::alloc::{AllocError, Global};
use type_makers::{arrow, guarded, poly};

/// `fn p => e`
#[inline(never)]
pub fn around_fn(
    alloc: Global,
    place: Place,
    pat: Box<Pat>,
    con: Box<Con>,
    body: Box<Typed>,
) -> Result<Box<Typed>, AllocError> {
    let Typed { exp, con: gives } = Box::into_inner(body);
    let t = arrow(alloc, copy_con(alloc, &con)?, gives)?;
    let exp = node(alloc, place, Form::Fn(pat, Box::into_inner(con), exp))?;
    Ok(on_heap(alloc, Typed { exp, con: t })?)
}

/// `fn [x :: k] => e`
#[inline(never)]
pub fn around_con(
    alloc: Global,
    place: Place,
    symbol: Sym,
    implicit: bool,
    written: bool,
    kind: Box<Kind>,
    body: Box<Typed>,
) -> Result<Box<Typed>, AllocError> {
    let Typed { exp, con } = Box::into_inner(body);
    let t = poly(alloc, implicit, copy_kind(alloc, &kind)?, con)?;
    let kind = Box::into_inner(kind);
    let exp = node(
        alloc,
        place,
        Form::FnCon(symbol, implicit, written, kind, exp),
    )?;
    Ok(on_heap(alloc, Typed { exp, con: t })?)
}

/// `fn [c ~ d] => e`
#[inline(never)]
pub fn around_guard(
    alloc: Global,
    place: Place,
    left: Box<Con>,
    right: Box<Con>,
    body: Box<Typed>,
) -> Result<Box<Typed>, AllocError> {
    let Typed { exp, con } = Box::into_inner(body);
    let t = guarded(
        alloc,
        copy_con(alloc, &left)?,
        copy_con(alloc, &right)?,
        con,
    )?;
    let exp = node(alloc, place, Form::FnGuard(left, right, exp))?;
    Ok(on_heap(alloc, Typed { exp, con: t })?)
}

/// `let .. in e end`
#[inline(never)]
pub fn around_let(
    alloc: Global,
    place: Place,
    locals: Locals,
    body: Box<Typed>,
) -> Result<Box<Typed>, AllocError> {
    let Typed { exp, con } = Box::into_inner(body);
    let exp = node(alloc, place, Form::Let(locals, exp))?;
    Ok(on_heap(alloc, Typed { exp, con })?)
}

/// `case e of p => first | ..`, whose type is that of its first branch.
#[inline(never)]
pub fn around_case(
    alloc: Global,
    case: CaseRest<'_>,
    first: Box<Typed>,
    rest: Branches,
) -> Result<Box<Typed>, AllocError> {
    let CaseRest {
        env: _,
        place,
        scrutinee,
        branch,
        pat,
        rest: _,
    } = case;
    let Typed { exp: body, con } = Box::into_inner(first);
    let Typed {
        exp: matched,
        con: _,
    } = Box::into_inner(scrutinee);
    let first = branch_of(alloc, branch, pat, body)?;
    let exp = case_of(alloc, place, matched, first, rest)?;
    Ok(on_heap(alloc, Typed { exp, con })?)
}

/// `p => e`
fn branch_of(
    alloc: Global,
    place: Place,
    pat: Box<Pat>,
    body: Box<Exp>,
) -> Result<Box<Branch>, AllocError> {
    let branch = Branch {
        place,
        pat: Box::into_inner(pat),
        body: Box::into_inner(body),
    };
    on_heap(alloc, branch)
}

/// `case e of first | ..`
fn case_of(
    alloc: Global,
    place: Place,
    scrutinee: Box<Exp>,
    first: Box<Branch>,
    rest: Branches,
) -> Result<Box<Exp>, AllocError> {
    node(alloc, place, Form::Case(scrutinee, first, rest))
}

/// `(e : t)`
#[inline(never)]
pub fn ascribed(
    alloc: Global,
    place: Place,
    inner: Box<Exp>,
    con: Con,
) -> Result<Box<Typed>, AllocError> {
    let t = copy_con(alloc, &con)?;
    let exp = node(alloc, place, Form::Typed(inner, con))?;
    Ok(on_heap(alloc, Typed { exp, con: t })?)
}

/// A branch for a constructor of a datatype that holds nothing.
pub fn bare_branch(
    alloc: Global,
    place: Place,
    known: &KnownBuilder,
    body: Box<Exp>,
) -> Result<Box<Branch>, AllocError> {
    let pat = Pat {
        place,
        form: PatForm::Build(known.datatype, known.index, None),
    };
    let pat = on_heap(alloc, pat)?;
    branch_of(alloc, place, pat, body)
}

/// `case e of yes => then | no => otherwise`
#[inline(never)]
pub fn two_branches(
    alloc: Global,
    place: Place,
    scrutinee: Box<Exp>,
    first: Box<Branch>,
    second: Box<Branch>,
) -> Result<Box<Exp>, AllocError> {
    let mut rest = Branches::new(alloc);
    rest.push(Box::into_inner(second))?;
    case_of(alloc, place, scrutinee, first, rest)
}
