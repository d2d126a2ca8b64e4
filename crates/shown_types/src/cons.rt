//! Constructors.
//!
//! A level says where a constructor stands: what binds less tightly is put in brackets there.
ghost use Rattle.std.specs.Prelude.{◌≡◌, ◌+◌, ◌∷◌, true, false, codes, decimal, OnOk};
ghost use Rattle.con_terms.specs.View.{con_tree, cons_tree, kind_tree, pair_tree, pairs_tree};
ghost use Rattle.shown_types.specs.Names.{new_name as new_name_of};
ghost use Rattle.shown_types.specs.Order.{in_order};
ghost use Rattle.shown_types.specs.Printed.{put_con as with_con, put_cons as with_cons, put_field as with_field, put_fields as with_fields, put_kind as with_kind, put_name as with_name, put_row as with_row};
ghost use Rattle.shown_types.specs.Shown.{colons as colons_of, is_record as is_record_tree, literal, literal_text};
ghost use Rattle.shown_types.specs.View.{known_view};
ghost use Rattle.shown_types.specs.Words.{put_wanted, put_word};

use crate::called::{inside, new_name, variable};
use crate::kinds::put_kind;
use crate::known::{Known, put_label, put_type};
use crate::line::Line;
use crate::rows::{is_record, is_unit, literal_name, ordered};
use con_terms::{Con, Cons, Kind, Pair, Pairs};
use std::alloc::AllocError;
use table_rows::Texts;

/// Anything may stand here.
pub const WHOLE: u32 = 0;

/// A row here may be put together with `++`.
pub const SUM: u32 = 1;

/// Here stands an application at most.
pub const APPLIED: u32 = 2;

/// Only what is one piece stands here.
pub const PIECE: u32 = 3;

/// Puts a constructor behind a text where a level wants it, so many levels of it at most. `called` is what the
/// variables in scope are called, the innermost first.
#[cycle(con)]
pub fn put_con(
    known: &Known<'_>,
    called: &Texts,
    line: &mut Line,
    con: &Con,
    level: u32,
    room: u32,
) -> Result<(), AllocError>
    ensures { OnOk result (line.new ≡ with_con (known_view known.now) called.now level (con_tree con.now) line.old) }
{
    if room == 0 {
        return Err(AllocError);
    }
    let room = room - 1;
    match con {
        Con::Var(number) => line.word(variable(called, *number)),
        Con::Basic(symbol) => put_type(known, line, *symbol),
        Con::Arrow(from, to) => put_arrow(known, called, line, from, to, WHOLE < level, room),
        Con::Poly(implicit, kind, body) => {
            put_poly(
                known,
                called,
                line,
                *implicit,
                kind,
                body,
                WHOLE < level,
                room,
            )
        }
        Con::Guarded(left, right, body) => {
            put_guarded(known, called, line, left, right, body, WHOLE < level, room)
        }
        Con::Record(row) => put_record(known, called, line, row, room),
        Con::App(head, argument) => {
            put_app(known, called, line, head, argument, APPLIED < level, room)
        }
        Con::Lambda(kind, body) => put_lambda(known, called, line, kind, body, WHOLE < level, room),
        Con::UnitCon => put_unit(line),
        Con::Name(symbol) => put_label(known, line, *symbol),
        Con::Row(_, pairs) => put_row(known, called, line, pairs, room),
        Con::Cat(left, right) => put_cat(known, called, line, left, right, SUM < level, room),
        Con::Map(_, _) => line.word("map"),
        Con::Tuple(cons) => put_tuple(known, called, line, cons, room),
        Con::Proj(whole, place) => put_component(known, called, line, whole, *place, room),
    }
}

/// `()`
fn put_unit(line: &mut Line) -> Result<(), AllocError>
    ensures { OnOk result (line.new ≡ put_word (codes ")") (put_word (codes "(") line.old)) }
{
    line.word("(")?;
    line.word(")")
}

/// `a -> b`
#[cycle(con)]
fn put_arrow(
    known: &Known<'_>,
    called: &Texts,
    line: &mut Line,
    from: &Con,
    to: &Con,
    tight: bool,
    room: u32,
) -> Result<(), AllocError>
    ensures { OnOk result (line.new ≡ put_wanted tight (codes ")")
        (with_con (known_view known.now) called.now 0 (con_tree to.now) (put_word (codes "->")
        (with_con (known_view known.now) called.now 1 (con_tree from.now) (put_wanted tight (codes "(") line.old))))) }
{
    line.wanted(tight, "(")?;
    put_con(known, called, line, from, SUM, room)?;
    line.word("->")?;
    put_con(known, called, line, to, WHOLE, room)?;
    line.wanted(tight, ")")
}

/// `a ++ b`
#[cycle(con)]
fn put_cat(
    known: &Known<'_>,
    called: &Texts,
    line: &mut Line,
    left: &Con,
    right: &Con,
    tight: bool,
    room: u32,
) -> Result<(), AllocError>
    ensures { OnOk result (line.new ≡ put_wanted tight (codes ")")
        (with_con (known_view known.now) called.now 2 (con_tree right.now) (put_word (codes "++")
        (with_con (known_view known.now) called.now 1 (con_tree left.now) (put_wanted tight (codes "(") line.old))))) }
{
    line.wanted(tight, "(")?;
    put_con(known, called, line, left, SUM, room)?;
    line.word("++")?;
    put_con(known, called, line, right, APPLIED, room)?;
    line.wanted(tight, ")")
}

/// `f a`
#[cycle(con)]
fn put_app(
    known: &Known<'_>,
    called: &Texts,
    line: &mut Line,
    head: &Con,
    argument: &Con,
    tight: bool,
    room: u32,
) -> Result<(), AllocError>
    ensures { OnOk result (line.new ≡ put_wanted tight (codes ")")
        (with_con (known_view known.now) called.now 3 (con_tree argument.now)
        (with_con (known_view known.now) called.now 2 (con_tree head.now) (put_wanted tight (codes "(") line.old)))) }
{
    line.wanted(tight, "(")?;
    put_con(known, called, line, head, APPLIED, room)?;
    put_con(known, called, line, argument, PIECE, room)?;
    line.wanted(tight, ")")
}

/// `:::` where calls leave the constructor out, else `::`.
fn colons(implicit: bool) -> &'static str
    ensures { result.now ≡ colons_of implicit }
{
    if implicit { ":::" } else { "::" }
}

/// `x :: k -> c`
#[cycle(con)]
fn put_poly(
    known: &Known<'_>,
    called: &Texts,
    line: &mut Line,
    implicit: bool,
    kind: &Kind,
    body: &Con,
    tight: bool,
    room: u32,
) -> Result<(), AllocError>
    ensures { OnOk result (line.new ≡ put_wanted tight (codes ")")
        (with_con (known_view known.now) (new_name_of called.now (kind_tree kind.now) ∷ called.now) 0
        (con_tree body.now) (put_word (codes "->") (with_kind true (kind_tree kind.now) (put_word (colons_of implicit)
        (put_word (new_name_of called.now (kind_tree kind.now)) (put_wanted tight (codes "(") line.old))))))) }
{
    let name = new_name(known.alloc, called, kind)?;
    line.wanted(tight, "(")?;
    line.word(name.as_str())?;
    line.word(colons(implicit))?;
    put_kind(line, kind, true, room)?;
    line.word("->")?;
    let called = inside(known.alloc, name, called)?;
    put_con(known, &called, line, body, WHOLE, room)?;
    line.wanted(tight, ")")
}

/// `fn x :: k => c`
#[cycle(con)]
fn put_lambda(
    known: &Known<'_>,
    called: &Texts,
    line: &mut Line,
    kind: &Kind,
    body: &Con,
    tight: bool,
    room: u32,
) -> Result<(), AllocError>
    ensures { OnOk result (line.new ≡ put_wanted tight (codes ")")
        (with_con (known_view known.now) (new_name_of called.now (kind_tree kind.now) ∷ called.now) 0
        (con_tree body.now) (put_word (codes "=>") (with_kind false (kind_tree kind.now) (put_word (codes "::")
        (put_word (new_name_of called.now (kind_tree kind.now)) (put_word (codes "fn")
        (put_wanted tight (codes "(") line.old)))))))) }
{
    let name = new_name(known.alloc, called, kind)?;
    line.wanted(tight, "(")?;
    line.word("fn")?;
    line.word(name.as_str())?;
    line.word("::")?;
    put_kind(line, kind, false, room)?;
    line.word("=>")?;
    let called = inside(known.alloc, name, called)?;
    put_con(known, &called, line, body, WHOLE, room)?;
    line.wanted(tight, ")")
}

/// `[a ~ b] => c`
#[cycle(con)]
fn put_guarded(
    known: &Known<'_>,
    called: &Texts,
    line: &mut Line,
    left: &Con,
    right: &Con,
    body: &Con,
    tight: bool,
    room: u32,
) -> Result<(), AllocError>
    ensures { OnOk result (line.new ≡ put_wanted tight (codes ")")
        (with_con (known_view known.now) called.now 0 (con_tree body.now) (put_word (codes "=>") (put_word (codes "]")
        (with_con (known_view known.now) called.now 1 (con_tree right.now) (put_word (codes "~")
        (with_con (known_view known.now) called.now 1 (con_tree left.now) (put_word (codes "[")
        (put_wanted tight (codes "(") line.old))))))))) }
{
    line.wanted(tight, "(")?;
    line.word("[")?;
    put_con(known, called, line, left, SUM, room)?;
    line.word("~")?;
    put_con(known, called, line, right, SUM, room)?;
    line.word("]")?;
    line.word("=>")?;
    put_con(known, called, line, body, WHOLE, room)?;
    line.wanted(tight, ")")
}

/// `$r`
#[cycle(con)]
fn put_record(
    known: &Known<'_>,
    called: &Texts,
    line: &mut Line,
    row: &Con,
    room: u32,
) -> Result<(), AllocError>
    ensures { OnOk result (line.new
        ≡ with_con (known_view known.now) called.now 3 (con_tree row.now) (put_word (codes "$") line.old)) }
{
    line.word("$")?;
    put_con(known, called, line, row, PIECE, room)
}

/// `c.1`: the first component is 1. Behind a `$` it would be read as that of the row, so that stands in brackets.
#[cycle(con)]
fn put_component(
    known: &Known<'_>,
    called: &Texts,
    line: &mut Line,
    whole: &Con,
    place: u32,
    room: u32,
) -> Result<(), AllocError>
    ensures { OnOk result (line.new ≡ put_word (decimal (place + 1)) (put_word (codes ".")
        (put_wanted (is_record_tree (con_tree whole.now)) (codes ")")
        (with_con (known_view known.now) called.now 3 (con_tree whole.now)
        (put_wanted (is_record_tree (con_tree whole.now)) (codes "(") line.old))))) }
{
    let bracketed = is_record(whole);
    line.wanted(bracketed, "(")?;
    put_con(known, called, line, whole, PIECE, room)?;
    line.wanted(bracketed, ")")?;
    line.word(".")?;
    line.number(known.alloc, place as u64 + 1)
}

/// `(a, b)`
#[cycle(con)]
fn put_tuple(
    known: &Known<'_>,
    called: &Texts,
    line: &mut Line,
    cons: &Cons,
    room: u32,
) -> Result<(), AllocError>
    ensures { OnOk result (line.new ≡ put_word (codes ")")
        (with_cons (known_view known.now) called.now true (cons_tree cons.now) (put_word (codes "(") line.old))) }
{
    line.word("(")?;
    put_cons(known, called, line, cons, room)?;
    line.word(")")
}

/// Puts the constructors of a tuple behind a text.
#[cycle(con)]
fn put_cons(
    known: &Known<'_>,
    called: &Texts,
    line: &mut Line,
    cons: &Cons,
    room: u32,
) -> Result<(), AllocError>
    ensures { OnOk result (line.new
        ≡ with_cons (known_view known.now) called.now true (cons_tree cons.now) line.old) }
{
    let mut first = true;
    for i in 0..cons.items.len() {
        line.wanted(!first, ",")?;
        put_con(known, called, line, &cons.items[i], WHOLE, room)?;
        first = false;
    }
    Ok(())
}

/// `[A = c, ..]`
#[cycle(con)]
fn put_row(
    known: &Known<'_>,
    called: &Texts,
    line: &mut Line,
    pairs: &Pairs,
    room: u32,
) -> Result<(), AllocError>
    ensures { OnOk result (line.new ≡ put_word (codes "]")
        (with_fields true (in_order (with_row (known_view known.now) called.now (pairs_tree pairs.now)))
        (put_word (codes "[") line.old))) }
{
    line.word("[")?;
    put_fields(known, called, line, pairs, room)?;
    line.word("]")
}

/// Puts the fields of a row behind a text.
#[cycle(con)]
fn put_fields(
    known: &Known<'_>,
    called: &Texts,
    line: &mut Line,
    pairs: &Pairs,
    room: u32,
) -> Result<(), AllocError>
    ensures { OnOk result (line.new
        ≡ with_fields true (in_order (with_row (known_view known.now) called.now (pairs_tree pairs.now))) line.old) }
{
    let fields = ordered(known, pairs)?;
    let mut first = true;
    for i in 0..fields.len() {
        line.wanted(!first, ",")?;
        put_field(known, called, line, fields[i], room)?;
        first = false;
    }
    Ok(())
}

/// `A = c`. The value `()` isn't printed.
#[cycle(con)]
fn put_field(
    known: &Known<'_>,
    called: &Texts,
    line: &mut Line,
    pair: &Pair,
    room: u32,
) -> Result<(), AllocError>
    ensures { OnOk result (line.new ≡ with_field (known_view known.now) called.now (pair_tree pair.now) line.old) }
{
    put_name(known, called, line, &pair.name, room)?;
    if is_unit(&pair.value) {
        return Ok(());
    }
    line.word("=")?;
    put_con(known, called, line, &pair.value, WHOLE, room)
}

/// Puts the name of a field behind a text, a literal one without its sign.
#[cycle(con)]
pub fn put_name(
    known: &Known<'_>,
    called: &Texts,
    line: &mut Line,
    name: &Con,
    room: u32,
) -> Result<(), AllocError>
    ensures { OnOk result (line.new
        ≡ with_name (literal_text (known_view known.now) (literal (con_tree name.now)))
        (with_con (known_view known.now) called.now 3 (con_tree name.now)) line.old) }
{
    match literal_name(known, name) {
        Some(text) => line.word(text),
        None => put_con(known, called, line, name, PIECE, room),
    }
}
