//! Whether a constructor is what the source of one says.
ghost use Rattle.std.specs.Prelude.{◌≡◌, Bool, IfOk, option_map};
ghost use Rattle.con_terms.specs.Trees.{Cn};
ghost use Rattle.con_terms.specs.View.{con_tree, cons_tree, pair_tree, pairs_tree};
ghost use Rattle.plain_tree.specs.ConView.{con_tree as plain_con_tree, cons_tree as plain_cons_tree, con_field_tree as plain_field_tree, con_fields_tree as plain_fields_tree};
ghost use Rattle.row_normal.specs.SameTree.{flag_eq};
ghost use Rattle.source_names.specs.Parts.{if_any};
ghost use Rattle.source_names.specs.Reading as reading;
ghost use Rattle.source_names.specs.Scopes as scopes;
ghost use Rattle.source_names.specs.View.{scope_view};

use crate::here::Here;
use crate::parts::{app_parts, before_numbers, cat_parts, in_records};
use crate::texts::has_text;
use crate::types::names_type;
use con_terms::{Con, Cons, Pair, Pairs, Sym, same_kind};
use plain_tree::{Label, con as plain};
use std::alloc::{AllocError, Global};
use table_rows::Text;

/// Whether two flags are one.
fn same_flag(x: bool, y: bool) -> bool
    ensures { result ≡ flag_eq x y }
{
    if x { y } else { !y }
}

/// Whether a symbol is the one of a label.
fn is_label(alloc: Global, s: &Here<'_>, label: &Label, name: Sym) -> Result<bool, AllocError>
    ensures { IfOk result (λ b. b ≡ reading.is_label (scope_view s.now).tables label.now name.number) }
{
    match label {
        Label::Word(text) => Ok(has_text(s, name, text.as_str())),
        Label::Number(number) => {
            let digits = number.to_string(alloc)?;
            Ok(has_text(s, name, digits.as_str()))
        }
    }
}

/// Whether a constructor is what the source of one says.
#[cycle(reads_con)]
pub fn reads_con(alloc: Global, s: &Here<'_>, c: &plain::Con, con: &Con) -> Result<bool, AllocError>
    ensures { IfOk result
        (λ b. b ≡ reading.reads_con (scope_view s.now) (plain_con_tree c.now) (con_tree con.now)) }
{
    match &c.form {
        plain::ConForm::Name(path) => names_type(alloc, s, path, con),
        plain::ConForm::Wild => Ok(false),
        plain::ConForm::Label(label) => match con {
            Con::Name(name) => is_label(alloc, s, label, *name),
            _ => Ok(false),
        },
        plain::ConForm::Arrow(c, d) => match con {
            Con::Arrow(a, b) => {
                if !reads_con(alloc, s, c, a)? {
                    return Ok(false);
                }
                reads_con(alloc, s, d, b)
            }
            _ => Ok(false),
        },
        plain::ConForm::Poly(implicit, name, kind, c) => match con {
            Con::Poly(flag, k, b) => {
                if same_flag(*implicit, *flag) && same_kind(kind, k) {
                    reads_under(alloc, s, name, c, b)
                } else {
                    Ok(false)
                }
            }
            _ => Ok(false),
        },
        plain::ConForm::Guarded(c, d, e) => match con {
            Con::Guarded(l, r, b) => {
                if !reads_con(alloc, s, c, l)? {
                    return Ok(false);
                }
                if !reads_con(alloc, s, d, r)? {
                    return Ok(false);
                }
                reads_con(alloc, s, e, b)
            }
            _ => Ok(false),
        },
        plain::ConForm::Lambda(name, kind, c) => match con {
            Con::Lambda(k, b) => {
                if same_kind(kind, k) {
                    reads_under(alloc, s, name, c, b)
                } else {
                    Ok(false)
                }
            }
            _ => Ok(false),
        },
        plain::ConForm::Record(more, c) => match in_records(con, more) {
            Some(row) => reads_con(alloc, s, c, row),
            None => Ok(false),
        },
        plain::ConForm::Apply(function, arguments) => {
            match before_arguments(alloc, s, arguments, con)? {
                Some(applied) => reads_con(alloc, s, function, applied),
                None => Ok(false),
            }
        }
        plain::ConForm::Concat(first, more) => match before_rows(alloc, s, more, con)? {
            Some(row) => reads_con(alloc, s, first, row),
            None => Ok(false),
        },
        plain::ConForm::Unit => Ok(matches!(con, Con::UnitCon)),
        plain::ConForm::Tuple(parts) => match con {
            Con::Tuple(cs) => reads_cons(alloc, s, parts, cs),
            _ => Ok(false),
        },
        plain::ConForm::Kinded(part, _) => reads_con(alloc, s, part, con),
        plain::ConForm::Row(fields) => match con {
            Con::Row(_, ps) => reads_fields(alloc, s, fields, ps),
            _ => Ok(false),
        },
        plain::ConForm::Proj(tuple, numbers) => match before_numbers(con, numbers) {
            Some(inner) => reads_con(alloc, s, tuple, inner),
            None => Ok(false),
        },
    }
}

/// The same inside of a binder of a constructor variable.
#[cycle(reads_con)]
#[inline(never)]
fn reads_under(
    alloc: Global,
    s: &Here<'_>,
    name: &Text,
    c: &plain::Con,
    con: &Con,
) -> Result<bool, AllocError>
    ensures { IfOk result (λ b. b ≡ reading.reads_con (scopes.under_variable name.now (scope_view s.now))
        (plain_con_tree c.now) (con_tree con.now)) }
{
    let under = s.under_variable(alloc, name)?;
    reads_con(alloc, &under, c, con)
}

/// What a constructor applies to these arguments; nothing where its arguments are others.
#[cycle(reads_con)]
#[inline(never)]
fn before_arguments<'c>(
    alloc: Global,
    s: &Here<'_>,
    more: &plain::Cons,
    con: &'c Con,
) -> Result<Option<&'c Con>, AllocError>
    ensures { IfOk result (λ o. (first : Cn → Bool) →
        reading.reads_apps (scope_view s.now) (plain_cons_tree more.now) first (con_tree con.now)
        ≡ if_any first (option_map (λ c. con_tree c.now) o)) }
{
    let mut at = con;
    let mut left = more.items.len();
    while left > 0 {
        left -= 1;
        let part = &more.items[left];
        match app_parts(at) {
            None => return Ok(None),
            Some(two) => {
                if !reads_con(alloc, s, part, two.right)? {
                    return Ok(None);
                }
                at = two.left;
            }
        }
    }
    Ok(Some(at))
}

/// What a constructor has before these rows; nothing where others stand there.
#[cycle(reads_con)]
#[inline(never)]
fn before_rows<'c>(
    alloc: Global,
    s: &Here<'_>,
    more: &plain::Cons,
    con: &'c Con,
) -> Result<Option<&'c Con>, AllocError>
    ensures { IfOk result (λ o. (first : Cn → Bool) →
        reading.reads_cats (scope_view s.now) (plain_cons_tree more.now) first (con_tree con.now)
        ≡ if_any first (option_map (λ c. con_tree c.now) o)) }
{
    let mut at = con;
    let mut left = more.items.len();
    while left > 0 {
        left -= 1;
        let part = &more.items[left];
        match cat_parts(at) {
            None => return Ok(None),
            Some(two) => {
                if !reads_con(alloc, s, part, two.right)? {
                    return Ok(None);
                }
                at = two.left;
            }
        }
    }
    Ok(Some(at))
}

/// The same for constructors one by one.
#[cycle(reads_con)]
#[inline(never)]
fn reads_cons(
    alloc: Global,
    s: &Here<'_>,
    cs: &plain::Cons,
    cons: &Cons,
) -> Result<bool, AllocError>
    ensures { IfOk result
        (λ b. b ≡ reading.reads_cons (scope_view s.now) (plain_cons_tree cs.now) (cons_tree cons.now)) }
{
    if cs.items.len() != cons.items.len() {
        return Ok(false);
    }
    for i in 0..cs.items.len() {
        if !reads_con(alloc, s, &cs.items[i], &cons.items[i])? {
            return Ok(false);
        }
    }
    Ok(true)
}

/// The same for the fields of a row, in their order.
#[cycle(reads_con)]
#[inline(never)]
fn reads_fields(
    alloc: Global,
    s: &Here<'_>,
    fields: &plain::ConFields,
    pairs: &Pairs,
) -> Result<bool, AllocError>
    ensures { IfOk result (λ b. b ≡
        reading.reads_con_fields (scope_view s.now) (plain_fields_tree fields.now) (pairs_tree pairs.now)) }
{
    if fields.items.len() != pairs.items.len() {
        return Ok(false);
    }
    for i in 0..fields.items.len() {
        if !reads_field(alloc, s, &fields.items[i], &pairs.items[i])? {
            return Ok(false);
        }
    }
    Ok(true)
}

/// The same for a field of a row.
#[cycle(reads_con)]
fn reads_field(
    alloc: Global,
    s: &Here<'_>,
    field: &plain::ConField,
    pair: &Pair,
) -> Result<bool, AllocError>
    ensures { IfOk result (λ b. b ≡
        reading.reads_con_field (scope_view s.now) (plain_field_tree field.now) (pair_tree pair.now)) }
{
    if !reads_con(alloc, s, &field.name, &pair.name)? {
        return Ok(false);
    }
    reads_con(alloc, s, &field.value, &pair.value)
}
