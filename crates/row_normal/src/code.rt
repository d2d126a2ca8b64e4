//! Trees as numbers, by which they are compared.

ghost use Rattle.std.specs.Prelude.{◌≡◌, ◌++◌, ◌∷◌, [], IfOk, OnOk};
ghost use Rattle.con_terms.specs.View.{con_tree, cons_tree, kind_tree, kinds_tree, pair_tree, pairs_tree};
ghost use Rattle.row_normal.specs.Glue.{literal_of, name_of};
ghost use Rattle.row_normal.specs.Ordered.{con_code as tree_code, cons_code as trees_code, cons_count, flag_code, kind_code as kind_numbers, kinds_code as kinds_numbers, kinds_count, pairs_code as fields_code, pairs_count, piece_key as place, piece_rank};

use con_terms::{Con, Cons, Kind, Kinds, Pair, Pairs};
use std::alloc::{AllocError, Global};

/// How many numbers most keys have room in.
const USUAL: usize = 16;

/// By what a piece of a row is placed.
pub fn piece_key(alloc: Global, c: &Con) -> Result<Vec<u64>, AllocError>
    ensures { IfOk result (λ key. key.items ≡ place (con_tree c.now)) }
{
    let mut key = Vec::with_capacity(alloc, USUAL)?;
    rank(c, &mut key)?;
    con_code(c, &mut key)?;
    Ok(key)
}

/// Literal names by their symbols' numbers, then variables, outer binders first, then other pieces.
fn rank(c: &Con, key: &mut Vec<u64>) -> Result<(), AllocError>
    ensures { OnOk result (key.new.items ≡ key.old.items ++ piece_rank (con_tree c.now)) }
{
    match c {
        Con::Row(_, fields) => match literal_name(fields) {
            Some(symbol) => numbered(0, symbol as u64, key),
            None => number(2, key),
        },
        Con::Var(i) => numbered(1, (1 << 32) - *i as u64, key),
        _ => number(2, key),
    }
}

/// The symbol of the name of a literal's only field, where that name is a literal.
pub fn literal_name(fields: &Pairs) -> Option<u32>
    ensures { result ≡ literal_of (pairs_tree fields.now) }
{
    if fields.items.len() != 1 {
        return None;
    }
    field_symbol(&fields.items[0])
}

/// The symbol of a field's name, where that is a literal.
fn field_symbol(field: &Pair) -> Option<u32>
    ensures { result ≡ name_of (pair_tree field.now).0 }
{
    symbol_of(&field.name)
}

/// The symbol of a literal name.
fn symbol_of(c: &Con) -> Option<u32>
    ensures { result ≡ name_of (con_tree c.now) }
{
    match c {
        Con::Name(s) => Some(s.number),
        _ => None,
    }
}

/// Adds the numbers of a kind.
#[cycle(kind_code)]
fn kind_code(k: &Kind, key: &mut Vec<u64>) -> Result<(), AllocError>
    ensures { OnOk result (key.new.items ≡ key.old.items ++ kind_numbers (kind_tree k.now)) }
{
    match k {
        Kind::Types => number(0, key),
        Kind::Units => number(1, key),
        Kind::Names => number(2, key),
        Kind::Row(k) => row_kind_code(k, key),
        Kind::Arrow(k, l) => arrow_kind_code(k, l, key),
        Kind::Tuple(ks) => kinds_code(ks, key),
    }
}

/// Adds the numbers of a kind of rows.
#[cycle(kind_code)]
fn row_kind_code(k: &Kind, key: &mut Vec<u64>) -> Result<(), AllocError>
    ensures { OnOk result (key.new.items ≡ key.old.items ++ 3 ∷ kind_numbers (kind_tree k.now)) }
{
    number(3, key)?;
    kind_code(k, key)
}

/// Adds the numbers of a kind of functions.
#[cycle(kind_code)]
fn arrow_kind_code(k: &Kind, l: &Kind, key: &mut Vec<u64>) -> Result<(), AllocError>
    ensures { OnOk result
        (key.new.items ≡ key.old.items ++ (4 ∷ kind_numbers (kind_tree k.now) ++ kind_numbers (kind_tree l.now))) }
{
    number(4, key)?;
    kind_code(k, key)?;
    kind_code(l, key)
}

/// Adds the form of tuples, the number of their kinds, and then the numbers of each.
#[cycle(kind_code)]
fn kinds_code(ks: &Kinds, key: &mut Vec<u64>) -> Result<(), AllocError>
    ensures { OnOk result
        (key.new.items ≡ key.old.items ++ 5 ∷ kinds_count (kinds_tree ks.now) ∷ kinds_numbers (kinds_tree ks.now)) }
{
    numbered(5, ks.items.len() as u64, key)?;
    for i in 0..ks.items.len() {
        kind_code(&ks.items[i], key)?;
    }
    Ok(())
}

/// Adds the numbers of a constructor.
#[cycle(con_code)]
fn con_code(c: &Con, key: &mut Vec<u64>) -> Result<(), AllocError>
    ensures { OnOk result (key.new.items ≡ key.old.items ++ tree_code (con_tree c.now)) }
{
    match c {
        Con::Var(i) => numbered(0, *i as u64, key),
        Con::Basic(s) => numbered(1, s.number as u64, key),
        Con::Arrow(a, b) => two_code(2, a, b, key),
        Con::Poly(implicit, k, b) => poly_code(*implicit, k, b, key),
        Con::Guarded(a, b, t) => guarded_code(a, b, t, key),
        Con::Record(a) => one_code(5, a, key),
        Con::App(a, b) => two_code(6, a, b, key),
        Con::Lambda(k, b) => lambda_code(k, b, key),
        Con::UnitCon => number(8, key),
        Con::Name(s) => numbered(9, s.number as u64, key),
        Con::Row(k, ps) => pairs_code(k, ps, key),
        Con::Cat(a, b) => two_code(11, a, b, key),
        Con::Map(k, l) => map_code(k, l, key),
        Con::Tuple(cs) => cons_code(cs, key),
        Con::Proj(a, n) => proj_code(a, *n, key),
    }
}

/// Adds a number.
fn number(n: u64, key: &mut Vec<u64>) -> Result<(), AllocError>
    ensures { OnOk result (key.new.items ≡ key.old.items ++ n ∷ []) }
{
    Ok(key.push(n)?)
}

/// Adds a form and its number.
fn numbered(form: u64, number: u64, key: &mut Vec<u64>) -> Result<(), AllocError>
    ensures { OnOk result (key.new.items ≡ key.old.items ++ form ∷ number ∷ []) }
{
    key.push(form)?;
    Ok(key.push(number)?)
}

/// Adds a form and the numbers of its kind.
fn kinded(form: u64, k: &Kind, key: &mut Vec<u64>) -> Result<(), AllocError>
    ensures { OnOk result (key.new.items ≡ key.old.items ++ form ∷ kind_numbers (kind_tree k.now)) }
{
    number(form, key)?;
    kind_code(k, key)
}

/// Adds the numbers of a map between two kinds.
fn map_code(k: &Kind, l: &Kind, key: &mut Vec<u64>) -> Result<(), AllocError>
    ensures { OnOk result
        (key.new.items ≡ key.old.items ++ (12 ∷ kind_numbers (kind_tree k.now) ++ kind_numbers (kind_tree l.now))) }
{
    kinded(12, k, key)?;
    kind_code(l, key)
}

/// Adds a form and the numbers of its only part.
#[cycle(con_code)]
fn one_code(form: u64, a: &Con, key: &mut Vec<u64>) -> Result<(), AllocError>
    ensures { OnOk result (key.new.items ≡ key.old.items ++ form ∷ tree_code (con_tree a.now)) }
{
    number(form, key)?;
    con_code(a, key)
}

/// Adds a form and the numbers of its two parts.
#[cycle(con_code)]
fn two_code(form: u64, a: &Con, b: &Con, key: &mut Vec<u64>) -> Result<(), AllocError>
    ensures { OnOk result
        (key.new.items ≡ key.old.items ++ (form ∷ tree_code (con_tree a.now) ++ tree_code (con_tree b.now))) }
{
    number(form, key)?;
    con_code(a, key)?;
    con_code(b, key)
}

/// Adds the numbers of a guarded constructor.
#[cycle(con_code)]
fn guarded_code(a: &Con, b: &Con, t: &Con, key: &mut Vec<u64>) -> Result<(), AllocError>
    ensures { OnOk result
        (key.new.items ≡ key.old.items
        ++ (4 ∷ tree_code (con_tree a.now) ++ tree_code (con_tree b.now) ++ tree_code (con_tree t.now))) }
{
    two_code(4, a, b, key)?;
    con_code(t, key)
}

/// Adds the numbers of a polymorphic type.
#[cycle(con_code)]
fn poly_code(implicit: bool, k: &Kind, b: &Con, key: &mut Vec<u64>) -> Result<(), AllocError>
    ensures { OnOk result
        (key.new.items ≡ key.old.items
        ++ (3 ∷ flag_code implicit ∷ kind_numbers (kind_tree k.now) ++ tree_code (con_tree b.now))) }
{
    number(3, key)?;
    kinded(implicit as u64, k, key)?;
    con_code(b, key)
}

/// Adds the numbers of a function.
#[cycle(con_code)]
fn lambda_code(k: &Kind, b: &Con, key: &mut Vec<u64>) -> Result<(), AllocError>
    ensures { OnOk result
        (key.new.items ≡ key.old.items ++ (7 ∷ kind_numbers (kind_tree k.now) ++ tree_code (con_tree b.now))) }
{
    kinded(7, k, key)?;
    con_code(b, key)
}

/// Adds the numbers of a projection.
#[cycle(con_code)]
fn proj_code(a: &Con, n: u32, key: &mut Vec<u64>) -> Result<(), AllocError>
    ensures { OnOk result (key.new.items ≡ key.old.items ++ (14 ∷ tree_code (con_tree a.now) ++ n ∷ [])) }
{
    one_code(14, a, key)?;
    number(n as u64, key)
}

/// Adds the form of tuples, the number of their components, and then the numbers of each.
#[cycle(con_code)]
fn cons_code(cs: &Cons, key: &mut Vec<u64>) -> Result<(), AllocError>
    ensures { OnOk result
        (key.new.items ≡ key.old.items ++ 13 ∷ cons_count (cons_tree cs.now) ∷ trees_code (cons_tree cs.now)) }
{
    numbered(13, cs.items.len() as u64, key)?;
    for i in 0..cs.items.len() {
        con_code(&cs.items[i], key)?;
    }
    Ok(())
}

/// Adds the form of literals, the numbers of their kind, the number of their fields, and then the numbers of each.
#[cycle(con_code)]
fn pairs_code(k: &Kind, ps: &Pairs, key: &mut Vec<u64>) -> Result<(), AllocError>
    ensures { OnOk result
        (key.new.items ≡ key.old.items
        ++ (10 ∷ kind_numbers (kind_tree k.now) ++ pairs_count (pairs_tree ps.now) ∷ fields_code (pairs_tree ps.now))) }
{
    kinded(10, k, key)?;
    number(ps.items.len() as u64, key)?;
    for i in 0..ps.items.len() {
        pair_code(&ps.items[i], key)?;
    }
    Ok(())
}

/// Adds the numbers of a field's name and value.
#[cycle(con_code)]
fn pair_code(p: &Pair, key: &mut Vec<u64>) -> Result<(), AllocError>
    ensures { OnOk result
        (key.new.items ≡ key.old.items ++ tree_code (pair_tree p.now).0 ++ tree_code (pair_tree p.now).1) }
{
    con_code(&p.name, key)?;
    con_code(&p.value, key)
}
