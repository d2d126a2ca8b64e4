//! Whether two constructors are one tree.

ghost use Rattle.std.specs.Prelude.{◌≡◌, ◌&&◌};
ghost use Rattle.con_terms.specs.View.{con_tree, cons_tree, pair_tree, pairs_tree};
ghost use Rattle.row_normal.specs.SameTree.{cn_eq, cns_eq, flag_eq, prs_eq};

use con_terms::{Con, Cons, Pair, Pairs, same_kind};

/// Whether two constructors are one tree.
#[cycle(same_con)]
pub fn same_con(a: &Con, b: &Con) -> bool
    ensures { result ≡ cn_eq (con_tree a.now) (con_tree b.now) }
{
    match a {
        Con::Var(i) => match b {
            Con::Var(j) => *i == *j,
            _ => false,
        },
        Con::Basic(s) => match b {
            Con::Basic(t) => s.number == t.number,
            _ => false,
        },
        Con::Arrow(c, d) => match b {
            Con::Arrow(e, f) => same_con(c, e) && same_con(d, f),
            _ => false,
        },
        Con::Poly(x, k, c) => match b {
            Con::Poly(y, l, d) => same_flag(*x, *y) && same_kind(k, l) && same_con(c, d),
            _ => false,
        },
        Con::Guarded(c, d, e) => match b {
            Con::Guarded(f, g, h) => same_con(c, f) && same_con(d, g) && same_con(e, h),
            _ => false,
        },
        Con::Record(c) => match b {
            Con::Record(d) => same_con(c, d),
            _ => false,
        },
        Con::App(c, d) => match b {
            Con::App(e, f) => same_con(c, e) && same_con(d, f),
            _ => false,
        },
        Con::Lambda(k, c) => match b {
            Con::Lambda(l, d) => same_kind(k, l) && same_con(c, d),
            _ => false,
        },
        Con::UnitCon => matches!(b, Con::UnitCon),
        Con::Name(s) => match b {
            Con::Name(t) => s.number == t.number,
            _ => false,
        },
        Con::Row(k, ps) => match b {
            Con::Row(l, qs) => same_kind(k, l) && same_pairs(ps, qs),
            _ => false,
        },
        Con::Cat(c, d) => match b {
            Con::Cat(e, f) => same_con(c, e) && same_con(d, f),
            _ => false,
        },
        Con::Map(k, l) => match b {
            Con::Map(m, n) => same_kind(k, m) && same_kind(l, n),
            _ => false,
        },
        Con::Tuple(cs) => match b {
            Con::Tuple(ds) => same_each(cs, ds),
            _ => false,
        },
        Con::Proj(c, m) => match b {
            Con::Proj(d, n) => *m == *n && same_con(c, d),
            _ => false,
        },
    }
}

/// Whether two lists of constructors are one.
#[cycle(same_con)]
fn same_each(cs: &Cons, ds: &Cons) -> bool
    ensures { result ≡ cns_eq (cons_tree cs.now) (cons_tree ds.now) }
{
    if cs.items.len() != ds.items.len() {
        return false;
    }
    for i in 0..cs.items.len() {
        if !same_con(&cs.items[i], &ds.items[i]) {
            return false;
        }
    }
    true
}

/// Whether two lists of fields are one.
#[cycle(same_con)]
fn same_pairs(ps: &Pairs, qs: &Pairs) -> bool
    ensures { result ≡ prs_eq (pairs_tree ps.now) (pairs_tree qs.now) }
{
    if ps.items.len() != qs.items.len() {
        return false;
    }
    for i in 0..ps.items.len() {
        if !same_pair(&ps.items[i], &qs.items[i]) {
            return false;
        }
    }
    true
}

/// Whether two fields are one.
#[cycle(same_con)]
fn same_pair(p: &Pair, q: &Pair) -> bool
    ensures { result ≡ (cn_eq (pair_tree p.now).0 (pair_tree q.now).0
        && cn_eq (pair_tree p.now).1 (pair_tree q.now).1) }
{
    same_con(&p.name, &q.name) && same_con(&p.value, &q.value)
}

/// Whether two flags are one.
fn same_flag(x: bool, y: bool) -> bool
    ensures { result ≡ flag_eq x y }
{
    if x { y } else { !y }
}
