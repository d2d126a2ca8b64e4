//! The literal names of constructors.
ghost use Rattle.std.specs.Prelude.{IsTrue};
ghost use Rattle.con_terms.specs.View.{con_tree, cons_tree, pair_tree, pairs_tree};
ghost use Rattle.core_terms.specs.Leaves.{AllNamesThere, FieldNamesThere, NamesThere};

use con_terms::{Con, Cons, Pair, Pairs};

/// Whether each literal name in a constructor is one of so many symbols.
#[cycle(names_there)]
pub fn names_there(count: usize, c: &Con) -> bool
    ensures { IsTrue result → NamesThere count (con_tree c.now) }
{
    match c {
        Con::Name(s) => (s.number as usize) < count,
        Con::Var(_) | Con::Basic(_) | Con::UnitCon | Con::Map(_, _) => true,
        Con::Arrow(a, b) => names_there(count, a) && names_there(count, b),
        Con::Poly(_, _, b) => names_there(count, b),
        Con::Guarded(a, b, t) => {
            names_there(count, a) && names_there(count, b) && names_there(count, t)
        }
        Con::Record(a) => names_there(count, a),
        Con::App(a, b) => names_there(count, a) && names_there(count, b),
        Con::Lambda(_, b) => names_there(count, b),
        Con::Row(_, ps) => field_names_there(count, ps),
        Con::Cat(a, b) => names_there(count, a) && names_there(count, b),
        Con::Tuple(cs) => all_names_there(count, cs),
        Con::Proj(a, _) => names_there(count, a),
    }
}

/// Whether so are those of each constructor.
#[cycle(names_there)]
fn all_names_there(count: usize, cs: &Cons) -> bool
    ensures { IsTrue result → AllNamesThere count (cons_tree cs.now) }
{
    for i in 0..cs.items.len() {
        if !names_there(count, &cs.items[i]) {
            return false;
        }
    }
    true
}

/// Whether so are those of a row's fields.
#[cycle(names_there)]
pub fn field_names_there(count: usize, ps: &Pairs) -> bool
    ensures { IsTrue result → FieldNamesThere count (pairs_tree ps.now) }
{
    for i in 0..ps.items.len() {
        if !pair_names_there(count, &ps.items[i]) {
            return false;
        }
    }
    true
}

/// Whether so are those of a field.
#[cycle(names_there)]
fn pair_names_there(count: usize, p: &Pair) -> bool
    ensures { IsTrue result → NamesThere count (pair_tree p.now).0 × NamesThere count (pair_tree p.now).1 }
{
    names_there(count, &p.name) && names_there(count, &p.value)
}
