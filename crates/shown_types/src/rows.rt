//! Fields of rows in the order in which they are printed.
ghost use Rattle.std.specs.Prelude.{◌≡◌, ◌≤◌, [], ◌++◌, length, map, option_map, IfOk};
ghost use Rattle.con_terms.specs.Trees.{pair_list};
ghost use Rattle.con_terms.specs.View.{con_tree, pair_tree, pairs_tree};
ghost use Rattle.shown_types.specs.Order.{comes_before, in_order, place_in, put_in, put_named, put_unnamed, sorted, unnamed};
ghost use Rattle.shown_types.specs.Printed.{by_name};
ghost use Rattle.shown_types.specs.Shown.{is_record as is_record_tree, is_unit as is_unit_tree, literal as literal_in, literal_text};
ghost use Rattle.shown_types.specs.View.{known_view, label, pair_now};

use crate::known::{Known, text};
use con_terms::{Con, Pair, Pairs, Sym};
use std::alloc::AllocError;

/// Whether a constructor is `()`.
pub fn is_unit(con: &Con) -> bool
    ensures { result ≡ is_unit_tree (con_tree con.now) }
{
    matches!(con, Con::UnitCon)
}

/// Whether a constructor is a record.
pub fn is_record(con: &Con) -> bool
    ensures { result ≡ is_record_tree (con_tree con.now) }
{
    matches!(con, Con::Record(_))
}

/// The symbol of a literal name.
fn literal(con: &Con) -> Option<Sym>
    ensures { option_map (λ s. s.number) result ≡ literal_in (con_tree con.now) }
{
    match con {
        Con::Name(symbol) => Some(*symbol),
        _ => None,
    }
}

/// The text of a literal name.
pub fn literal_name<'a>(known: &Known<'a>, con: &Con) -> Option<&'a str>
    ensures { option_map (λ t. t.now) result ≡ literal_text (known_view known.now) (literal_in (con_tree con.now)) }
{
    match literal(con) {
        Some(symbol) => Some(text(known, symbol)),
        None => None,
    }
}

/// A field with the text of its name.
#[derive(Clone, Copy, Drop)]
struct Labelled<'n, 'p> {
    name: &'n str,
    pair: &'p Pair,
}

/// Whether a text comes before another in the order of bytes.
fn is_before(a: &str, b: &str) -> bool
    ensures { result ≡ comes_before a.now b.now }
{
    a.cmp(b).is_lt()
}

/// Whether a field comes before another of a name.
fn is_earlier(field: &Labelled<'_, '_>, name: &str) -> bool
    ensures { result ≡ comes_before (label field.now).0 name.now }
{
    is_before(field.name, name)
}

/// The place of a name among fields: before the first that doesn't come before it.
fn place_among(fields: &Vec<Labelled<'_, '_>>, name: &str) -> usize
    ensures within { result ≤ length fields.now.items }
    ensures exact { result ≡ place_in name.now (map label fields.now.items) }
{
    for i in 0..fields.len() {
        if !is_earlier(&fields[i], name) {
            return i;
        }
    }
    fields.len()
}

#[tactic(auto, using(crate::proofs::Placed::put_at))]
/// Fields with one more in its place.
fn with_field<'n, 'p>(
    field: Labelled<'n, 'p>,
    fields: Vec<Labelled<'n, 'p>>,
) -> Result<Vec<Labelled<'n, 'p>>, AllocError>
    ensures { IfOk result (λ made. map label made.items
        ≡ put_in field.entry.name.now (pair_tree field.entry.pair.now) (map label fields.entry.items)) }
{
    let mut made = fields;
    let place = place_among(&made, field.name);
    made.insert(place, field)?;
    Ok(made)
}

/// The text of a field's name, where that is a literal one.
fn field_name<'a>(known: &Known<'a>, pair: &Pair) -> Option<&'a str>
    ensures { option_map (λ t. t.now) result ≡ (by_name (known_view known.now) (pair_tree pair.now)).0 }
{
    literal_name(known, &pair.name)
}

/// Fields in order, with one more in its place, where that has a literal name.
fn with_named<'n, 'p>(
    known: &Known<'n>,
    pair: &'p Pair,
    fields: Vec<Labelled<'n, 'p>>,
) -> Result<Vec<Labelled<'n, 'p>>, AllocError>
    ensures { IfOk result (λ made. map label made.items
        ≡ put_named (by_name (known_view known.now) (pair_tree pair.now)).0 (pair_tree pair.now)
        (map label fields.entry.items)) }
{
    match field_name(known, pair) {
        Some(name) => with_field(Labelled { name, pair }, fields),
        None => Ok(fields),
    }
}

/// The fields with a literal name, in order.
fn named<'n, 'p>(known: &Known<'n>, pairs: &'p Pairs) -> Result<Vec<Labelled<'n, 'p>>, AllocError>
    ensures { IfOk result (λ made. map label made.items
        ≡ sorted (map (by_name (known_view known.now)) (pair_list (pairs_tree pairs.now)))) }
{
    let mut fields = Vec::new(known.alloc);
    let count = pairs.len();
    for i in 0..count {
        fields = with_named(known, pairs.at(count - (i + 1)), fields)?;
    }
    Ok(fields)
}

/// Fields, with one more behind them where that has no literal name.
fn with_one_unnamed<'p>(
    known: &Known<'_>,
    pair: &'p Pair,
    fields: Vec<&'p Pair>,
) -> Result<Vec<&'p Pair>, AllocError>
    ensures { IfOk result (λ made. map pair_now made.items ≡ map pair_now fields.entry.items
        ++ put_unnamed (by_name (known_view known.now) (pair_tree pair.now)).0 (pair_tree pair.now) []) }
{
    let mut made = fields;
    match field_name(known, pair) {
        Some(_) => Ok(made),
        None => {
            made.push(pair)?;
            Ok(made)
        }
    }
}

/// Fields, with those of a row that have no literal name behind them.
fn with_unnamed<'p>(
    known: &Known<'_>,
    pairs: &'p Pairs,
    fields: Vec<&'p Pair>,
) -> Result<Vec<&'p Pair>, AllocError>
    ensures { IfOk result (λ made. map pair_now made.items
        ≡ map pair_now fields.entry.items
        ++ unnamed (map (by_name (known_view known.now)) (pair_list (pairs_tree pairs.now)))) }
{
    let mut made = fields;
    for i in 0..pairs.len() {
        made = with_one_unnamed(known, pairs.at(i), made)?;
    }
    Ok(made)
}

/// The fields of a row in the order in which they are printed.
pub fn ordered<'p>(known: &Known<'_>, pairs: &'p Pairs) -> Result<Vec<&'p Pair>, AllocError>
    ensures { IfOk result (λ made. map pair_now made.items
        ≡ in_order (map (by_name (known_view known.now)) (pair_list (pairs_tree pairs.now)))) }
{
    let fields = named(known, pairs)?;
    let mut made = Vec::new(known.alloc);
    for i in 0..fields.len() {
        made.push(fields[i].pair)?;
    }
    with_unnamed(known, pairs, made)
}
