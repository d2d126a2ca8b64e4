//! Folders of rows.
ghost use Rattle.std.specs.Prelude.{◌≡◌, IfOk};
ghost use Rattle.con_terms.specs.Trees.{row};
ghost use Rattle.con_terms.specs.View.{con_tree, kind_tree, pairs_tree};
ghost use Rattle.judgements.specs.View.{judged_tree, maybe_symbol, sc_view};
ghost use Rattle.kind_rules.specs.View.{found};
ghost use Rattle.node_rules.specs.Records as computed;

use crate::records::name_flaw;
use con_terms::{Con, Kind, Pairs, Place, Sym, copy_pairs};
use judgements::{
    Globals, Here, Judged, copied_kind, faulty, flaw_at, folder_named, has_kind, typed,
};
use kind_rules::Flaw;
use std::alloc::{AllocError, Global};
use type_faults::{Fault, Name, first};
use type_makers::{applied, row_kind};

/// A row literal.
fn row_literal(alloc: Global, k: &Kind, ps: &Pairs) -> Result<Con, AllocError>
    ensures { IfOk result (λ c. con_tree c ≡ row (kind_tree k.now) (pairs_tree ps.now)) }
{
    let kind = Box::new(alloc, copied_kind(alloc, k)?)?;
    Ok(Con::Row(kind, copy_pairs(alloc, ps)?))
}

/// The folder of a row, from the row's kind and the symbol of folders for it.
fn of_folder_at(
    alloc: Global,
    g: &Globals,
    s: &Here,
    p: Place,
    k: &Kind,
    ps: &Pairs,
    r: Result<Kind, Flaw>,
    symbol: Option<Sym>,
) -> Result<Judged, AllocError>
    ensures { IfOk result
        (λ j. judged_tree j ≡ computed.of_folder_at
        (sc_view g.now s.now)
        p
        (kind_tree k.now)
        (pairs_tree ps.now)
        (found kind_tree r)
        (maybe_symbol symbol)) }
{
    match symbol {
        None => {
            let none = Fault::Unbound(p, Name::Folder(copied_kind(alloc, k)?));
            let flaw = name_flaw(alloc, g, s, p, r)?;
            Ok(Judged {
                ty: None,
                told: first(Some(none), flaw),
            })
        }
        Some(symbol) => match r {
            Err(flaw) => Ok(faulty(flaw_at(alloc, g, s, p, flaw)?)),
            Ok(_) => {
                let row = row_literal(alloc, k, ps)?;
                Ok(typed(applied(alloc, Con::Basic(symbol), row)?))
            }
        },
    }
}

/// The folder of a row whose values have this kind.
pub fn of_folder(
    alloc: Global,
    g: &Globals,
    s: &Here,
    p: Place,
    k: &Kind,
    ps: &Pairs,
) -> Result<Judged, AllocError>
    ensures { IfOk result
        (λ j. judged_tree j
        ≡ computed.of_folder (sc_view g.now s.now) p (kind_tree k.now) (pairs_tree ps.now)) }
{
    let row = row_literal(alloc, k, ps)?;
    let wanted = row_kind(alloc, copied_kind(alloc, k)?)?;
    let r = has_kind(alloc, s, &row, &wanted)?;
    of_folder_at(alloc, g, s, p, k, ps, r, folder_named(g, k))
}
