//! Names, literals and constructors.
ghost use Rattle.std.specs.Prelude.{◌≡◌, IfOk};
ghost use Rattle.con_terms.specs.View.{kind_tree};
ghost use Rattle.judgements.specs.View.{judged_tree, sc_view};
ghost use Rattle.node_rules.specs.Names as computed;

use con_terms::{Kind, Place, Sym};
use core_terms::BasisName;
use judgements::{
    Globals, Here, Judged, constructor_named, copied_kind, datatype_named, faulty, folder_named,
    local_type, of_name, top_type, typed,
};
use std::alloc::{AllocError, Global};
use type_faults::{Fault, Name};
use type_makers::{
    arrow, basis_type, constructor_type, fold_type, int_type, string_type, transaction_of,
    unit_type,
};

/// `x`
pub fn of_variable(
    alloc: Global,
    g: &Globals,
    s: &Here,
    p: Place,
    i: u32,
) -> Result<Judged, AllocError>
    ensures { IfOk result (λ r. judged_tree r ≡ computed.of_variable (sc_view g.now s.now) p i) }
{
    let fault = Fault::Unbound(p, Name::Variable(i));
    Ok(of_name(fault, local_type(alloc, s, i)?))
}

/// `M.x`
pub fn of_top(alloc: Global, g: &Globals, s: &Here, p: Place, i: u32) -> Result<Judged, AllocError>
    ensures { IfOk result (λ r. judged_tree r ≡ computed.of_top (sc_view g.now s.now) p i) }
{
    let fault = Fault::Unbound(p, Name::Value(i));
    Ok(of_name(fault, top_type(alloc, g, i)?))
}

/// `M.f`, a foreign effect
pub fn of_foreign(
    alloc: Global,
    g: &Globals,
    s: &Here,
    p: Place,
    i: u32,
) -> Result<Judged, AllocError>
    ensures { IfOk result (λ r. judged_tree r ≡ computed.of_foreign (sc_view g.now s.now) p i) }
{
    if (i as usize) < g.effects {
        let gives = transaction_of(alloc, unit_type(alloc)?)?;
        Ok(typed(arrow(alloc, string_type(), gives)?))
    } else {
        Ok(faulty(Fault::Unbound(p, Name::Effect(i))))
    }
}

/// A name of the basis.
pub fn of_basis(alloc: Global, b: BasisName) -> Result<Judged, AllocError>
    ensures { IfOk result (λ r. judged_tree r ≡ computed.of_basis b) }
{
    Ok(typed(basis_type(alloc, b)?))
}

/// `1`
pub fn of_number() -> Judged
    ensures { judged_tree result ≡ computed.of_number }
{
    typed(int_type())
}

/// `"a"`
pub fn of_text() -> Judged
    ensures { judged_tree result ≡ computed.of_text }
{
    typed(string_type())
}

/// `fold`
pub fn of_fold(
    alloc: Global,
    g: &Globals,
    s: &Here,
    p: Place,
    k: &Kind,
) -> Result<Judged, AllocError>
    ensures { IfOk result (λ r. judged_tree r ≡ computed.of_fold (sc_view g.now s.now) p (kind_tree k.now)) }
{
    match folder_named(g, k) {
        None => Ok(faulty(Fault::Unbound(p, Name::Folder(copied_kind(alloc, k)?)))),
        Some(folder) => Ok(typed(fold_type(alloc, k, folder)?)),
    }
}

/// A constructor of a datatype.
pub fn of_built(
    alloc: Global,
    g: &Globals,
    s: &Here,
    p: Place,
    symbol: Sym,
    j: u32,
) -> Result<Judged, AllocError>
    ensures { IfOk result (λ r. judged_tree r ≡ computed.of_built (sc_view g.now s.now) p symbol.number j) }
{
    let fault = Fault::Unbound(p, Name::Constructor(symbol, j));
    match datatype_named(g, symbol) {
        None => Ok(faulty(fault)),
        Some(d) => match constructor_named(d, j) {
            None => Ok(faulty(fault)),
            Some(c) => Ok(typed(constructor_type(alloc, d, c)?)),
        },
    }
}
