//! The constructor that a pattern names, at the type of what it takes.
ghost use Rattle.std.specs.Prelude.{◌≡◌, IfOk, Some};
ghost use Rattle.con_terms.specs.Trees as tree;
ghost use Rattle.con_terms.specs.Trees.{basic, con_list};
ghost use Rattle.con_terms.specs.View.{con_tree, cons_tree};
ghost use Rattle.core_terms.specs.Types.{at_types as at_types_in};
ghost use Rattle.core_terms.specs.View.{constructor_view, datatype_view};
ghost use Rattle.core_typing.specs.Faults.{mismatch as mismatch_at};
ghost use Rattle.core_typing.specs.PatternFaults.{untold};
ghost use Rattle.core_typing.specs.Scopes.{normal_of as normal_in};
ghost use Rattle.judgements.specs.View.{bound_tree, locals_view, sc_view};
ghost use Rattle.pattern_rules.specs.Binds as computed;
ghost use Rattle.pattern_rules.specs.View.{data_tree};
ghost use Rattle.type_faults.specs.View.{fault_tree};

use crate::binds::AtData;
use con_terms::{Con, Cons, Place, Sym};
use core_terms::{Constructor, Datatype};
use judgements::{
    Bound, Globals, Here, constructor_named, copied, datatype_named, normal_of, other_form,
};
use match_cover::{Seen, held_type, see};
use std::alloc::{AllocError, Global};
use type_faults::{Fault, Name};
use type_makers::{applied, arrow};

/// A datatype's type at arguments of which nothing is told.
fn untold_type(alloc: Global, d: Sym, count: usize) -> Result<Con, AllocError>
    ensures { IfOk result (λ c. con_tree c ≡ at_types_in (basic d.number) (untold count)) }
{
    let mut built = Con::Basic(d);
    for _ in 0..count {
        built = applied(alloc, built, Con::UnitCon)?;
    }
    Ok(built)
}

/// What is told where the type is no type of the datatype.
fn other_data(
    alloc: Global,
    g: &Globals,
    s: &Here,
    p: Place,
    d: Sym,
    datatype: &Datatype,
    n: Con,
) -> Result<AtData, AllocError>
    ensures { IfOk result (λ r. data_tree r ≡
        computed.other_data (sc_view g.now s.now) p d.number (datatype_view datatype.now) (con_tree n)) }
{
    let found = untold_type(alloc, d, datatype.parameters.len())?;
    Ok(AtData::Bad(other_form(alloc, g, s, p, n, found)?))
}

/// What a constructor holds, at a datatype's arguments.
fn held_data(alloc: Global, n: Con, args: &Cons, c: &Constructor) -> Result<AtData, AllocError>
    ensures { IfOk result (λ r. data_tree r ≡ computed.held_data (con_tree n) (con_list (cons_tree args.now))
        (constructor_view c.now).holds) }
{
    match &c.holds {
        None => Ok(AtData::Bare(n)),
        Some(held) => Ok(AtData::Holding(n, held_type(alloc, args, held)?)),
    }
}

/// What the type in normal form tells of the constructor.
fn formed_data(
    alloc: Global,
    g: &Globals,
    s: &Here,
    p: Place,
    d: Sym,
    datatype: &Datatype,
    c: &Constructor,
    n: Con,
) -> Result<AtData, AllocError>
    ensures { IfOk result (λ r. data_tree r ≡ computed.formed_data (sc_view g.now s.now) p d.number
        (datatype_view datatype.now) (constructor_view c.now) (Some (con_tree n))) }
{
    match see(alloc, &g.datatypes, &n)? {
        Seen::Data(e, args) => {
            if e.symbol.number == d.number {
                held_data(alloc, n, &args, c)
            } else {
                other_data(alloc, g, s, p, d, datatype, n)
            }
        }
        _ => other_data(alloc, g, s, p, d, datatype, n),
    }
}

/// The constructor that a pattern names, where the type is its datatype's.
#[inline(never)]
pub fn data_at(
    alloc: Global,
    g: &Globals,
    s: &Here,
    p: Place,
    d: Sym,
    j: u32,
    t: &Con,
) -> Result<AtData, AllocError>
    ensures { IfOk result (λ r. data_tree r ≡
        computed.data_at (sc_view g.now s.now) p d.number j (con_tree t.now)) }
{
    match datatype_named(g, d) {
        None => Ok(AtData::Bad(Fault::Unbound(p, Name::Constructor(d, j)))),
        Some(datatype) => match constructor_named(datatype, j) {
            None => Ok(AtData::Bad(Fault::Unbound(p, Name::Constructor(d, j)))),
            Some(c) => match normal_of(alloc, t)? {
                None => Ok(AtData::Bad(Fault::TooLarge(p))),
                Some(n) => formed_data(alloc, g, s, p, d, datatype, c, n),
            },
        },
    }
}

/// What is told of a constructor alone that holds something.
fn held_more(
    alloc: Global,
    g: &Globals,
    s: &Here,
    p: Place,
    n: Con,
    held: &Con,
) -> Result<Fault, AllocError>
    ensures { IfOk result (λ f. fault_tree f ≡ computed.held_more (sc_view g.now s.now) p (con_tree n)
        (normal_in (con_tree held.now))) }
{
    match normal_of(alloc, held)? {
        None => Ok(Fault::TooLarge(p)),
        Some(m) => {
            let found = arrow(alloc, m, copied(alloc, &n)?)?;
            other_form(alloc, g, s, p, n, found)
        }
    }
}

/// What a constructor alone binds.
#[inline(never)]
pub fn bare_binding(
    alloc: Global,
    g: &Globals,
    s: &Here,
    p: Place,
    at: AtData,
    locals: &std::rc::Rc<judgements::Locals>,
) -> Result<Bound, AllocError>
    ensures { IfOk result (λ b. bound_tree b ≡
        computed.bare_binding (sc_view g.now s.now) (locals_view locals.now.value) p (data_tree at)) }
{
    match at {
        AtData::Bad(f) => Ok(Bound::Bad(f)),
        AtData::Bare(_) => Ok(Bound::Under(locals.clone()?)),
        AtData::Holding(n, held) => Ok(Bound::Bad(held_more(alloc, g, s, p, n, &held)?)),
    }
}

/// What is told where a constructor holds nothing and a pattern of what it holds stands behind it.
pub fn held_less(
    alloc: Global,
    g: &Globals,
    s: &Here,
    p: Place,
    n: Con,
) -> Result<Fault, AllocError>
    ensures { IfOk result (λ f. fault_tree f ≡ mismatch_at p (sc_view g.now s.now).called
        (tree.arrow tree.unit_con (con_tree n)) (con_tree n)) }
{
    let wanted = arrow(alloc, Con::UnitCon, copied(alloc, &n)?)?;
    other_form(alloc, g, s, p, wanted, n)
}
