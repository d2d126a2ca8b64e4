//! What patterns bind at a type.
//!
//! Types are bound before those that are bound already, the innermost first. What is told of a pattern is the earliest
//! of all that is at fault in it.
ghost use Rattle.std.specs.Prelude.{◌≡◌, IfOk, None};
ghost use Rattle.con_terms.specs.Trees.{names, no_pairs, record_of, types};
ghost use Rattle.con_terms.specs.View.{con_tree};
ghost use Rattle.core_terms.specs.Types.{type_row};
ghost use Rattle.core_terms.specs.Lists.{pat_field_tree};
ghost use Rattle.core_terms.specs.View.{pat_fields_tree, pat_tree};
ghost use Rattle.core_typing.specs.Faults.{mismatch as mismatch_at};
ghost use Rattle.core_typing.specs.Scopes.{normal_of as normal_in};
ghost use Rattle.judgements.specs.Bindings.{bad_pattern};
ghost use Rattle.judgements.specs.View.{bound_tree, cons_view, locals_view, sc_view};
ghost use Rattle.kind_rules.specs.Kinding.{judged_at};
ghost use Rattle.kind_rules.specs.View.{scope_view};
ghost use Rattle.pattern_rules.specs.Binds as computed;
ghost use Rattle.pattern_rules.specs.View.{fields_tree, one_tree};
ghost use Rattle.told_faults.specs.Computed.{wants as wanted_in};
ghost use Rattle.type_faults.specs.View.{fault_tree, maybe_fault};

use crate::constructors::{bare_binding, data_at, held_less};
use crate::fields::{earlier, no_field_there, whole_binding};
use con_terms::{Con, Cons, Kind, Place, Sym};
use core_terms::{Pat, PatField, PatFields, PatForm};
use judgements::{
    Bound, Globals, Here, Locals, copied, flaw_at, has_kind, normal_of, other_form, take_field,
    wants, with_local,
};
use row_normal::pieces::pieces;
use std::alloc::{AllocError, Global};
use std::rc::Rc;
use type_faults::Fault;
use type_makers::{int_type, string_type, unit_type};

/// The constructor that a pattern names, at a type: what is told, the type's normal form alone where the constructor
/// holds nothing, or with what it holds.
#[derive(Drop)]
pub enum AtData {
    Bad(Fault),
    Bare(Con),
    Holding(Con, Con),
}

/// What fields bind: the pieces that are left of the row, and the types of the variables; or what is told.
#[derive(Drop)]
pub enum FieldsBound {
    Bound(Cons, Rc<Locals>),
    Bad(Fault),
}

/// A literal, whose type is this one.
fn literal_binding(
    alloc: Global,
    g: &Globals,
    s: &Here,
    p: Place,
    t: &Con,
    own: Con,
    locals: &Rc<Locals>,
) -> Result<Bound, AllocError>
    ensures { IfOk result (λ b. bound_tree b ≡ computed.bind_unless
        (locals_view locals.now.value)
        (wanted_in (sc_view g.now s.now) p (con_tree t.now) (con_tree own))) }
{
    match wants(alloc, g, s, p, t, &own)? {
        Some(f) => Ok(Bound::Bad(f)),
        None => Ok(Bound::Under(locals.clone()?)),
    }
}

/// A variable with its type.
#[inline(never)]
fn bind_one(
    alloc: Global,
    g: &Globals,
    s: &Here,
    p: Place,
    t: &Con,
    u: &Con,
    locals: &Rc<Locals>,
) -> Result<Bound, AllocError>
    ensures { IfOk result (λ b. bound_tree b ≡ computed.bind_one
        (sc_view g.now s.now)
        (locals_view locals.now.value)
        p
        (con_tree t.now)
        (con_tree u.now)
        (judged_at (scope_view s.now.kinds.value) (con_tree u.now) types)) }
{
    match has_kind(alloc, s, u, &Kind::Types)? {
        Err(flaw) => Ok(Bound::Bad(flaw_at(alloc, g, s, p, flaw)?)),
        Ok(_) => match wants(alloc, g, s, p, t, u)? {
            Some(f) => Ok(Bound::Bad(f)),
            None => Ok(Bound::Under(with_local(alloc, copied(alloc, u)?, locals)?)),
        },
    }
}

/// What a pattern binds at a type, before what is bound already. One that is nested deeper than the room counts as
/// want of memory.
#[cycle(binding)]
pub fn binding(
    alloc: Global,
    g: &Globals,
    s: &Here,
    q: &Pat,
    t: &Con,
    locals: &Rc<Locals>,
    room: u32,
) -> Result<Bound, AllocError>
    ensures { IfOk result (λ b. bound_tree b ≡
        computed.binding (sc_view g.now s.now) (locals_view locals.now.value) (pat_tree q.now) (con_tree t.now)) }
{
    if room == 0 {
        return Err(AllocError);
    }
    let p = q.place;
    match &q.form {
        PatForm::Any => Ok(Bound::Under(locals.clone()?)),
        PatForm::Bind(_, u) => bind_one(alloc, g, s, p, t, u, locals),
        PatForm::Int(_) => literal_binding(alloc, g, s, p, t, int_type(), locals),
        PatForm::Words(_) => literal_binding(alloc, g, s, p, t, string_type(), locals),
        PatForm::Build(d, j, holds) => match holds {
            None => {
                let at = data_at(alloc, g, s, p, *d, *j, t)?;
                bare_binding(alloc, g, s, p, at, locals)
            }
            Some(inner) => holding_binding(alloc, g, s, p, *d, *j, inner, t, locals, room - 1),
        },
        PatForm::Rec(fs, more) => record_binding(alloc, g, s, p, fs, *more, t, locals, room - 1),
        PatForm::Typed(inner, u) => annotated_binding(
            alloc,
            g,
            s,
            p,
            inner,
            t,
            u,
            locals,
            room - 1,
        ),
    }
}

/// A constructor with a pattern of what it holds.
#[cycle(binding)]
#[inline(never)]
fn holding_binding(
    alloc: Global,
    g: &Globals,
    s: &Here,
    p: Place,
    d: Sym,
    j: u32,
    inner: &Pat,
    t: &Con,
    locals: &Rc<Locals>,
    room: u32,
) -> Result<Bound, AllocError>
    ensures { IfOk result (λ b. bound_tree b ≡ computed.holding_binding (sc_view g.now s.now) p
        (computed.data_at (sc_view g.now s.now) p d.number j (con_tree t.now))
        (λ u. computed.binding (sc_view g.now s.now) (locals_view locals.now.value) (pat_tree inner.now) u)) }
{
    match data_at(alloc, g, s, p, d, j, t)? {
        AtData::Bad(f) => Ok(Bound::Bad(f)),
        AtData::Bare(n) => Ok(Bound::Bad(held_less(alloc, g, s, p, n)?)),
        AtData::Holding(_, held) => binding(alloc, g, s, inner, &held, locals, room),
    }
}

/// `(p : u)`
#[cycle(binding)]
#[inline(never)]
fn annotated_binding(
    alloc: Global,
    g: &Globals,
    s: &Here,
    p: Place,
    inner: &Pat,
    t: &Con,
    u: &Con,
    locals: &Rc<Locals>,
    room: u32,
) -> Result<Bound, AllocError>
    ensures { IfOk result (λ b. bound_tree b ≡ computed.annotated_binding
        (sc_view g.now s.now)
        p
        (con_tree t.now)
        (con_tree u.now)
        (judged_at (scope_view s.now.kinds.value) (con_tree u.now) types)
        (computed.binding (sc_view g.now s.now) (locals_view locals.now.value) (pat_tree inner.now) (con_tree u.now))) }
{
    match has_kind(alloc, s, u, &Kind::Types)? {
        Err(flaw) => Ok(Bound::Bad(flaw_at(alloc, g, s, p, flaw)?)),
        Ok(_) => {
            let bound = binding(alloc, g, s, inner, u, locals, room)?;
            match wants(alloc, g, s, p, t, u)? {
                None => Ok(bound),
                Some(f) => match bound {
                    Bound::Under(_) => Ok(Bound::Bad(f)),
                    Bound::Bad(h) => Ok(Bound::Bad(earlier(f, h))),
                },
            }
        }
    }
}

/// What is told where a record was expected.
fn no_record(alloc: Global, g: &Globals, s: &Here, p: Place, n: Con) -> Result<Bound, AllocError>
    ensures { IfOk result (λ b. bound_tree b ≡
        bad_pattern (mismatch_at p (sc_view g.now s.now).called (con_tree n) (record_of (type_row no_pairs)))) }
{
    let found = unit_type(alloc)?;
    Ok(Bound::Bad(other_form(alloc, g, s, p, n, found)?))
}

/// A record.
#[cycle(binding)]
#[inline(never)]
fn record_binding(
    alloc: Global,
    g: &Globals,
    s: &Here,
    p: Place,
    fs: &PatFields,
    more: bool,
    t: &Con,
    locals: &Rc<Locals>,
    room: u32,
) -> Result<Bound, AllocError>
    ensures { IfOk result (λ b. bound_tree b ≡ computed.record_binding
        (sc_view g.now s.now)
        p
        more
        (normal_in (con_tree t.now))
        (λ ps. computed.fields_binding
        (sc_view g.now s.now)
        None
        (locals_view locals.now.value)
        (pat_fields_tree fs.now)
        ps)) }
{
    match normal_of(alloc, t)? {
        None => Ok(Bound::Bad(Fault::TooLarge(p))),
        Some(Con::Record(r)) => {
            let all = pieces(alloc, Box::into_inner(r))?;
            let bound = fields_binding(alloc, g, s, fs, all, locals, room)?;
            whole_binding(alloc, g, s, p, more, bound)
        }
        Some(n) => no_record(alloc, g, s, p, n),
    }
}

/// The fields of a record, one after another.
#[cycle(binding)]
#[inline(never)]
fn fields_binding(
    alloc: Global,
    g: &Globals,
    s: &Here,
    fs: &PatFields,
    all: Cons,
    locals: &Rc<Locals>,
    room: u32,
) -> Result<FieldsBound, AllocError>
    ensures { IfOk result (λ b. fields_tree b ≡ computed.fields_binding
        (sc_view g.now s.now)
        None
        (locals_view locals.now.value)
        (pat_fields_tree fs.now)
        (cons_view all)) }
{
    let mut rest = all;
    let mut bound = locals.clone()?;
    let mut told: Option<Fault> = None;
    for i in 0..fs.items.len() {
        match field_binding(alloc, g, s, &fs.items[i], rest, &bound, room)? {
            OneField::Stop(f) => return Ok(FieldsBound::Bad(with_told(told, f))),
            OneField::Bad(f, left) => {
                told = Some(with_told(told, f));
                rest = left;
            }
            OneField::Bound(left, more) => {
                rest = left;
                bound = more;
            }
        }
    }
    match told {
        None => Ok(FieldsBound::Bound(rest, bound)),
        Some(f) => Ok(FieldsBound::Bad(f)),
    }
}

/// One field: nothing behind it can be looked at; it is at fault; or it binds.
#[derive(Drop)]
pub enum OneField {
    Stop(Fault),
    Bad(Fault, Cons),
    Bound(Cons, Rc<Locals>),
}

/// The earlier of what was told before and a fault.
fn with_told(told: Option<Fault>, f: Fault) -> Fault
    ensures { fault_tree result ≡ computed.with_told (maybe_fault told) (fault_tree f) }
{
    match told {
        None => f,
        Some(h) => earlier(h, f),
    }
}

/// One field of a record.
#[cycle(binding)]
#[inline(never)]
fn field_binding(
    alloc: Global,
    g: &Globals,
    s: &Here,
    field: &PatField,
    all: Cons,
    locals: &Rc<Locals>,
    room: u32,
) -> Result<OneField, AllocError>
    ensures { IfOk result (λ o. one_tree o ≡ computed.field_binding
        (sc_view g.now s.now)
        (pat_field_tree field.now).0
        (pat_field_tree field.now).1
        (cons_view all)
        (judged_at (scope_view s.now.kinds.value) (pat_field_tree field.now).1 names)
        (λ v. computed.binding (sc_view g.now s.now) (locals_view locals.now.value) (pat_field_tree field.now).2 v)) }
{
    let p = field.place;
    match has_kind(alloc, s, &field.name, &Kind::Names)? {
        Err(flaw) => return Ok(OneField::Stop(flaw_at(alloc, g, s, p, flaw)?)),
        Ok(_) => {}
    }
    match normal_of(alloc, &field.name)? {
        None => Ok(OneField::Stop(Fault::TooLarge(p))),
        Some(m) => {
            let kept = con_terms::copy::copy_cons(alloc, &all)?;
            match take_field(alloc, &m, all)? {
                None => Ok(OneField::Stop(no_field_there(alloc, g, s, p, m, kept)?)),
                Some(taken) => {
                    let judgements::Taken { value, rest } = taken;
                    match binding(alloc, g, s, &field.pat, &value, locals, room)? {
                        Bound::Under(more) => Ok(OneField::Bound(rest, more)),
                        Bound::Bad(f) => Ok(OneField::Bad(f, rest)),
                    }
                }
            }
        }
    }
}
