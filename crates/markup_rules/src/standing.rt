//! Where an element stands, its rows, and its field's name.
ghost use Rattle.std.specs.Prelude.{◌≡◌, IfOk};
ghost use Rattle.con_terms.specs.View.{con_tree};
ghost use Rattle.core_terms.specs.View.{maybe_con, maybe_name};
ghost use Rattle.judgements.specs.View.{sc_view};
ghost use Rattle.markup_rules.specs.Standing as computed;
ghost use Rattle.markup_rules.specs.View.{around_view, position_tree};
ghost use Rattle.type_faults.specs.View.{maybe_fault};
ghost use Rattle.type_makers.specs.Standing.{sort_view, where_of};

use con_terms::{Con, Kind, Place};
use core_terms::InputName;
use judgements::{Globals, Here, copied, is_alike, kind_flaw, normal_of, other_form, wants};
use std::alloc::{AllocError, Global};
use type_faults::{Fault, Name, first};
use type_makers::{Standing, TagSort, context_row, no_types, one_field, row_kind};

/// Whether a form is around an element, where it stands as its tag does. Contracts see it as `around_view`.
#[derive(Clone, Copy)]
pub enum Around {
    Form,
    NoForm,
    /// The tag doesn't stand there.
    Elsewhere,
}

/// Whether a form is around a context, where it is one of a standing.
fn around_of(alloc: Global, standing: Standing, context: &Con) -> Result<Around, AllocError>
    ensures { IfOk result (λ r. around_view r ≡ computed.around_of (where_of standing) (con_tree context.now)) }
{
    let plain = context_row(alloc, standing, false)?;
    if is_alike(alloc, &plain, context)? {
        return Ok(Around::NoForm);
    }
    let within = context_row(alloc, standing, true)?;
    if is_alike(alloc, &within, context)? {
        return Ok(Around::Form);
    }
    Ok(Around::Elsewhere)
}

/// What is told where a context isn't the one of a place with a form around, or without.
fn context_told(
    alloc: Global,
    g: &Globals,
    s: &Here,
    p: Place,
    standing: Standing,
    in_form: bool,
    context: &Con,
) -> Result<Option<Fault>, AllocError>
    ensures { IfOk result
        (λ o. maybe_fault o ≡ computed.context_told (sc_view g.now s.now) p (where_of standing) in_form
        (con_tree context.now)) }
{
    let wanted = context_row(alloc, standing, in_form)?;
    wants(alloc, g, s, p, &wanted, context)
}

/// Where an element stands, and what is told of it. Contracts see it as `position_tree`.
#[derive(Drop)]
pub struct Position {
    pub around: Around,
    pub told: Option<Fault>,
}

/// What is told of an element that stands elsewhere.
fn elsewhere_told(
    alloc: Global,
    g: &Globals,
    s: &Here,
    p: Place,
    standing: Standing,
    context: &Con,
    around: Around,
) -> Result<Option<Fault>, AllocError>
    ensures { IfOk result
        (λ o. maybe_fault o ≡ computed.elsewhere_told (sc_view g.now s.now) p (where_of standing)
        (con_tree context.now) (around_view around)) }
{
    match around {
        Around::Elsewhere => context_told(alloc, g, s, p, standing, false, context),
        _ => Ok(None),
    }
}

/// Where an element stands that may have a form around it or not.
fn either_way(
    alloc: Global,
    g: &Globals,
    s: &Here,
    p: Place,
    standing: Standing,
    context: &Con,
) -> Result<Position, AllocError>
    ensures { IfOk result
        (λ r. position_tree r ≡ computed.either_way (sc_view g.now s.now) p (where_of standing)
        (con_tree context.now)) }
{
    let around = around_of(alloc, standing, context)?;
    let told = elsewhere_told(alloc, g, s, p, standing, context, around)?;
    Ok(Position { around, told })
}

/// A form, which has none around it and before which no field is filled.
fn form_stands(
    alloc: Global,
    g: &Globals,
    s: &Here,
    p: Place,
    context: &Con,
    uses: &Con,
) -> Result<Position, AllocError>
    ensures { IfOk result
        (λ r. position_tree r ≡ computed.form_stands (sc_view g.now s.now) p (con_tree context.now)
        (con_tree uses.now)) }
{
    let outside = context_told(alloc, g, s, p, Standing::Body, false, context)?;
    let wanted = no_types(alloc)?;
    let filled = wants(alloc, g, s, p, &wanted, uses)?;
    Ok(Position {
        around: Around::Form,
        told: first(outside, filled),
    })
}

/// An input or a button, which stands in a form.
fn inside_form(
    alloc: Global,
    g: &Globals,
    s: &Here,
    p: Place,
    context: &Con,
) -> Result<Position, AllocError>
    ensures { IfOk result
        (λ r. position_tree r ≡ computed.inside_form (sc_view g.now s.now) p (con_tree context.now)) }
{
    Ok(Position {
        around: Around::Form,
        told: context_told(alloc, g, s, p, Standing::Body, true, context)?,
    })
}

/// Where an element stands.
pub fn stands_by(
    alloc: Global,
    g: &Globals,
    s: &Here,
    p: Place,
    context: &Con,
    uses: &Con,
    standing: Standing,
    sort: TagSort,
) -> Result<Position, AllocError>
    ensures { IfOk result
        (λ r. position_tree r ≡ computed.stands_by (sc_view g.now s.now) p (con_tree context.now) (con_tree uses.now)
        (where_of standing) (sort_view sort)) }
{
    match sort {
        TagSort::Form => form_stands(alloc, g, s, p, context, uses),
        TagSort::TextInput => inside_form(alloc, g, s, p, context),
        TagSort::TruthInput => inside_form(alloc, g, s, p, context),
        TagSort::Button => inside_form(alloc, g, s, p, context),
        TagSort::Holding(_) => either_way(alloc, g, s, p, standing, context),
        TagSort::Words => either_way(alloc, g, s, p, standing, context),
        TagSort::Empty => either_way(alloc, g, s, p, standing, context),
    }
}

/// What the kinds of an element's or a literal's rows tell: of the row of its place, and of the fields filled before
/// it.
pub fn rows_told(
    alloc: Global,
    g: &Globals,
    s: &Here,
    p: Place,
    context: &Con,
    uses: &Con,
) -> Result<Option<Fault>, AllocError>
    ensures { IfOk result
        (λ o. maybe_fault o ≡ computed.rows_told (sc_view g.now s.now) p (con_tree context.now)
        (con_tree uses.now)) }
{
    let units = row_kind(alloc, Kind::Units)?;
    let of_context = kind_flaw(alloc, g, s, p, context, &units)?;
    let types = row_kind(alloc, Kind::Types)?;
    let of_uses = kind_flaw(alloc, g, s, p, uses, &types)?;
    Ok(first(of_context, of_uses))
}

/// What is told of a field's name on another tag than an input's.
fn other_name(
    alloc: Global,
    g: &Globals,
    s: &Here,
    q: Place,
    name: &Con,
) -> Result<Option<Fault>, AllocError>
    ensures { IfOk result
        (λ o. maybe_fault o ≡ computed.other_name_of (sc_view g.now s.now) q (con_tree name.now)) }
{
    match normal_of(alloc, name)? {
        None => Ok(Some(Fault::TooLarge(q))),
        Some(m) => {
            let found = one_field(alloc, m, Con::UnitCon)?;
            let wanted = no_types(alloc)?;
            Ok(Some(other_form(alloc, g, s, q, wanted, found)?))
        }
    }
}

/// What is told of the name of a field, which an input fills or not.
fn name_by(
    alloc: Global,
    g: &Globals,
    s: &Here,
    q: Place,
    name: &Con,
    is_input: bool,
) -> Result<Option<Fault>, AllocError>
    ensures { IfOk result
        (λ o. maybe_fault o ≡ computed.name_at (sc_view g.now s.now) q (con_tree name.now) is_input) }
{
    match kind_flaw(alloc, g, s, q, name, &Kind::Names)? {
        Some(f) => Ok(Some(f)),
        None => {
            if is_input {
                Ok(None)
            } else {
                other_name(alloc, g, s, q, name)
            }
        }
    }
}

/// What is told of the name of the field that an element fills.
pub fn name_told(
    alloc: Global,
    g: &Globals,
    s: &Here,
    p: Place,
    is_input: bool,
    field: &Option<InputName>,
) -> Result<Option<Fault>, AllocError>
    ensures { IfOk result
        (λ o. maybe_fault o ≡ computed.name_told (sc_view g.now s.now) p is_input (maybe_name field.now)) }
{
    match field {
        None => {
            if is_input {
                Ok(Some(Fault::Unbound(p, Name::InputName)))
            } else {
                Ok(None)
            }
        }
        Some(n) => name_by(alloc, g, s, n.place, &n.name, is_input),
    }
}

/// Whether a tag is an input's.
pub fn is_input(sort: TagSort) -> bool
    ensures { result ≡ computed.is_input (sort_view sort) }
{
    match sort {
        TagSort::TextInput => true,
        TagSort::TruthInput => true,
        _ => false,
    }
}

/// The field that an input fills, as a row.
pub fn field_row_of(
    alloc: Global,
    field: &Option<InputName>,
    t: Con,
) -> Result<Option<Con>, AllocError>
    ensures { IfOk result (λ o. maybe_con o ≡ computed.field_row (maybe_name field.now) (con_tree t)) }
{
    match field {
        None => Ok(None),
        Some(n) => {
            let name = copied(alloc, &n.name)?;
            Ok(Some(one_field(alloc, name, t)?))
        }
    }
}
