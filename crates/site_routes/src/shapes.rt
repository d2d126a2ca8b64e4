//! The shapes of the values of types, by which links are written and read.
ghost use Rattle.std.specs.Prelude.{◌≡◌, ◌≤◌, ◌++◌, length, map, slice_get, Some, IfOk, OnOk};
ghost use Rattle.std.specs.Cmp.Lexicographic.{slice_cmp};
ghost use Rattle.std.specs.Ordering.{is_lt, nat_cmp};
ghost use Rattle.con_terms.specs.Trees.{con_list};
ghost use Rattle.con_terms.specs.View.{con_tree, cons_tree, pair_tree, pairs_tree};
ghost use Rattle.core_terms.specs.View.{constructor_view, datatype_view, maybe_con};
ghost use Rattle.core_typing.specs.Entries.{DatatypesShaped, put_part as put_part_in};
ghost use Rattle.core_typing.specs.Seen.{literal_fields, literal_pairs, seen};
ghost use Rattle.carried_types.specs.Built.{place_of as place_in};
ghost use Rattle.table_rows.specs.View.{case_view, maybe_shape, shape_tree};
ghost use Rattle.table_rows.specs.View as rows;
ghost use Rattle.site_routes.specs.Shaping as computed;
ghost use Rattle.site_routes.specs.View.{field_view, maybe_case, maybe_cases, maybe_part};
ghost use Rattle.site_routes.specs.View.{maybe_parts, maybe_shapes, part_view};

use con_terms::{Con, Cons, Pair, Pairs, Sym, copy_con};
use core_terms::{Constructor, Constructors, Datatype};
use judgements::normal_of;
use match_cover::{Seen, see};
use std::alloc::{AllocError, Global};
use table_rows::{
    Arguments, Case, Datatype as ShapedData, Datatypes, Part, Parts, Shape, Text, Texts,
};
use type_makers::symbols;

/// How deep types may be nested.
const NESTED: u32 = 1200;

/// A field of a row with a literal name.
#[derive(Drop)]
pub struct Field {
    pub name: Sym,
    pub con: Con,
}

/// The place of the datatype with a symbol.
fn place_of(datatypes: &Vec<Datatype>, s: Sym) -> Option<usize>
    ensures { result ≡ place_in (map datatype_view datatypes.now.items) s.number }
{
    for i in 0..datatypes.len() {
        if datatypes[i].symbol.number == s.number {
            return Some(i);
        }
    }
    None
}

/// The text of a symbol, where it has one.
fn text_of(alloc: Global, names: &Texts, s: Sym) -> Result<Option<Text>, AllocError>
    ensures { IfOk result (λ o. o ≡ slice_get names.now s.number) }
{
    let number = s.number as usize;
    if number < names.len() {
        Ok(Some(names.at(number).copy(alloc)?))
    } else {
        Ok(None)
    }
}

/// Adds a field of a row literal, where its name is a literal.
fn add_pair(alloc: Global, p: &Pair, fields: &mut Vec<Field>) -> Result<(), AllocError>
    ensures { OnOk result (map field_view fields.new.items
        ≡ map field_view fields.old.items ++ computed.literal_pair (pair_tree p.now).0 (pair_tree p.now).1) }
{
    match &p.name {
        Con::Name(s) => {
            let con = copy_con(alloc, &p.value)?;
            Ok(fields.push(Field { name: *s, con })?)
        }
        _ => Ok(()),
    }
}

/// Adds the fields of a row literal whose names are literals.
#[tactic(auto, using(crate::proofs::Fields::pairs_on))]
fn add_pairs(alloc: Global, ps: &Pairs, fields: &mut Vec<Field>) -> Result<(), AllocError>
    ensures { OnOk result (map field_view fields.new.items
        ≡ map field_view fields.old.items ++ literal_pairs (pairs_tree ps.now)) }
{
    for i in 0..ps.items.len() {
        add_pair(alloc, &ps.items[i], fields)?;
    }
    Ok(())
}

/// Adds the fields of a row in normal form whose names are literals.
#[cycle(add_fields)]
fn add_fields(alloc: Global, c: &Con, fields: &mut Vec<Field>) -> Result<(), AllocError>
    ensures { OnOk result (map field_view fields.new.items
        ≡ map field_view fields.old.items ++ literal_fields (con_tree c.now)) }
{
    match c {
        Con::Row(_, ps) => add_pairs(alloc, ps, fields),
        Con::Cat(a, b) => {
            add_fields(alloc, a, fields)?;
            add_fields(alloc, b, fields)
        }
        _ => Ok(()),
    }
}

/// The fields of a row in normal form whose names are literals.
fn fields_of(alloc: Global, c: &Con) -> Result<Vec<Field>, AllocError>
    ensures { IfOk result (λ fs. map field_view fs.items ≡ literal_fields (con_tree c.now)) }
{
    let mut fields = Vec::new(alloc);
    add_fields(alloc, c, &mut fields)?;
    Ok(fields)
}

/// The shape of a type's values, in a datatype of so many parameters; none where it has none.
#[cycle(shape_of)]
#[tactic(auto, using(crate::proofs::Steps::shaped_nowhere, crate::proofs::Steps::shaped_within))]
fn shape_of(
    alloc: Global,
    names: &Texts,
    datatypes: &Vec<Datatype>,
    parameters: usize,
    t: &Con,
    room: u32,
) -> Result<Option<Shape>, AllocError>
    ensures { IfOk result (λ o. computed.shaped
        room
        names.now
        (map datatype_view datatypes.now.items)
        parameters
        (con_tree t.now) ≡ Some (maybe_shape o)) }
{
    if room == 0 {
        return Err(AllocError);
    }
    match normal_of(alloc, t)? {
        None => Ok(None),
        Some(n) => shape_of_normal(alloc, names, datatypes, parameters, &n, room - 1),
    }
}

/// The same for a type in normal form.
#[cycle(shape_of)]
#[inline(never)]
fn shape_of_normal(
    alloc: Global,
    names: &Texts,
    datatypes: &Vec<Datatype>,
    parameters: usize,
    n: &Con,
    room: u32,
) -> Result<Option<Shape>, AllocError>
    ensures { IfOk result (λ o. computed.normal_by
        (computed.shaped room names.now (map datatype_view datatypes.now.items) parameters)
        names.now
        (map datatype_view datatypes.now.items)
        parameters
        (con_tree n.now) ≡ Some (maybe_shape o)) }
{
    match n {
        Con::Var(i) => parameter(parameters, *i),
        Con::Record(r) => shape_of_row(alloc, names, datatypes, parameters, r, room),
        other => shape_of_seen(alloc, names, datatypes, parameters, other, room),
    }
}

/// The same for what a type in normal form tells.
#[cycle(shape_of)]
#[inline(never)]
fn shape_of_seen(
    alloc: Global,
    names: &Texts,
    datatypes: &Vec<Datatype>,
    parameters: usize,
    n: &Con,
    room: u32,
) -> Result<Option<Shape>, AllocError>
    ensures { IfOk result (λ o. computed.seen_by
        (computed.shaped room names.now (map datatype_view datatypes.now.items) parameters)
        (map datatype_view datatypes.now.items)
        (seen (map datatype_view datatypes.now.items) (con_tree n.now)) ≡ Some (maybe_shape o)) }
{
    match see(alloc, datatypes, n)? {
        Seen::Number => Ok(Some(Shape::Int)),
        Seen::Words => Ok(Some(Shape::Words)),
        Seen::Data(d, args) => {
            shape_of_data(alloc, names, datatypes, parameters, d, &args, room)
        }
        Seen::Record(_) => Ok(None),
        Seen::Nothing => Ok(None),
    }
}

/// The shape of a datatype's parameter, the first having 0. A place past 2^32 counts as want of memory.
fn parameter(parameters: usize, i: u32) -> Result<Option<Shape>, AllocError>
    ensures { IfOk result (λ o. maybe_shape o ≡ computed.parameter_of parameters i) }
{
    let number = i as usize;
    if number < parameters {
        let place = parameters - 1 - number;
        if place > u32::MAX as usize {
            return Err(AllocError);
        }
        Ok(Some(Shape::Parameter(place as u32)))
    } else {
        Ok(None)
    }
}

/// The shape of a datatype's values, at arguments.
#[cycle(shape_of)]
#[inline(never)]
fn shape_of_data(
    alloc: Global,
    names: &Texts,
    datatypes: &Vec<Datatype>,
    parameters: usize,
    d: &Datatype,
    args: &Cons,
    room: u32,
) -> Result<Option<Shape>, AllocError>
    ensures { IfOk result (λ o. computed.data_by
        (computed.shaped room names.now (map datatype_view datatypes.now.items) parameters)
        (map datatype_view datatypes.now.items)
        (datatype_view d.now)
        (con_list (cons_tree args.now)) ≡ Some (maybe_shape o)) }
{
    if d.symbol.number == symbols::BOOL.number {
        return Ok(Some(Shape::Truth));
    }
    match place_of(datatypes, d.symbol) {
        None => Ok(None),
        Some(place) => shape_at(alloc, names, datatypes, parameters, place, args, room),
    }
}

/// The shape of the values of the datatype at a place, at arguments.
#[cycle(shape_of)]
#[inline(never)]
fn shape_at(
    alloc: Global,
    names: &Texts,
    datatypes: &Vec<Datatype>,
    parameters: usize,
    place: usize,
    args: &Cons,
    room: u32,
) -> Result<Option<Shape>, AllocError>
    ensures { IfOk result (λ o. computed.data_at
        (Some place)
        (computed.shapes_by
        (computed.shaped room names.now (map datatype_view datatypes.now.items) parameters)
        (con_list (cons_tree args.now))) ≡ Some (maybe_shape o)) }
{
    if place > u32::MAX as usize {
        return Err(AllocError);
    }
    match shapes_of(alloc, names, datatypes, parameters, args, room)? {
        None => Ok(None),
        Some(items) => Ok(Some(Shape::Data(place as u32, Arguments { items }))),
    }
}

/// The shapes of the values of types; none where one has none.
#[cycle(shape_of)]
#[inline(never)]
#[tactic(auto, using(crate::proofs::Steps::shapes_on, crate::proofs::Steps::shapes_stop))]
fn shapes_of(
    alloc: Global,
    names: &Texts,
    datatypes: &Vec<Datatype>,
    parameters: usize,
    ts: &Cons,
    room: u32,
) -> Result<Option<Vec<Shape>>, AllocError>
    ensures { IfOk result (λ o. computed.shapes_by
        (computed.shaped room names.now (map datatype_view datatypes.now.items) parameters)
        (con_list (cons_tree ts.now)) ≡ Some (maybe_shapes o)) }
{
    let mut items = Vec::new(alloc);
    for i in 0..ts.items.len() {
        match shape_of(alloc, names, datatypes, parameters, &ts.items[i], room)? {
            None => return Ok(None),
            Some(s) => items.push(s)?,
        }
    }
    Ok(Some(items))
}

/// Whether a text comes before another in byte order.
fn is_before(a: &Text, b: &Text) -> bool
    ensures { result ≡ is_lt (slice_cmp nat_cmp a.now b.now) }
{
    a.as_bytes() < b.as_bytes()
}

/// Whether a field's name comes before another in byte order.
fn comes_before(part: &Part, name: &Text) -> bool
    ensures { result ≡ is_lt (slice_cmp nat_cmp (part_view part.now).0 name.now) }
{
    is_before(&part.name, name)
}

/// The place of a name in byte order among fields: before the first whose name doesn't come before it.
fn place_among(parts: &Vec<Part>, name: &Text) -> usize
    ensures within { result ≤ length parts.now.items }
    ensures exact { result ≡ computed.place_among name.now (map part_view parts.now.items) }
{
    for i in 0..parts.len() {
        if !comes_before(&parts[i], name) {
            return i;
        }
    }
    parts.len()
}

/// A field among others that are in the byte order of their names.
fn put_part(part: Part, parts: Vec<Part>) -> Result<Vec<Part>, AllocError>
    ensures { IfOk result (λ v. map part_view v.items
        ≡ put_part_in (part_view part).0 (part_view part).1 (map part_view parts.items)) }
{
    let mut sorted = parts;
    let place = place_among(&sorted, &part.name);
    sorted.insert(place, part)?;
    Ok(sorted)
}

/// The part of a field; none where it has no shape.
#[cycle(shape_of)]
#[inline(never)]
fn part_of(
    alloc: Global,
    names: &Texts,
    datatypes: &Vec<Datatype>,
    parameters: usize,
    f: &Field,
    room: u32,
) -> Result<Option<Part>, AllocError>
    ensures { IfOk result (λ o. computed.part_of
        (slice_get names.now (field_view f.now).0)
        (computed.shaped
        room
        names.now
        (map datatype_view datatypes.now.items)
        parameters
        (field_view f.now).1) ≡ Some (maybe_part o)) }
{
    match text_of(alloc, names, f.name)? {
        None => Ok(None),
        Some(name) => match shape_of(alloc, names, datatypes, parameters, &f.con, room)? {
            None => Ok(None),
            Some(shape) => Ok(Some(Part { name, shape })),
        },
    }
}

/// A field among those behind it; none where it has no shape.
#[cycle(shape_of)]
#[inline(never)]
fn with_field(
    alloc: Global,
    names: &Texts,
    datatypes: &Vec<Datatype>,
    parameters: usize,
    f: &Field,
    behind: Vec<Part>,
    room: u32,
) -> Result<Option<Vec<Part>>, AllocError>
    ensures { IfOk result (λ o. computed.put_in
        (computed.part_of
        (slice_get names.now (field_view f.now).0)
        (computed.shaped
        room
        names.now
        (map datatype_view datatypes.now.items)
        parameters
        (field_view f.now).1))
        (map part_view behind.items) ≡ Some (maybe_parts o)) }
{
    match part_of(alloc, names, datatypes, parameters, f, room)? {
        None => Ok(None),
        Some(part) => Ok(Some(put_part(part, behind)?)),
    }
}

/// The parts of fields, the last first; none where one has no shape.
#[cycle(shape_of)]
#[inline(never)]
#[tactic(auto, using(crate::proofs::Fields::fields_on, crate::proofs::Fields::fields_stop, crate::proofs::Fields::fields_none, crate::proofs::Fields::fields_all))]
fn parts_of(
    alloc: Global,
    names: &Texts,
    datatypes: &Vec<Datatype>,
    parameters: usize,
    fields: &Vec<Field>,
    room: u32,
) -> Result<Option<Vec<Part>>, AllocError>
    ensures { IfOk result (λ o. computed.fields_by
        (computed.shaped room names.now (map datatype_view datatypes.now.items) parameters)
        names.now
        (map field_view fields.now.items) ≡ Some (maybe_parts o)) }
{
    let mut parts = Vec::new(alloc);
    let count = fields.len();
    for done in 0..count {
        let f = &fields[count - 1 - done];
        match with_field(alloc, names, datatypes, parameters, f, parts, room)? {
            None => return Ok(None),
            Some(more) => parts = more,
        }
    }
    Ok(Some(parts))
}

/// The shape of records with these parts.
fn record_shape(items: Vec<Part>) -> Shape
    ensures { shape_tree result ≡ computed.record_shape (map part_view items.items) }
{
    if items.len() == 0 {
        Shape::Unit
    } else {
        Shape::Rec(Parts { items })
    }
}

/// The shape of records of a row in normal form.
#[cycle(shape_of)]
#[inline(never)]
fn shape_of_row(
    alloc: Global,
    names: &Texts,
    datatypes: &Vec<Datatype>,
    parameters: usize,
    r: &Con,
    room: u32,
) -> Result<Option<Shape>, AllocError>
    ensures { IfOk result (λ o. computed.row_by
        (computed.shaped room names.now (map datatype_view datatypes.now.items) parameters)
        names.now
        (con_tree r.now) ≡ Some (maybe_shape o)) }
{
    let fields = fields_of(alloc, r)?;
    match parts_of(alloc, names, datatypes, parameters, &fields, room)? {
        None => Ok(None),
        Some(items) => Ok(Some(record_shape(items))),
    }
}

/// The shape of a type's values.
pub fn shaped(
    alloc: Global,
    names: &Texts,
    datatypes: &Vec<Datatype>,
    t: &Con,
) -> Result<Option<Shape>, AllocError>
    ensures { IfOk result (λ o. computed.shaped
        computed.nested
        names.now
        (map datatype_view datatypes.now.items)
        0
        (con_tree t.now) ≡ Some (maybe_shape o)) }
{
    shape_of(alloc, names, datatypes, 0, t, NESTED)
}

/// The case of a constructor with this name, which holds this type; none where the type has no shape.
fn case_with(
    alloc: Global,
    names: &Texts,
    datatypes: &Vec<Datatype>,
    parameters: usize,
    name: Text,
    t: &Con,
) -> Result<Option<Case>, AllocError>
    ensures { IfOk result (λ o. computed.case_by
        (Some name)
        (computed.held_by
        (computed.shaped computed.nested names.now (map datatype_view datatypes.now.items) parameters)
        (Some (con_tree t.now))) ≡ Some (maybe_case o)) }
{
    match shape_of(alloc, names, datatypes, parameters, t, NESTED)? {
        None => Ok(None),
        Some(shape) => Ok(Some(Case {
            name,
            holds: Some(shape),
        })),
    }
}

/// The case of a constructor; none where it holds what links can't carry.
fn case_of(
    alloc: Global,
    names: &Texts,
    datatypes: &Vec<Datatype>,
    parameters: usize,
    c: &Constructor,
) -> Result<Option<Case>, AllocError>
    ensures { IfOk result (λ o. computed.case_by
        (slice_get names.now (constructor_view c.now).name)
        (computed.held_by
        (computed.shaped computed.nested names.now (map datatype_view datatypes.now.items) parameters)
        (constructor_view c.now).holds) ≡ Some (maybe_case o)) }
{
    match text_of(alloc, names, c.name)? {
        None => Ok(None),
        Some(name) => match &c.holds {
            None => Ok(Some(Case { name, holds: None })),
            Some(t) => case_with(alloc, names, datatypes, parameters, name, t),
        },
    }
}

/// The cases of a datatype; none where it holds what links can't carry.
#[tactic(auto, using(crate::proofs::Steps::cases_on, crate::proofs::Steps::cases_stop))]
fn cases_of(
    alloc: Global,
    names: &Texts,
    datatypes: &Vec<Datatype>,
    parameters: usize,
    constructors: &Constructors,
) -> Result<Option<Vec<Case>>, AllocError>
    ensures { IfOk result (λ o. computed.cases_by
        (computed.shaped computed.nested names.now (map datatype_view datatypes.now.items) parameters)
        names.now
        (map constructor_view constructors.now.items.items) ≡ Some (maybe_cases o)) }
{
    let mut cases = Vec::new(alloc);
    for j in 0..constructors.items.len() {
        let c = &constructors.items[j];
        match case_of(alloc, names, datatypes, parameters, c)? {
            None => return Ok(None),
            Some(case) => cases.push(case)?,
        }
    }
    Ok(Some(cases))
}

/// The cases of a datatype; one that holds what links can't carry has none.
fn shaped_datatype(
    alloc: Global,
    names: &Texts,
    datatypes: &Vec<Datatype>,
    d: &Datatype,
) -> Result<ShapedData, AllocError>
    ensures { IfOk result (λ new. computed.datatype_by
        names.now
        (map datatype_view datatypes.now.items)
        (datatype_view d.now) ≡ Some (rows.datatype_view new)) }
{
    match cases_of(alloc, names, datatypes, d.parameters.len(), &d.constructors)? {
        None => Ok(ShapedData {
            cases: Vec::new(alloc),
        }),
        Some(cases) => Ok(ShapedData { cases }),
    }
}

/// The cases of each datatype.
#[tactic(auto, using(crate::proofs::Shaped::datatypes_more, crate::proofs::Shaped::datatypes_all))]
pub fn shaped_datatypes(
    alloc: Global,
    names: &Texts,
    datatypes: &Vec<Datatype>,
) -> Result<Datatypes, AllocError>
    ensures { IfOk result (λ new. DatatypesShaped
        names.now
        (map datatype_view datatypes.now.items)
        (map datatype_view datatypes.now.items)
        (rows.datatypes_view new)) }
{
    let mut items = Vec::with_capacity(alloc, datatypes.len())?;
    for i in 0..datatypes.len() {
        items.push(shaped_datatype(alloc, names, datatypes, &datatypes[i])?)?;
    }
    Ok(Datatypes { items })
}
