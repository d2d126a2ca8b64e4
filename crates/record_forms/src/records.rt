//! Records, field by field.
use call_parts::record_of;
use con_terms::{Con, Cons, Kind, Place};
use name_scopes::ElabFault;
use open_terms::{
    Core, Env, Outcome, Pending, RecField, RecRest, Want, add, field_type, later, may_grow,
    on_heap, record_pieces, reduced_name, whole,
};
use plain_tree::Fields;
use std::alloc::{AllocError, Global};
use term_parts::{Part, Progress, Sought, ask, below, term};

/// A record with its fields so far.
#[derive(Drop)]
pub struct Recording<'a> {
    pub env: Env,
    pub want: Want,
    /// The fields of the wanted type, if they are known.
    pub wanted: Option<Cons>,
    pub place: Place,
    pub fields: &'a Fields,
    pub built: Vec<RecField<'a>>,
}

/// A record whose open fields go on.
#[derive(Drop)]
pub struct Refilling<'a> {
    pub want: Want,
    /// The fields of the wanted type, if they are known.
    pub wanted: Option<Cons>,
    pub place: Place,
    pub built: Vec<RecField<'a>>,
    /// The fields that weren't looked at again, the last first.
    pub turned: Vec<RecField<'a>>,
}

/// The name of a field, and its place.
#[derive(Drop)]
pub struct FieldName {
    pub place: Place,
    pub name: Box<Con>,
}

/// How a record goes on with the part that it asked for.
#[derive(Drop)]
pub enum RecordAfter<'a> {
    /// The value of a record's field.
    Field(Box<Recording<'a>>, FieldName),
    /// The value of a record's field that was open.
    FieldRest(Box<Refilling<'a>>, FieldName),
}

/// Goes on with what a part gave. Where it is refused, so is the whole.
pub fn go_on<'a>(
    alloc: Global,
    after: RecordAfter<'a>,
    given: Result<Outcome<'a>, ElabFault>,
    room: u32,
) -> Result<Progress<'a, RecordAfter<'a>>, ElabFault> {
    let outcome = given?;
    match after {
        RecordAfter::Field(recording, name) => with_field(alloc, recording, name, outcome, room),
        RecordAfter::FieldRest(refilling, name) => {
            with_open_field(alloc, refilling, name, outcome, room)
        }
    }
}

/// What never ends counts as want of memory. What it holds is let go here, where that is proved, and not by its caller.
pub fn endless(_progress: Progress<'_, RecordAfter<'_>>) -> ElabFault {
    ElabFault::Memory
}

/// The fields of a wanted record type; none where it isn't known, or is another type.
fn wanted_fields(alloc: Global, want: &Want) -> Result<Option<Cons>, AllocError> {
    match want {
        Want::Whole(c) => record_pieces(alloc, c),
        _ => Ok(None),
    }
}

/// What is wanted of a field.
fn field_want(
    alloc: Global,
    want: &Want,
    fields: &Option<Cons>,
    name: &Con,
) -> Result<Want, AllocError> {
    match fields {
        None => {
            if may_grow(want) {
                Ok(Want::Free)
            } else {
                Ok(Want::Choose)
            }
        }
        Some(pieces) => {
            let name = reduced_name(alloc, name)?;
            match field_type(alloc, pieces, &name)? {
                None => Ok(Want::Choose),
                Some(con) => whole(alloc, con),
            }
        }
    }
}

/// `{c = e, ..}`
pub fn of_record<'a>(
    alloc: Global,
    sought: Box<Sought<'a>>,
    fields: &'a Fields,
    room: u32,
) -> Result<Progress<'a, RecordAfter<'a>>, ElabFault> {
    let Sought { env, want, source } = Box::into_inner(sought);
    let wanted = wanted_fields(alloc, &want)?;
    let place = env.place(source.at);
    let recording = Recording {
        env,
        want,
        wanted,
        place,
        fields,
        built: Vec::new(alloc),
    };
    next_field(alloc, on_heap(alloc, recording)?, room)
}

/// The field that comes next, or the end of the record.
fn next_field<'a>(
    alloc: Global,
    recording: Box<Recording<'a>>,
    room: u32,
) -> Result<Progress<'a, RecordAfter<'a>>, ElabFault> {
    let fields = recording.fields;
    match fields.items.get(recording.built.len()) {
        None => {
            let Recording {
                want,
                place,
                built,
                ..
            } = Box::into_inner(recording);
            record_end(alloc, place, built, &want)
        }
        Some(field) => ask_field(alloc, recording, field, room),
    }
}

/// Asks for the value of a field.
fn ask_field<'a>(
    alloc: Global,
    recording: Box<Recording<'a>>,
    field: &'a plain_tree::Field,
    room: u32,
) -> Result<Progress<'a, RecordAfter<'a>>, ElabFault> {
    let level = below(room);
    let name = recording.env.con(alloc, &field.name, &Kind::Names, level)?;
    let name = on_heap(alloc, name)?;
    let want = field_want(alloc, &recording.want, &recording.wanted, &name)?;
    let part = term(alloc, recording.env.share()?, want, &field.value)?;
    let place = recording.env.place(field.at);
    ask(
        alloc,
        RecordAfter::Field(recording, FieldName { place, name }),
        part,
        level,
    )
}

/// A field with its value.
fn with_name<'a>(name: FieldName, value: Outcome<'a>) -> RecField<'a> {
    let FieldName { place, name } = name;
    RecField { place, name, value }
}

/// A record with one field more.
fn with_field<'a>(
    alloc: Global,
    recording: Box<Recording<'a>>,
    name: FieldName,
    outcome: Outcome<'a>,
    room: u32,
) -> Result<Progress<'a, RecordAfter<'a>>, ElabFault> {
    let mut recording = recording;
    add(&mut recording.built, with_name(name, outcome))?;
    next_field(alloc, recording, room)
}

/// A record, once its fields are elaborated as far as they can be.
fn record_end<'a>(
    alloc: Global,
    place: Place,
    fields: Vec<RecField<'a>>,
    want: &Want,
) -> Result<Progress<'a, RecordAfter<'a>>, ElabFault> {
    if may_grow(want) && any_open(&fields) {
        let rest = RecRest { place, fields };
        return Ok(Progress::Ended(later(alloc, Core::Rec(on_heap(alloc, rest)?))?));
    }
    Ok(Progress::Ended(record_of(alloc, place, fields)?))
}

/// Whether a field is open.
fn any_open(fields: &Vec<RecField<'_>>) -> bool {
    for i in 0..fields.len() {
        match &fields[i].value {
            Outcome::Later(_) => return true,
            Outcome::Done(_) => {}
        }
    }
    false
}

/// Goes on with a record's open fields.
pub fn of_record_rest<'a>(
    alloc: Global,
    rest: Box<RecRest<'a>>,
    want: Want,
    room: u32,
) -> Result<Progress<'a, RecordAfter<'a>>, ElabFault> {
    let RecRest { place, fields } = Box::into_inner(rest);
    let wanted = wanted_fields(alloc, &want)?;
    let refilling = Refilling {
        want,
        wanted,
        place,
        built: Vec::new(alloc),
        turned: turned(alloc, fields)?,
    };
    refill(alloc, on_heap(alloc, refilling)?, room)
}

/// Fields, the last first.
fn turned<'a>(alloc: Global, fields: Vec<RecField<'a>>) -> Result<Vec<RecField<'a>>, AllocError> {
    let mut fields = fields;
    let mut turned = Vec::new(alloc);
    for _ in 0..fields.len() {
        match fields.pop() {
            None => {}
            Some(field) => add(&mut turned, field)?,
        }
    }
    Ok(turned)
}

/// A field that is open.
#[derive(Drop)]
struct OpenField<'a> {
    name: FieldName,
    pending: Box<Pending<'a>>,
}

/// The next field that is open; those before it are built.
fn next_open<'a>(
    built: &mut Vec<RecField<'a>>,
    turned: &mut Vec<RecField<'a>>,
) -> Result<Option<OpenField<'a>>, AllocError> {
    for _ in 0..turned.len() {
        match turned.pop() {
            None => {}
            Some(field) => {
                let RecField { place, name, value } = field;
                let name = FieldName { place, name };
                match value {
                    Outcome::Later(pending) => return Ok(Some(OpenField { name, pending })),
                    done => add(built, with_name(name, done))?,
                }
            }
        }
    }
    Ok(None)
}

/// The open field that comes next, or the end of the record.
fn refill<'a>(
    alloc: Global,
    refilling: Box<Refilling<'a>>,
    room: u32,
) -> Result<Progress<'a, RecordAfter<'a>>, ElabFault> {
    let Refilling {
        want,
        wanted,
        place,
        built,
        turned,
    } = Box::into_inner(refilling);
    let mut built = built;
    let mut turned = turned;
    match next_open(&mut built, &mut turned)? {
        None => record_end(alloc, place, built, &want),
        Some(open) => {
            let OpenField { name, pending } = open;
            let inner = field_want(alloc, &want, &wanted, &name.name)?;
            let refilling = Refilling {
                want,
                wanted,
                place,
                built,
                turned,
            };
            let after = RecordAfter::FieldRest(on_heap(alloc, refilling)?, name);
            ask(alloc, after, Part::Open(pending, inner), below(room))
        }
    }
}

/// A record with one field that was open.
fn with_open_field<'a>(
    alloc: Global,
    refilling: Box<Refilling<'a>>,
    name: FieldName,
    outcome: Outcome<'a>,
    room: u32,
) -> Result<Progress<'a, RecordAfter<'a>>, ElabFault> {
    let mut refilling = refilling;
    add(&mut refilling.built, with_name(name, outcome))?;
    refill(alloc, refilling, room)
}
