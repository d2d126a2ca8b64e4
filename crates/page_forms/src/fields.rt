//! The fields that inputs of forms fill.
use call_parts::no_fields;
use con_terms::{Con, Kind, Place, copy_con};
use core_terms::{InputName, TagName};
use name_scopes::ElabFault;
use open_terms::{Env, on_heap};
use std::alloc::{AllocError, Global};
use type_makers::{TagSort, bool_type, one_field, sort_of, string_type};

/// Whether a tag is an input.
fn is_input(tag: TagName) -> bool {
    match sort_of(tag) {
        TagSort::TextInput | TagSort::TruthInput => true,
        _ => false,
    }
}

/// The name of the field that an element fills. An input must have one.
pub fn input_name(
    alloc: Global,
    env: &Env,
    place: Place,
    tag: TagName,
    field: &Option<plain_tree::Con>,
    room: u32,
) -> Result<Option<Box<InputName>>, ElabFault> {
    match field {
        None => {
            if is_input(tag) {
                return Err(ElabFault::Unsolved(place));
            }
            Ok(None)
        }
        Some(c) => {
            let name = env.con(alloc, c, &Kind::Names, room)?;
            let input = InputName {
                place: env.place(c.at),
                name,
            };
            Ok(Some(on_heap(alloc, input)?))
        }
    }
}

/// The field of an input, as a row.
fn input_field(
    alloc: Global,
    field: &Option<Box<InputName>>,
    t: Con,
) -> Result<Box<Con>, AllocError> {
    match field {
        None => no_fields(alloc),
        Some(field) => {
            let name = copy_con(alloc, &field.name)?;
            on_heap(alloc, one_field(alloc, name, t)?)
        }
    }
}

/// What an element fills: its field, or what its content fills. A form fills nothing.
pub fn filled_by(
    alloc: Global,
    tag: TagName,
    field: &Option<Box<InputName>>,
    content: Box<Con>,
) -> Result<Box<Con>, AllocError> {
    match sort_of(tag) {
        TagSort::Holding(_) | TagSort::Words => Ok(content),
        TagSort::TextInput => input_field(alloc, field, string_type()),
        TagSort::TruthInput => input_field(alloc, field, bool_type()),
        _ => no_fields(alloc),
    }
}
