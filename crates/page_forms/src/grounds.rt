//! Where nodes of pages stand.
use call_parts::{has_form_around, no_fields, page_parts, reduced_row};
use con_terms::Con;
use core_terms::TagName;
use open_terms::{Want, boxed_copy, on_heap};
use std::alloc::{AllocError, Global};
use type_makers::{Standing, TagSort, context_row, sort_of, stands, xml_of};

/// Where nodes stand: their context, and the fields of the form that are filled before them.
#[derive(Drop)]
pub struct Ground {
    pub context: Box<Con>,
    pub uses: Box<Con>,
}

impl Ground {
    /// The same once more.
    pub fn copy(&self, alloc: Global) -> Result<Ground, AllocError> {
        Ok(Ground {
            context: boxed_copy(alloc, &self.context)?,
            uses: boxed_copy(alloc, &self.uses)?,
        })
    }
}

/// Where a literal stands of which this is wanted; none where that isn't known.
pub fn wanted_ground(alloc: Global, want: &Want) -> Result<Option<Ground>, AllocError> {
    match want {
        Want::Whole(t) => match page_parts(alloc, t)? {
            None => Ok(None),
            Some(parts) => Ok(Some(Ground {
                context: parts.context,
                uses: parts.uses,
            })),
        },
        Want::Page(Some(context), uses) => {
            let uses = match uses {
                None => no_fields(alloc)?,
                Some(uses) => reduced_row(alloc, uses)?,
            };
            Ok(Some(Ground {
                context: reduced_row(alloc, context)?,
                uses,
            }))
        }
        _ => Ok(None),
    }
}

/// The context of a place, on the heap.
pub fn boxed_context(
    alloc: Global,
    standing: Standing,
    in_form: bool,
) -> Result<Box<Con>, AllocError> {
    on_heap(alloc, context_row(alloc, standing, in_form)?)
}

/// Where the content of a tag stands.
pub fn content_ground(alloc: Global, tag: TagName, here: &Ground) -> Result<Ground, AllocError> {
    match sort_of(tag) {
        TagSort::Holding(standing) => {
            let in_form = has_form_around(alloc, &here.context)?;
            Ok(Ground {
                context: boxed_context(alloc, standing, in_form)?,
                uses: boxed_copy(alloc, &here.uses)?,
            })
        }
        TagSort::Words => Ok(Ground {
            context: boxed_context(alloc, stands(tag), false)?,
            uses: boxed_copy(alloc, &here.uses)?,
        }),
        TagSort::Form => Ok(Ground {
            context: boxed_context(alloc, Standing::Body, true)?,
            uses: no_fields(alloc)?,
        }),
        _ => here.copy(alloc),
    }
}

/// `xml c u b`
pub fn page_of(
    alloc: Global,
    context: &Con,
    uses: &Con,
    fills: Box<Con>,
) -> Result<Con, AllocError> {
    let context = boxed_copy(alloc, context)?;
    let uses = boxed_copy(alloc, uses)?;
    xml_of(
        alloc,
        Box::into_inner(context),
        Box::into_inner(uses),
        Box::into_inner(fills),
    )
}
