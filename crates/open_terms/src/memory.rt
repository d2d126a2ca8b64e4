//! Taking memory.
use std::alloc::{AllocError, Global};
use std::mem::replace;

/// A value on the heap.
pub fn on_heap<T: Drop>(alloc: Global, value: T) -> Result<Box<T>, AllocError> {
    Ok(Box::new(alloc, value)?)
}

/// A value on the heap, where there is one.
pub fn maybe_on_heap<T: Drop>(
    alloc: Global,
    value: Option<T>,
) -> Result<Option<Box<T>>, AllocError> {
    match value {
        None => Ok(None),
        Some(value) => Ok(Some(on_heap(alloc, value)?)),
    }
}

/// Puts a value last in a list.
pub fn add<T: Drop>(list: &mut Vec<T>, value: T) -> Result<(), AllocError> {
    Ok(list.push(value)?)
}

/// Puts other values in front of those of a list.
pub fn put_before<T: Drop>(list: &mut Vec<T>, others: Vec<T>) -> Result<(), AllocError> {
    let mut inner = replace(list, others);
    list.append(&mut inner)?;
    Ok(())
}
