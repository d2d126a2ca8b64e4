//! A region used for two requests, whose values are of a type of their own.
use request_region::Region;
use std::alloc::{AllocError, Global};

/// A list whose parts lie in a region.
#[derive(Clone, Copy, Drop)]
enum Chain<'r> {
    Nothing,
    Item(&'r str, &'r Chain<'r>),
}

/// The texts of a chain in order, with commas.
fn spelled(chain: &Chain, into: &mut String) -> Result<(), AllocError> {
    match chain {
        Chain::Nothing => Ok(()),
        Chain::Item(text, rest) => {
            into.push_str(text)?;
            into.push_str(",")?;
            spelled(rest, into)
        }
    }
}

/// Puts a chain of two texts and a list of two such chains into the region, and reads them.
fn request(region: &Region, first: &str, read: &mut String) -> Result<(), AllocError> {
    let last = region.put_value(Chain::Item(region.put_text("z")?, &Chain::Nothing))?;
    let whole = Chain::Item(region.put_text(first)?, last);
    for chain in region.put_slice(&[whole, *last])? {
        spelled(chain, read)?;
    }
    Ok(())
}

/// A region that is used, given up and used again.
pub fn a_region_serves_again(alloc: Global) -> Result<bool, AllocError> {
    let mut region = Region::new(alloc);
    let mut read = String::new(alloc);
    request(&region, "é", &mut read)?;
    region.again();
    request(&region, "", &mut read)?;
    Ok(read.as_str() == "é,z,z,,z,z,")
}
