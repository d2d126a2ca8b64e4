//! The parts of constructors: what stands in a `$`, at the two sides of an application or of a `++`, and
//! before a number.
ghost use Rattle.std.specs.Prelude.{◌≡◌, Bool, option_map};
ghost use Rattle.con_terms.specs.Trees.{Cn};
ghost use Rattle.con_terms.specs.View.{con_tree};
ghost use Rattle.source_names.specs.Parts.{if_any, if_both, two_trees};
ghost use Rattle.source_names.specs.Reading as reading;

use con_terms::Con;
use plain_tree::{Numbers, Places};

/// The two sides of an application, or of a concatenation.
#[derive(Clone, Copy, Drop)]
pub struct Two<'c> {
    pub left: &'c Con,
    pub right: &'c Con,
}

/// The two sides of an application.
pub(crate) fn app_parts<'c>(con: &'c Con) -> Option<Two<'c>>
    ensures { (first : Cn → Bool) (second : Cn → Bool) →
        reading.is_app first second (con_tree con.now) ≡ if_both first second (option_map two_trees result) }
{
    match con {
        Con::App(left, right) => Some(Two { left, right }),
        _ => None,
    }
}

/// The two sides of a concatenation.
pub(crate) fn cat_parts<'c>(con: &'c Con) -> Option<Two<'c>>
    ensures { (first : Cn → Bool) (second : Cn → Bool) →
        reading.is_cat first second (con_tree con.now) ≡ if_both first second (option_map two_trees result) }
{
    match con {
        Con::Cat(left, right) => Some(Two { left, right }),
        _ => None,
    }
}

/// What stands in a `$`.
fn record_part(con: &Con) -> Option<&Con>
    ensures { (first : Cn → Bool) →
        reading.is_record first (con_tree con.now) ≡ if_any first (option_map (λ c. con_tree c.now) result) }
{
    match con {
        Con::Record(row) => Some(row),
        _ => None,
    }
}

/// What stands in a `$`, and in one more for each of these places.
pub(crate) fn in_records<'c>(con: &'c Con, more: &Places) -> Option<&'c Con>
    ensures { (first : Cn → Bool) →
        reading.is_records more.now first (con_tree con.now)
        ≡ if_any first (option_map (λ c. con_tree c.now) result) }
{
    let mut at = con;
    for i in 0..more.items.len() {
        match record_part(at) {
            None => return None,
            Some(row) => at = row,
        }
    }
    record_part(at)
}

/// What stands before this number, where the first component is 1.
fn proj_part(con: &Con, number: u64) -> Option<&Con>
    ensures { (first : Cn → Bool) →
        reading.is_proj first number (con_tree con.now)
        ≡ if_any first (option_map (λ c. con_tree c.now) result) }
{
    match con {
        Con::Proj(tuple, index) => {
            if number == *index as u64 + 1 {
                Some(tuple)
            } else {
                None
            }
        }
        _ => None,
    }
}

/// What stands before these numbers.
pub(crate) fn before_numbers<'c>(con: &'c Con, numbers: &Numbers) -> Option<&'c Con>
    ensures { (first : Cn → Bool) →
        reading.is_projs numbers.now first (con_tree con.now)
        ≡ if_any first (option_map (λ c. con_tree c.now) result) }
{
    let mut at = con;
    let mut left = numbers.items.len();
    while left > 0 {
        left -= 1;
        match proj_part(at, numbers.items[left]) {
            None => return None,
            Some(tuple) => at = tuple,
        }
    }
    Some(at)
}
