//! Types of parts, level by level.
ghost use Rattle.std.specs.Prelude.{◌≡◌, ◌++◌, ◌∷◌, [], IfOk, OnOk, map};
ghost use Rattle.con_terms.specs.Trees.{con_list};
ghost use Rattle.con_terms.specs.View.{con_tree, cons_tree};
ghost use Rattle.core_terms.specs.View.{constructor_view, datatype_view};
ghost use Rattle.match_cover.specs.Levels as meant;
ghost use Rattle.match_cover.specs.View.{maybe_cons, part_view, seen_view};

use crate::seen::{Part, Seen, held_type, see};
use crate::test::normal_of;
use con_terms::{Con, Cons, copy_con};
use core_terms::Datatype;
use row_normal::same_con;
use std::alloc::{AllocError, Global};

/// How many different types one level may have.
const TYPES: usize = 10_000;

/// Whether a type is among others.
fn is_among(t: &Con, others: &Vec<Con>) -> bool
    ensures { result ≡ meant.is_among (con_tree t.now) (map con_tree others.now.items) }
{
    for i in 0..others.len() {
        if same_con(&others[i], t) {
            return true;
        }
    }
    false
}

/// Puts a type behind others, where it isn't among them.
fn add(t: Con, others: &mut Vec<Con>) -> Result<(), AllocError>
    ensures { OnOk result (map con_tree others.new.items ≡ meant.added (con_tree t) (map con_tree others.old.items)) }
{
    if is_among(&t, others) {
        return Ok(());
    }
    if others.len() >= TYPES {
        return Err(AllocError);
    }
    Ok(others.push(t)?)
}

/// Puts the types of what a datatype's constructors hold behind others.
fn add_held(
    alloc: Global,
    d: &Datatype,
    args: &Cons,
    others: &mut Vec<Con>,
) -> Result<(), AllocError>
    ensures { OnOk result (map con_tree others.new.items ≡ meant.add_held (con_list (cons_tree args.now))
        (map constructor_view d.now.constructors.items.items) (map con_tree others.old.items)) }
{
    for j in 0..d.constructors.items.len() {
        match &d.constructors.items[j].holds {
            None => {}
            Some(held) => add(held_type(alloc, args, held)?, others)?,
        }
    }
    Ok(())
}

/// Puts the types of fields behind others.
fn add_fields(alloc: Global, fields: &Vec<Part>, others: &mut Vec<Con>) -> Result<(), AllocError>
    ensures { OnOk result (map con_tree others.new.items ≡
        meant.add_fields (map part_view fields.now.items) (map con_tree others.old.items)) }
{
    for i in 0..fields.len() {
        add(copy_con(alloc, &fields[i].con)?, others)?;
    }
    Ok(())
}

/// Puts the types of a type's parts behind others.
fn add_parts(alloc: Global, told: &Seen, others: &mut Vec<Con>) -> Result<(), AllocError>
    ensures { OnOk result
        (map con_tree others.new.items ≡ meant.add_parts (seen_view told.now) (map con_tree others.old.items)) }
{
    match told {
        Seen::Data(d, args) => add_held(alloc, d, args, others),
        Seen::Record(fields) => add_fields(alloc, fields, others),
        _ => Ok(()),
    }
}

/// The types of the parts of values of some types; none where one of the types is too large.
fn next_level(
    alloc: Global,
    datatypes: &Vec<Datatype>,
    types: &Vec<Con>,
) -> Result<Option<Vec<Con>>, AllocError>
    ensures { IfOk result (λ o. maybe_cons o ≡
        meant.next_level (map datatype_view datatypes.now.items) (map con_tree types.now.items) []) }
{
    let mut next = Vec::new(alloc);
    for i in 0..types.len() {
        match normal_of(alloc, &types[i])? {
            None => return Ok(None),
            Some(n) => {
                let told = see(alloc, datatypes, &n)?;
                add_parts(alloc, &told, &mut next)?;
            }
        }
    }
    Ok(Some(next))
}

/// Whether one of these types is too large, or that of a part that lies no deeper than a depth.
pub fn large_among(
    alloc: Global,
    datatypes: &Vec<Datatype>,
    types: Vec<Con>,
    depth: u32,
) -> Result<bool, AllocError>
    ensures { IfOk result (λ r. r ≡
        meant.large_among (map datatype_view datatypes.now.items) depth (map con_tree types.items)) }
{
    let mut now = types;
    let mut left = depth;
    while left > 0 {
        left -= 1;
        match next_level(alloc, datatypes, &now)? {
            None => return Ok(true),
            Some(next) => now = next,
        }
    }
    Ok(false)
}
