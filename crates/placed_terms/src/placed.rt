//! Programs whose nodes stand where those of their source do.
ghost use Rattle.std.specs.Prelude.{◌≡◌, ◌++◌, ℕ, List, map, IfOk};
ghost use Rattle.core_terms.specs.View as made_view;
ghost use Rattle.placed_terms.specs.Parts.{behind, made_listed, source_listed};
ghost use Rattle.placed_terms.specs.Placed as goal;
ghost use Rattle.plain_tree.specs.Trees.{DeclTree};
ghost use Rattle.plain_tree.specs.View as plain_view;

use crate::made_parts::MadePart;
use crate::made_terms::{next_place, put_decl as put_made};
use crate::source_parts::SourcePart;
use crate::source_terms::{next_byte, put_decl as put_source};
use core_terms::{Decl, Program};
use plain_tree::Plain;
use std::alloc::{AllocError, Global};

/// Whether the places of parts are those at the bytes of others, in the file with a number.
fn stand_at(
    file: u32,
    source: &mut Vec<SourcePart<'_>>,
    made: &mut Vec<MadePart<'_>>,
) -> Result<bool, AllocError>
    ensures { IfOk result (λ b. b ≡ goal.stand_at file (source_listed source.old.items) (made_listed made.old.items)) }
{
    for _ in 0..u64::MAX {
        match next_byte(source)? {
            None => return Ok(matches!(next_place(made)?, None)),
            Some(at) => match next_place(made)? {
                None => return Ok(false),
                Some(place) => {
                    if place.file != file || place.at != at {
                        return Ok(false);
                    }
                }
            },
        }
    }
    Err(AllocError)
}

/// Whether a declaration of a program is placed as the source's is.
fn is_placed(
    alloc: Global,
    file: u32,
    source: &plain_tree::Decl,
    made: &Decl,
) -> Result<bool, AllocError>
    ensures { IfOk result (λ b. b ≡ goal.is_placed file (plain_view.decl_tree source.now)
        (made_view.decl_tree made.now)) }
{
    let mut bytes = Vec::new(alloc);
    put_source(&mut bytes, source)?;
    let mut places = Vec::new(alloc);
    put_made(&mut places, made)?;
    stand_at(file, &mut bytes, &mut places)
}

/// The declarations of a program behind those of a module; none where one isn't placed as the module's is.
fn behind_module<'a>(
    alloc: Global,
    file: u32,
    decls: &[plain_tree::Decl],
    made: &'a [Decl],
) -> Result<Option<&'a [Decl]>, AllocError>
    ensures { IfOk result (λ o. (more : List (ℕ × DeclTree)) → behind o (λ es. goal.all_placed more es)
        ≡ goal.all_placed (map (λ d. (file, d)) (map plain_view.decl_tree decls.now) ++ more)
        (map made_view.decl_tree made.now)) }
{
    let mut left = decls;
    let mut rest = made;
    while let Some((source, sources)) = left.split_first() {
        match rest.split_first() {
            None => return Ok(None),
            Some((first, others)) => {
                if !is_placed(alloc, file, source, first)? {
                    return Ok(None);
                }
                rest = others;
            }
        }
        left = sources;
    }
    Ok(Some(rest))
}

/// Whether the nodes of a program stand where those of these modules do, each in the file of its module's number.
pub fn are_placed(alloc: Global, trees: &[Plain], program: &Program) -> Result<bool, AllocError>
    ensures { IfOk result (λ b. b ≡ goal.are_placed (map plain_view.plain_view trees.now)
        (made_view.program_view program.now)) }
{
    let mut file: u32 = 0;
    let mut left = trees;
    let mut rest = program.decls.items.as_slice();
    while let Some((tree, trees)) = left.split_first() {
        match behind_module(alloc, file, tree.decls.items.as_slice(), rest)? {
            None => return Ok(false),
            Some(others) => rest = others,
        }
        if file == u32::MAX {
            return Err(AllocError);
        }
        file += 1;
        left = trees;
    }
    Ok(rest.is_empty())
}
