//! Names in the modules of a program.
ghost use Rattle.std.specs.Prelude.{◌≡◌, ◌≤◌, [], get_or, length, IfOk, OnOk, map};
ghost use Rattle.core_terms.specs.View.{foreign_view};
ghost use Rattle.plain_tree.specs.View.{plain_view};
ghost use Rattle.source_names.specs.Scopes as scopes;
ghost use Rattle.source_names.specs.View.{declared_view};
ghost use Rattle.unbound_names.specs.Programs.{declared_before, unbound};

use crate::asked::Asked;
use crate::declarations::{declare_all, unbound_decls};
use core_terms::Foreigns;
use plain_tree::Plain;
use source_names::Known;
use std::alloc::{AllocError, Global};
use table_rows::{Text, Texts};

/// Begins the module with a number. One without a name in the list has the empty one.
fn begin(alloc: Global, known: &mut Known, modules: &Texts, place: usize) -> Result<(), AllocError>
    ensures { OnOk result (declared_view known.new
        ≡ scopes.begin_module (get_or modules.now place []) (declared_view known.old)) }
{
    if place < modules.len() {
        known.begin_module(alloc, modules.at(place))
    } else {
        known.begin_module(alloc, &Text::new(alloc))
    }
}

/// What is declared where the module with a number begins.
fn known_before(
    alloc: Global,
    modules: &Texts,
    trees: &[Plain],
    file: usize,
) -> Result<Known, AllocError>
    requires { file ≤ length trees.now }
    ensures { IfOk result
        (λ r. declared_view r ≡ declared_before modules.now (map plain_view trees.now) file) }
{
    let mut known = Known::new(alloc);
    begin(alloc, &mut known, modules, 0)?;
    for i in 0..file {
        declare_all(alloc, &mut known, &trees[i].decls)?;
        begin(alloc, &mut known, modules, i + 1)?;
    }
    Ok(known)
}

/// Whether a name that is written so stands at a byte of the module with a number, and isn't in scope there, where
/// these are the modules' names, in their order, and the foreign effects.
pub fn is_unbound(
    alloc: Global,
    modules: &Texts,
    trees: &[Plain],
    effects: &Foreigns,
    file: u32,
    at: u32,
    name: &Text,
) -> Result<bool, AllocError>
    ensures { IfOk result (λ b. b ≡ unbound modules.now (map plain_view trees.now)
        (map foreign_view effects.now.items.items) file at name.now) }
{
    let place = file as usize;
    if place >= trees.len() {
        return Ok(false);
    }
    let known = known_before(alloc, modules, trees, place)?;
    let q = Asked {
        alloc,
        at,
        written: name,
    };
    unbound_decls(&q, known, effects, &trees[place].decls)
}
