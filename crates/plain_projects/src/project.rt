//! A project without sugar.
ghost use Rattle.std.specs.Prelude.{◌≡◌, map, IfOk};
ghost use Rattle.core_terms.specs.Lists.{foreigns_view, rules_view};
ghost use Rattle.plain_tree.specs.View.{plain_view};
ghost use Rattle.project_sources.specs.Projects.{ProjectTrees};
ghost use Rattle.project_sources.specs.View.{ListsProject};
ghost use Rattle.plain_projects.specs.Listed.{AreWhole};
ghost use Rattle.plain_projects.specs.Said.{exported_said, names_said, rules_said, trees_said};

use crate::interfaces::exported_of;
use crate::modules::plains_of;
use crate::names::names_of;
use crate::settings::{foreign_of, rules_of};
use core_terms::{Foreigns, Rules};
use plain_tree::Plain;
use project_sources::Sources;
use std::alloc::{AllocError, Global};
use table_rows::Texts;

/// What the sources of a project say, without sugar. The last module is the main one.
#[derive(Drop)]
pub struct PlainProject {
    /// The modules' names.
    pub names: Texts,
    /// The modules without sugar.
    pub trees: Vec<Plain>,
    /// The names that the main module's interface has, where there is one.
    pub exported: Option<Texts>,
    /// The rules on addresses.
    pub rules: Rules,
    /// The foreign effects.
    pub foreign: Foreigns,
}

/// A project that was read, without sugar.
pub fn plain_project(alloc: Global, sources: &Sources) -> Result<PlainProject, AllocError>
    ensures names { IfOk result (λ said. (p : ProjectTrees) → ListsProject sources.now p
        → said.names ≡ names_said p.modules) }
    ensures trees { IfOk result (λ said. (p : ProjectTrees) → ListsProject sources.now p → AreWhole p.modules
        → map plain_view said.trees.items ≡ trees_said p.modules) }
    ensures exported { IfOk result (λ said. (p : ProjectTrees) → ListsProject sources.now p → AreWhole p.modules
        → said.exported ≡ exported_said p.modules) }
    ensures rules { IfOk result (λ said. (p : ProjectTrees) → ListsProject sources.now p
        → rules_view said.rules ≡ rules_said p.said.rules) }
    ensures foreign { IfOk result (λ said. (p : ProjectTrees) → ListsProject sources.now p
        → foreigns_view said.foreign ≡ p.said.effects) }
{
    let modules = sources.modules.as_slice();
    Ok(PlainProject {
        names: names_of(alloc, modules)?,
        trees: plains_of(alloc, modules)?,
        exported: exported_of(alloc, modules)?,
        rules: rules_of(alloc, &sources.project)?,
        foreign: foreign_of(alloc, &sources.project)?,
    })
}
