//! Rules on addresses, and foreign effects.
ghost use Rattle.std.specs.Prelude.{◌≡◌, IfOk};
ghost use Rattle.core_terms.specs.Lists.{foreigns_view, rules_view};
ghost use Rattle.project_files.specs.View.{said_by};
ghost use Rattle.plain_projects.specs.Said.{rules_said};

use core_terms::{ForeignName, Foreigns, Rule, Rules};
use project_files::Project;
use std::alloc::{AllocError, Global};

/// The rules on addresses.
pub fn rules_of(alloc: Global, project: &Project) -> Result<Rules, AllocError>
    ensures { IfOk result (λ rules. rules_view rules ≡ rules_said (said_by project.now).rules) }
{
    let mut rules = Rules::new(alloc);
    for rule in project.rules.as_slice() {
        let pattern = rule.pattern.copy(alloc)?;
        let allow = rule.allow;
        rules.push(Rule { allow, pattern })?;
    }
    Ok(rules)
}

/// The foreign effects.
pub fn foreign_of(alloc: Global, project: &Project) -> Result<Foreigns, AllocError>
    ensures { IfOk result (λ effects. foreigns_view effects ≡ (said_by project.now).effects) }
{
    let mut effects = Foreigns::new(alloc);
    for effect in project.effects.as_slice() {
        let module = effect.owner.copy(alloc)?;
        let name = effect.name.copy(alloc)?;
        effects.push(ForeignName { module, name })?;
    }
    Ok(effects)
}
