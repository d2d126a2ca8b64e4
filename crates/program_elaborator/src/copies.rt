//! Copies of what a program takes over from its source as it stands there.
use core_terms::{ForeignName, Foreigns, Rule, Rules};
use std::alloc::{AllocError, Global};
use table_rows::Texts;

/// A copy of texts.
pub fn copy_texts(alloc: Global, texts: &Texts) -> Result<Texts, AllocError> {
    let mut copied = Texts::new(alloc);
    for i in 0..texts.len() {
        copied.push(texts.at(i).copy(alloc)?)?;
    }
    Ok(copied)
}

/// A copy of the rules on addresses.
pub fn copy_rules(alloc: Global, rules: &Rules) -> Result<Rules, AllocError> {
    let mut copied = Rules::new(alloc);
    for i in 0..rules.items.len() {
        let Rule { allow, pattern } = &rules.items[i];
        let pattern = pattern.copy(alloc)?;
        copied.push(Rule {
            allow: *allow,
            pattern,
        })?;
    }
    Ok(copied)
}

/// A copy of the foreign effects.
pub fn copy_foreigns(alloc: Global, effects: &Foreigns) -> Result<Foreigns, AllocError> {
    let mut copied = Foreigns::new(alloc);
    for i in 0..effects.items.len() {
        let ForeignName { module, name } = &effects.items[i];
        let module = module.copy(alloc)?;
        let name = name.copy(alloc)?;
        copied.push(ForeignName { module, name })?;
    }
    Ok(copied)
}
