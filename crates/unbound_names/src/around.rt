//! The scope at a place of a source.
ghost use Rattle.std.specs.Prelude.{◌≡◌, ◌∷◌, IfOk, map};
ghost use Rattle.core_terms.specs.View.{foreign_view};
ghost use Rattle.source_names.specs.Scopes.{at_top, under_value, under_variable};
ghost use Rattle.source_names.specs.View.{declared_view, names_view};
ghost use Rattle.unbound_names.specs.InScope.{tables_with};
ghost use Rattle.unbound_names.specs.View.{around_view};

use core_terms::Foreigns;
use source_names::{Known, Names};
use std::alloc::{AllocError, Global};
use std::rc::Rc;
use table_rows::Text;

/// How many binders may stand around a place. More count as want of memory, since letting go of them takes
/// stack.
const MOST: u32 = 10_000;

/// What is in scope at a place. Contracts see it as `around_view`.
#[derive(Drop)]
pub struct Around<'p> {
    /// What is declared before.
    pub known: &'p Known,
    /// The foreign effects.
    pub effects: &'p Foreigns,
    /// The names of variables.
    pub values: Rc<Names>,
    /// The names of constructor variables.
    pub variables: Rc<Names>,
    /// How many names there are of both.
    count: u32,
}

/// These names with one more, which is the innermost.
fn with_name(alloc: Global, name: &Text, names: &Rc<Names>) -> Result<Rc<Names>, AllocError>
    ensures { IfOk result (λ r. names_view r.value ≡ name.now ∷ names_view names.now.value) }
{
    let layer = Names::Under(name.copy(alloc)?, names.clone()?);
    Ok(Rc::new(alloc, layer).map_err(AllocError::from)?)
}

/// One more than a number of names.
fn one_more(count: u32) -> Result<u32, AllocError> {
    if count < MOST {
        Ok(count + 1)
    } else {
        Err(AllocError)
    }
}

impl<'p> Around<'p> {
    /// The scope outside of all binders.
    pub fn new(
        alloc: Global,
        known: &'p Known,
        effects: &'p Foreigns,
    ) -> Result<Around<'p>, AllocError>
        ensures { IfOk result (λ r. around_view r
            ≡ at_top (tables_with (map foreign_view effects.now.items.items)) (declared_view known.now)) }
    {
        let values = Rc::new(alloc, Names::Nothing).map_err(AllocError::from)?;
        let variables = Rc::new(alloc, Names::Nothing).map_err(AllocError::from)?;
        Ok(Around {
            known,
            effects,
            values,
            variables,
            count: 0,
        })
    }

    /// The same scope once more.
    pub fn share(&self) -> Result<Around<'p>, AllocError>
        ensures { IfOk result (λ r. around_view r ≡ around_view self.now) }
    {
        Ok(Around {
            known: self.known,
            effects: self.effects,
            values: self.values.clone()?,
            variables: self.variables.clone()?,
            count: self.count,
        })
    }

    /// The scope inside of a binder of a variable.
    pub fn under_value(&self, alloc: Global, name: &Text) -> Result<Around<'p>, AllocError>
        ensures { IfOk result (λ r. around_view r ≡ under_value name.now (around_view self.now)) }
    {
        Ok(Around {
            known: self.known,
            effects: self.effects,
            values: with_name(alloc, name, &self.values)?,
            variables: self.variables.clone()?,
            count: one_more(self.count)?,
        })
    }

    /// The scope inside of a binder of a constructor variable.
    pub fn under_variable(&self, alloc: Global, name: &Text) -> Result<Around<'p>, AllocError>
        ensures { IfOk result (λ r. around_view r ≡ under_variable name.now (around_view self.now)) }
    {
        Ok(Around {
            known: self.known,
            effects: self.effects,
            values: self.values.clone()?,
            variables: with_name(alloc, name, &self.variables)?,
            count: one_more(self.count)?,
        })
    }
}
