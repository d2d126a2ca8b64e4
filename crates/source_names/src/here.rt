//! The scope at a place of a source.
ghost use Rattle.std.specs.Prelude.{◌≡◌, ◌∷◌, IfOk};
ghost use Rattle.source_names.specs.Scopes as scopes;
ghost use Rattle.source_names.specs.Standing as standing;
ghost use Rattle.source_names.specs.View.{declared_view, names_view, scope_view, tables_view};

use crate::known::Known;
use crate::texts::same_text;
use core_terms::Program;
use plain_tree::Path;
use std::alloc::{AllocError, Global};
use std::rc::Rc;
use table_rows::Text;

/// The names that binders give, the innermost first. The tail is shared.
#[derive(Drop)]
pub enum Names {
    Nothing,
    Under(Text, Rc<Names>),
}

/// What is in scope at a place. Contracts see it as `scope_view`.
#[derive(Drop)]
pub struct Here<'p> {
    /// What is declared before.
    pub known: &'p Known,
    /// The program, whose tables tell the texts of symbols, foreign effects and folders.
    pub program: &'p Program,
    /// The names of variables.
    pub values: Rc<Names>,
    /// The names of constructor variables.
    pub variables: Rc<Names>,
}

/// These names with one more, which is the innermost.
fn with_name(alloc: Global, name: &Text, names: &Rc<Names>) -> Result<Rc<Names>, AllocError>
    ensures { IfOk result (λ r. names_view r.value ≡ name.now ∷ names_view names.now.value) }
{
    let layer = Names::Under(name.copy(alloc)?, names.clone()?);
    Ok(Rc::new(alloc, layer).map_err(AllocError::from)?)
}

/// How many binders further in than the innermost of a name others stand. More than 2^32 - 1 count as
/// want of memory.
#[cycle(binder_of)]
pub fn binder_of(name: &Text, names: &Names) -> Result<Option<u32>, AllocError>
    ensures { IfOk result (λ o. o ≡ standing.binder_of name.now (names_view names.now)) }
{
    match names {
        Names::Nothing => Ok(None),
        Names::Under(called, rest) => {
            if same_text(called, name) {
                return Ok(Some(0));
            }
            match binder_of(name, rest)? {
                None => Ok(None),
                Some(u32::MAX) => Err(AllocError),
                Some(further) => Ok(Some(further + 1)),
            }
        }
    }
}

/// The number of the binder that a path names, among these names.
pub(crate) fn binder_at(path: &Path, names: &Names) -> Result<Option<u32>, AllocError>
    ensures { IfOk result
        (λ o. o ≡ standing.binder_at path.now.modules path.now.name (names_view names.now)) }
{
    match path.modules.items.as_slice() {
        [] => binder_of(&path.name, names),
        _ => Ok(None),
    }
}

impl<'p> Here<'p> {
    /// The scope outside of all binders.
    pub fn new(
        alloc: Global,
        known: &'p Known,
        program: &'p Program,
    ) -> Result<Here<'p>, AllocError>
        ensures { IfOk result
            (λ r. scope_view r ≡ scopes.at_top (tables_view program.now) (declared_view known.now)) }
    {
        let values = Rc::new(alloc, Names::Nothing).map_err(AllocError::from)?;
        let variables = Rc::new(alloc, Names::Nothing).map_err(AllocError::from)?;
        Ok(Here {
            known,
            program,
            values,
            variables,
        })
    }

    /// The scope inside of a binder of a variable.
    pub fn under_value(&self, alloc: Global, name: &Text) -> Result<Here<'p>, AllocError>
        ensures { IfOk result (λ r. scope_view r ≡ scopes.under_value name.now (scope_view self.now)) }
    {
        Ok(Here {
            known: self.known,
            program: self.program,
            values: with_name(alloc, name, &self.values)?,
            variables: self.variables.clone()?,
        })
    }

    /// The scope inside of a binder of a constructor variable.
    pub fn under_variable(&self, alloc: Global, name: &Text) -> Result<Here<'p>, AllocError>
        ensures { IfOk result (λ r. scope_view r ≡ scopes.under_variable name.now (scope_view self.now)) }
    {
        Ok(Here {
            known: self.known,
            program: self.program,
            values: self.values.clone()?,
            variables: with_name(alloc, name, &self.variables)?,
        })
    }
}
