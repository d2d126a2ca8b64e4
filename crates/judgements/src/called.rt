//! What the constructor variables in scope are called.
ghost use Rattle.std.specs.Prelude.{◌≡◌, ◌++◌, IfOk, OnOk};
ghost use Rattle.core_terms.specs.View.{symbols_view};
ghost use Rattle.judgements.specs.View.{called_view};

use con_terms::Sym;
use core_terms::Symbols;
use std::alloc::{AllocError, Global};
use std::rc::Rc;

/// What the constructor variables are called, the innermost first. The tail is shared.
#[derive(Drop)]
pub enum Called {
    Nothing,
    Under(Sym, Rc<Called>),
}

/// The names as a list of their own.
pub fn names_called(alloc: Global, called: &Called) -> Result<Symbols, AllocError>
    ensures { IfOk result (λ new. symbols_view new ≡ called_view called.now) }
{
    let mut names = Symbols::new(alloc);
    add_names(called, &mut names)?;
    Ok(names)
}

/// Puts the names behind these.
#[cycle(add_names)]
fn add_names(called: &Called, names: &mut Symbols) -> Result<(), AllocError>
    ensures { OnOk result (symbols_view names.new ≡ symbols_view names.old ++ called_view called.now) }
{
    match called {
        Called::Nothing => Ok(()),
        Called::Under(name, rest) => {
            names.push(*name)?;
            add_names(rest, names)
        }
    }
}
