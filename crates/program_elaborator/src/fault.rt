//! Why modules aren't elaborated.
ghost use Rattle.std.specs.Prelude.{◌≡◌};
ghost use Rattle.name_scopes.specs.declared.fault.ElabFault.TheVariants as elab;

use con_terms::{Sym, SymTable};
use name_scopes::{ElabFault, Tops};
use std::alloc::{AllocError, Global};
use table_rows::{Text, Texts};

/// Why modules aren't elaborated, with the texts of the symbols in the fault.
#[derive(Drop)]
pub struct Refusal {
    pub fault: ElabFault,
    pub names: Texts,
}

/// The texts of all symbols, in the order of their numbers.
pub fn texts_of(alloc: Global, names: &SymTable) -> Result<Texts, AllocError> {
    let mut texts = Texts::new(alloc);
    for number in 0..names.count() {
        let text = Text::of(alloc, names.text(Sym { number }))?;
        texts.push(text)?;
    }
    Ok(texts)
}

/// The refusal for want of memory, which has no symbols.
pub fn memory(alloc: Global) -> Refusal
    ensures { result.fault ≡ elab.Memory }
{
    Refusal {
        fault: ElabFault::Memory,
        names: Texts::new(alloc),
    }
}

/// The refusal with a fault, after these declarations.
pub fn refused(alloc: Global, fault: ElabFault, tops: &Tops) -> Refusal {
    match texts_of(alloc, &tops.names) {
        Ok(names) => Refusal { fault, names },
        Err(_) => memory(alloc),
    }
}
