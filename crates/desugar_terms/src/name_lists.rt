//! Names one after another.
ghost use Rattle.std.specs.Prelude.{◌≡◌, ◌++◌, IfOk};
ghost use Rattle.desugar_values.specs.View.{meanings_tree};
ghost use Rattle.desugar_terms.specs.NameLists.{names_of};

use desugar_values::{Meanings, named, word_of};
use plain_tree::Words;
use std::alloc::{AllocError, Global};

/// Adds words as names.
pub fn add_names(alloc: Global, names: Words, more: Meanings) -> Result<Words, AllocError>
    ensures { IfOk result (λ all. all ≡ names ++ names_of (meanings_tree more)) }
{
    let mut all = names;
    for part in more.into_list() {
        all.push(named(alloc, word_of(part)))?;
    }
    Ok(all)
}
