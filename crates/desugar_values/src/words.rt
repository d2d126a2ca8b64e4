//! Words as names and labels.
ghost use Rattle.std.specs.Prelude.{◌≡◌, IfOk};
ghost use Rattle.plain_tree.specs.ConView.{con_tree};
ghost use Rattle.desugar_values.specs.View.{meaning_tree, meanings_tree};
ghost use Rattle.desugar_values.specs.Words.{bare, component, field_name, field_word, hash_name, label_of, texts};

use crate::meaning::{Meaning, Meanings};
use crate::parts::{characters, number, word_of};
use plain_tree::{Con, ConForm, Label, Modules, Path};
use std::alloc::{AllocError, Global};
use surface_tree::{Kind, Token};
use table_rows::Text;

/// A name without modules.
pub fn bare(alloc: Global, name: Text) -> Path
    ensures { result ≡ bare name }
{
    Path {
        modules: Modules::new(alloc),
        name,
    }
}

/// The label of a number is the number, that of another word the word.
pub fn label_of(alloc: Global, token: Token) -> Label
    ensures { result ≡ label_of token }
{
    match token.kind {
        Kind::Integer => Label::Number(number(&token.content)),
        _ => Label::Word(characters(alloc, token.content)),
    }
}

/// The name of a field: a lower-case name is a constructor variable, any other word a label.
pub fn field_word(alloc: Global, token: Token) -> Con
    ensures { con_tree result ≡ field_word token }
{
    let at = token.at;
    let form = match token.kind {
        Kind::LowerName => ConForm::Name(bare(alloc, characters(alloc, token.content))),
        _ => ConForm::Label(label_of(alloc, token)),
    };
    Con { at, form }
}

/// `#` and a word, which stands at the `#`.
fn hash_name(alloc: Global, parts: Meanings) -> Con
    ensures { con_tree result ≡ hash_name (meanings_tree parts) }
{
    let mut parts = parts;
    let at = parts.at();
    let form = ConForm::Label(label_of(alloc, parts.token()));
    Con { at, form }
}

/// The name of a field: a word, or `#` and a word, which stands at the `#`.
pub fn field_name(alloc: Global, meaning: Meaning) -> Con
    ensures { con_tree result ≡ field_name (meaning_tree meaning) }
{
    match meaning {
        Meaning::Word(token) => field_word(alloc, token),
        Meaning::Group(parts) => hash_name(alloc, parts),
        _ => hash_name(alloc, Meanings::new(alloc)),
    }
}

/// The label of a tuple's component, at the component.
pub fn component(at: u32, number: u64) -> Con
    ensures { con_tree result ≡ component at number }
{
    Con {
        at,
        form: ConForm::Label(Label::Number(number)),
    }
}

/// The names of the modules that these words are.
pub fn modules(alloc: Global, words: Meanings) -> Result<Modules, AllocError>
    ensures { IfOk result (λ made. made ≡ texts (meanings_tree words)) }
{
    let mut made = Modules::new(alloc);
    for word in words.into_list() {
        made.push(characters(alloc, word_of(word).content))?;
    }
    Ok(made)
}
