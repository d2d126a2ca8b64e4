//! Numbers, texts, `let` and markup as terms.
ghost use Rattle.std.specs.Prelude.{◌≡◌, map, IfOk};
ghost use Rattle.plain_tree.specs.ExpView.{exp_tree, local_tree, node_tree};
ghost use Rattle.desugar_values.specs.View.{meaning_tree, meanings_tree};
ghost use Rattle.desugar_terms.specs.Atoms.{int_term, let_at, let_term, locals_of, string_term, xml_at, xml_empty, xml_term};

use crate::boxes::next_exp;
use crate::lists::{locals_made, nodes_made};
use crate::locals::local_of;
use crate::made::term_at;
use crate::nodes::nodes_of;
use desugar_types::both;
use desugar_values::{Meaning, Meanings, number};
use plain_tree::{Exp, Form, Local, Node};
use std::alloc::{AllocError, Global};

/// `PrimaryInt = int`, as well as `AttributeInt`.
pub fn int_term(alloc: Global, parts: Meanings) -> Result<Meaning, AllocError>
    ensures { IfOk result (λ m. meaning_tree m ≡ int_term (meanings_tree parts)) }
{
    let mut parts = parts;
    let token = parts.token();
    term_at(alloc, token.at, Form::Int(number(&token.content)))
}

/// `PrimaryString = string`, as well as `AttributeString`.
pub fn string_term(alloc: Global, parts: Meanings) -> Result<Meaning, AllocError>
    ensures { IfOk result (λ m. meaning_tree m ≡ string_term (meanings_tree parts)) }
{
    let mut parts = parts;
    let word = parts.name(alloc);
    term_at(alloc, word.at, Form::Words(word.text))
}

/// `{LetDecl}`
fn locals_of(alloc: Global, several: Meanings) -> Result<Vec<Local>, AllocError>
    ensures { IfOk result (λ locals. map local_tree locals.items ≡ locals_of (meanings_tree several)) }
{
    let mut locals = Vec::new(alloc);
    for local in several.into_list() {
        locals.push(local_of(alloc, local)?)?;
    }
    Ok(locals)
}

/// A `let` at this byte.
fn let_at(alloc: Global, at: u32, items: Vec<Local>, body: Box<Exp>) -> Result<Meaning, AllocError>
    ensures { IfOk result (λ m. meaning_tree m ≡ let_at at (map local_tree items.items) (exp_tree body.value)) }
{
    term_at(alloc, at, Form::Let(locals_made(items), body))
}

/// `PrimaryLet = "let" {LetDecl} "in" Exp "end"`
pub fn let_term(alloc: Global, parts: Meanings) -> Result<Meaning, AllocError>
    ensures { IfOk result (λ m. meaning_tree m ≡ let_term (meanings_tree parts)) }
{
    let mut parts = parts;
    let at = parts.at();
    let items = locals_of(alloc, parts.several(alloc));
    parts.skip();
    let (items, body) = both(items, next_exp(alloc, &mut parts))?;
    let_at(alloc, at, items, body)
}

/// Markup at this byte.
fn xml_at(alloc: Global, at: u32, items: Vec<Node>) -> Result<Meaning, AllocError>
    ensures { IfOk result (λ m. meaning_tree m ≡ xml_at at (map node_tree items.items)) }
{
    term_at(alloc, at, Form::Xml(nodes_made(items)))
}

/// `PrimaryXmlEmpty = "<xml/>"`
pub fn xml_empty(alloc: Global, parts: Meanings) -> Result<Meaning, AllocError>
    ensures { IfOk result (λ m. meaning_tree m ≡ xml_empty (meanings_tree parts)) }
{
    let mut parts = parts;
    let at = parts.at();
    xml_at(alloc, at, Vec::new(alloc))
}

/// `PrimaryXml = "<xml>" {Node} "</xml>"`
pub fn xml_term(alloc: Global, parts: Meanings) -> Result<Meaning, AllocError>
    ensures { IfOk result (λ m. meaning_tree m ≡ xml_term (meanings_tree parts)) }
{
    let mut parts = parts;
    let at = parts.at();
    let items = nodes_of(alloc, parts.several(alloc))?;
    xml_at(alloc, at, items)
}
