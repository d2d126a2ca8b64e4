//! Tokens that are kept and given back, and trees of a few tokens with the places of what isn't built yet.
use std::alloc::{AllocError, Global};
use surface_grammar::Tree;
use surface_tree::{Content, Kind, Token, Tokens};
use table_rows::Text;
use unbuilt_forms::first_unbuilt;

/// Tokens, each one byte behind the one before it, and the place that is wanted.
const TREES: [(&[(Kind, &str)], Option<u32>); 6] = [
    (&[], None),
    (
        &[(Kind::LowerName, "queries"), (Kind::UpperName, "Query")],
        None,
    ),
    (
        &[(Kind::LowerName, "x"), (Kind::LowerName, "oneRow")],
        Some(1),
    ),
    (
        &[(Kind::LowerName, "setCookie"), (Kind::LowerName, "dml")],
        Some(0),
    ),
    (
        &[(Kind::StringLiteral, "query"), (Kind::SqlWhere, "")],
        Some(1),
    ),
    (
        &[(Kind::LeftParenthesis, ""), (Kind::KeywordTable, "")],
        Some(1),
    ),
];

/// The tree of these tokens.
fn tree(alloc: Global, tokens: &[(Kind, &str)]) -> Result<Tree, AllocError> {
    let mut tree = Tree::new(alloc);
    let mut at = 0u32;
    for (kind, text) in tokens {
        let content = Content::Characters(Text::of(alloc, text)?);
        tree.leaf(Token {
            kind: *kind,
            at,
            content,
        })?;
        at = at.saturating_add(1);
    }
    Ok(tree)
}

/// The place in the tree of these tokens.
fn place(alloc: Global, tokens: &[(Kind, &str)]) -> Result<Option<u32>, AllocError> {
    Ok(first_unbuilt(&tree(alloc, tokens)?))
}

/// The place in each tree.
pub fn the_first_unbuilt_token_is_found(alloc: Global) -> Result<bool, AllocError> {
    for (tokens, wanted) in &TREES {
        if place(alloc, tokens)? != *wanted {
            return Ok(false);
        }
    }
    Ok(true)
}

/// Two tokens.
pub fn keeps_tokens_in_order(alloc: Global) -> Result<bool, AllocError> {
    let mut tokens = Tokens::new(alloc, 9);
    tokens.push(Token {
        kind: Kind::LowerName,
        at: 0,
        content: Content::Characters(Text::of(alloc, "f")?),
    })?;
    tokens.push(Token {
        kind: Kind::Integer,
        at: 2,
        content: Content::Number(7),
    })?;
    if tokens.len() != 2 || tokens.end() != 9 {
        return Ok(false);
    }
    let second = tokens.at(1);
    Ok(
        second.kind == Kind::Integer
            && second.at == 2
            && matches!(second.content, Content::Number(7)),
    )
}
