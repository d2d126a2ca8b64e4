//! The shape of a tree as a line: its tokens, with brackets about each tree of two parts or more.
//!
//! Some forms only part a rule in two, so that one token decides, as the rests behind a bracket or a name. Their parts
//! stand as parts of the tree around them.
use std::alloc::{AllocError, Global};
use surface_grammar::{
    ArgRule, ConRule, DeclRule, ExpRule, Mark, MarkupRule, Part, PatRule, Rule, SqlRule, Tree,
};
use surface_tree::Tokens;

/// A piece of the line.
#[derive(Clone, Copy)]
enum Piece {
    /// A tree begins; whether its brackets are shown.
    Open(bool),
    /// The token of this number.
    Leaf(usize),
    /// A tree of two parts or more ends.
    Close,
}

/// A tree that has begun: its piece, and how many of its parts have a token.
#[derive(Drop)]
struct Begun {
    piece: usize,
    parts: usize,
}

/// What is still to be shown.
#[derive(Clone, Copy)]
enum Left {
    /// A tree for this part.
    Part(Part),
    /// The end of the innermost tree.
    End,
}

/// Whether the rule is the rest of the rule around it.
fn is_rest(rule: Rule) -> bool {
    match rule {
        Rule::Con(rule) => matches!(
            rule,
            ConRule::HashUpper
                | ConRule::HashInt
                | ConRule::ConUnit
                | ConRule::ConGroup
                | ConRule::ConClose
                | ConRule::ConMarked
                | ConRule::ConTuple
                | ConRule::BracketEmpty
                | ConRule::BracketInt
                | ConRule::BracketLower
                | ConRule::BracketUpper
                | ConRule::BracketHash
                | ConRule::BracketGuard
                | ConRule::BracketFields
                | ConRule::BracketNameRow
                | ConRule::BracketNameGuard
                | ConRule::BracketUpperRow
                | ConRule::BracketUpperGuard
                | ConRule::BracketHashUpper
                | ConRule::BracketHashInt
                | ConRule::GuardSides
                | ConRule::NameSides
                | ConRule::PathSides
                | ConRule::IntSides
        ),
        Rule::Pat(rule) => matches!(
            rule,
            PatRule::PatUnit
                | PatRule::PatGroup
                | PatRule::PatClose
                | PatRule::PatTyped
                | PatRule::PatTuple
                | PatRule::PatRecordEmpty
                | PatRule::PatRecordDots
                | PatRule::PatRecordFields
        ),
        Rule::Arg(rule) => !matches!(rule, ArgRule::ArgPattern | ArgRule::ArgBracket),
        Rule::Exp(rule) => matches!(
            rule,
            ExpRule::ExpBindRest
                | ExpRule::ArgumentList
                | ExpRule::ArgumentCon
                | ExpRule::ParenUnit
                | ExpRule::ParenGroup
                | ExpRule::ParenSql
                | ExpRule::ParenClose
                | ExpRule::ParenTyped
                | ExpRule::ParenTuple
        ),
        Rule::Markup(rule) => matches!(
            rule,
            MarkupRule::NodeSplice
                | MarkupRule::NodeExp
                | MarkupRule::ElementEmpty
                | MarkupRule::ElementFull
        ),
        Rule::Sql(rule) => matches!(
            rule,
            SqlRule::ItemUpperDot
                | SqlRule::ItemUpperNamed
                | SqlRule::ItemNamed
                | SqlRule::ItemColumn
                | SqlRule::ItemStar
                | SqlRule::ItemBraces
                | SqlRule::SqlSplice
                | SqlRule::SqlExp
        ),
        Rule::Decl(rule) => matches!(rule, DeclRule::ValPlain | DeclRule::ValRec),
        Rule::Kind(_) => false,
    }
}

/// The pieces of a line, as far as they are found.
#[derive(Drop)]
struct Outline {
    pieces: Vec<Piece>,
    begun: Vec<Begun>,
    left: Vec<Left>,
    leaves: usize,
}

impl Outline {
    /// One more part of the innermost tree has a token.
    fn count(&mut self) {
        if let Some(tree) = self.begun.last_mut() {
            tree.parts = tree.parts.saturating_add(1);
        }
    }

    /// A tree of the rule begins.
    fn begin(&mut self, rule: Rule) -> Result<(), AllocError> {
        if !is_rest(rule) {
            let piece = self.pieces.len();
            self.begun.push(Begun { piece, parts: 0 })?;
            self.pieces.push(Piece::Open(false))?;
            self.left.push(Left::End)?;
        }
        for part in rule.body().iter().rev() {
            self.left.push(Left::Part(*part))?;
        }
        Ok(())
    }

    /// The innermost tree ends.
    fn end(&mut self) -> Result<(), AllocError> {
        let Some(tree) = self.begun.pop() else {
            return Ok(());
        };
        if tree.parts > 1 {
            if let Some(piece) = self.pieces.get_mut(tree.piece) {
                *piece = Piece::Open(true);
            }
            self.pieces.push(Piece::Close)?;
        }
        if tree.parts > 0 {
            self.count();
        }
        Ok(())
    }

    /// Goes on by the next mark, for this part.
    fn go_on(&mut self, part: Part, mark: Mark) -> Result<(), AllocError> {
        match (mark, part) {
            (Mark::Leaf, _) => {
                self.pieces.push(Piece::Leaf(self.leaves))?;
                self.leaves = self.leaves.saturating_add(1);
                self.count();
                Ok(())
            }
            (Mark::Rule(rule), _) => self.begin(rule),
            (Mark::Item, Part::Many(form)) => {
                self.left.push(Left::Part(part))?;
                self.left.push(Left::Part(Part::One(form)))?;
                Ok(())
            }
            (Mark::Item, Part::Maybe(form)) => {
                self.left.push(Left::Part(Part::One(form)))?;
                Ok(())
            }
            (Mark::Item | Mark::End, _) => Ok(()),
        }
    }
}

/// The pieces of the tree's line.
fn pieces_of(alloc: Global, part: Part, tree: &Tree) -> Result<Vec<Piece>, AllocError> {
    let mut outline = Outline {
        pieces: Vec::new(alloc),
        begun: Vec::new(alloc),
        left: Vec::new(alloc),
        leaves: 0,
    };
    outline.left.push(Left::Part(part))?;
    for mark in tree.marks() {
        for _ in 0..tree.marks().len() {
            match outline.left.pop() {
                Some(Left::End) => outline.end()?,
                Some(Left::Part(part)) => {
                    outline.go_on(part, *mark)?;
                    break;
                }
                None => break,
            }
        }
    }
    for _ in 0..tree.marks().len() {
        if let Some(Left::End) = outline.left.pop() {
            outline.end()?;
        }
    }
    Ok(outline.pieces)
}

/// The bytes without the spaces at their end.
fn trimmed(bytes: &[u8]) -> &[u8] {
    let mut left = bytes;
    for _ in 0..bytes.len() {
        match left.split_last() {
            Some((b' ' | b'\n', front)) => left = front,
            _ => return left,
        }
    }
    left
}

/// The byte at which the token at the place begins, or the source's length behind the last.
fn byte_at(source: &[u8], tokens: &Tokens, place: usize) -> usize {
    if place < tokens.len() {
        tokens.at(place).at as usize
    } else {
        source.len()
    }
}

/// The bytes of the token at the place: those up to the next one, without spaces.
fn token_bytes<'a>(source: &'a [u8], tokens: &Tokens, place: usize) -> &'a [u8] {
    let start = byte_at(source, tokens, place);
    let end = byte_at(source, tokens, place.saturating_add(1));
    match source.get(start..end) {
        Some(bytes) => trimmed(bytes),
        None => &[],
    }
}

/// The line of a tree for the part, whose first token is the one at the place.
pub fn outline_of(
    alloc: Global,
    source: &[u8],
    tokens: &Tokens,
    part: Part,
    first: usize,
    tree: &Tree,
) -> Result<Vec<u8>, AllocError> {
    let mut line = Vec::new(alloc);
    let mut is_parted = false;
    for piece in &pieces_of(alloc, part, tree)? {
        match *piece {
            Piece::Open(false) => {}
            Piece::Open(true) => {
                if is_parted {
                    line.push(b' ')?;
                }
                line.extend_from_slice("⟨".as_bytes())?;
                is_parted = false;
            }
            Piece::Leaf(number) => {
                if is_parted {
                    line.push(b' ')?;
                }
                line.extend_from_slice(token_bytes(source, tokens, first.saturating_add(number)))?;
                is_parted = true;
            }
            Piece::Close => {
                line.extend_from_slice("⟩".as_bytes())?;
                is_parted = true;
            }
        }
    }
    Ok(line)
}
