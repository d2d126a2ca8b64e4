//! What stands for a constructor that begins with a bracket: a row, or a guard. The words behind the bracket are read
//! before it is known which of both it is.
ghost use Rattle.std.specs.Prelude.{◌≡◌, [], IfOk};
ghost use Rattle.plain_tree.specs.ConView.{con_tree, maybe_con};
ghost use Rattle.plain_tree.specs.Trees.{con, con_name};
ghost use Rattle.desugar_values.specs.Parts.{behind};
ghost use Rattle.desugar_values.specs.View.{meaning_tree, meanings_tree};
ghost use Rattle.desugar_types.specs.Paths.{path_of, within};
ghost use Rattle.desugar_types.specs.Rows.{at_of};
ghost use Rattle.desugar_types.specs.Tails.{more_tails};
ghost use Rattle.desugar_types.specs.Brackets.{bracket_hash, bracket_name, bracket_rest, bracket_upper, bracket_value, bracket_word, bracketed, fields_row, hash_rest, label_at, name_rest, named_guard, named_row, number_guard, path_guard, plain_guard, row_at, upper_rest};

use crate::boxes::{both, boxed_con};
use crate::paths::{path_of, within};
use crate::rows::row_with;
use crate::tails::{more_tails, tails};
use desugar_values::{Meaning, Meanings, con_of, field_word, group_of, label_of, maybe_con_of};
use plain_tree::{Con, ConFields, ConForm};
use std::alloc::{AllocError, Global};
use surface_tree::{Kind, Token};

/// A row with this first name, its value and `{ConRowMore}`, and what follows the row.
fn named_row(
    alloc: Global,
    at: u32,
    name: Con,
    value: Option<Con>,
    more: Meanings,
    parts: Meanings,
) -> Result<Con, AllocError>
    ensures { IfOk result (λ c. con_tree c
        ≡ named_row at (con_tree name) (maybe_con value) (meanings_tree more) (meanings_tree parts)) }
{
    let fields = row_with(alloc, name, value, more)?;
    let row = Con {
        at,
        form: ConForm::Row(fields),
    };
    tails(alloc, at, row, parts)
}

/// `BracketFields = [ConFieldValue] {ConRowMore} "]"` behind a first name, and what follows the row.
fn fields_row(
    alloc: Global,
    at: u32,
    name: Con,
    fields: Meanings,
    parts: Meanings,
) -> Result<Con, AllocError>
    ensures { IfOk result (λ c. con_tree c
        ≡ fields_row at (con_tree name) (meanings_tree fields) (meanings_tree parts)) }
{
    let mut fields = fields;
    let value = fields.maybe_con();
    let more = fields.several(alloc);
    named_row(alloc, at, name, value, more, parts)
}

/// A guard's left side, which begins with this constructor and `{ConIndex}`: `{ConTerm} {ConConcat}`, taken off.
fn guard_left(
    alloc: Global,
    left: Con,
    indexes: Meanings,
    sides: &mut Meanings,
) -> Result<Box<Con>, AllocError>
    ensures left { IfOk result (λ b. con_tree b.value
        ≡ more_tails (at_of (con_tree left)) (con_tree left) (meanings_tree indexes) (meanings_tree sides.old)) }
    ensures behind { meanings_tree sides.new ≡ behind (behind (meanings_tree sides.old)) }
{
    let start = left.at;
    let left = more_tails(alloc, start, left, indexes, sides)?;
    boxed_con(alloc, left)
}

/// A guard whose left side begins with this constructor and `{ConIndex}`: `{ConTerm} {ConConcat} "~" ConSum "]"`.
fn named_guard(
    alloc: Global,
    at: u32,
    left: Con,
    indexes: Meanings,
    sides: Meanings,
    body: Con,
) -> Result<Con, AllocError>
    ensures { IfOk result (λ c. con_tree c
        ≡ named_guard at (con_tree left) (meanings_tree indexes) (meanings_tree sides) (con_tree body)) }
{
    let mut sides = sides;
    let left = guard_left(alloc, left, indexes, &mut sides);
    let right = boxed_con(alloc, con_of(sides.second()));
    let ((left, right), body) = both(both(left, right), boxed_con(alloc, body))?;
    Ok(Con {
        at,
        form: ConForm::Guarded(left, right, body),
    })
}

/// `GuardSides = ConSum "~" ConSum "]"`, and a guard's body.
fn plain_guard(alloc: Global, at: u32, sides: Meanings, body: Con) -> Result<Con, AllocError>
    ensures { IfOk result (λ c. con_tree c ≡ plain_guard at (meanings_tree sides) (con_tree body)) }
{
    let mut sides = sides;
    let left = boxed_con(alloc, sides.con());
    let right = boxed_con(alloc, con_of(sides.second()));
    let ((left, right), body) = both(both(left, right), boxed_con(alloc, body))?;
    Ok(Con {
        at,
        form: ConForm::Guarded(left, right, body),
    })
}

/// `BracketNameRest` behind a first name, by how its first tree begins: that of a guard with a repetition.
fn name_rest(
    alloc: Global,
    at: u32,
    name: Con,
    head: Meaning,
    sides: Meanings,
    parts: Meanings,
) -> Result<Con, AllocError>
    ensures { IfOk result (λ c. con_tree c
        ≡ name_rest at (con_tree name) (meaning_tree head) (meanings_tree sides) (meanings_tree parts)) }
{
    let mut sides = sides;
    let mut parts = parts;
    match head {
        Meaning::Several(indexes) => named_guard(
            alloc,
            at,
            name,
            indexes,
            sides,
            con_of(parts.second()),
        ),
        other => {
            let value = maybe_con_of(other);
            named_row(alloc, at, name, value, sides.several(alloc), parts)
        }
    }
}

/// `BracketNameRest = BracketNameRow | BracketNameGuard` behind a first name.
fn bracket_name(alloc: Global, at: u32, name: Con, parts: Meanings) -> Result<Con, AllocError>
    ensures { IfOk result (λ c. con_tree c ≡ bracket_name at (con_tree name) (meanings_tree parts)) }
{
    let mut parts = parts;
    let mut sides = parts.group(alloc);
    let head = sides.take();
    name_rest(alloc, at, name, head, sides, parts)
}

/// A module's name, and the `Path` behind its dot.
fn outer_path(alloc: Global, outer: Token, parts: Meanings) -> Result<Con, AllocError>
    ensures { IfOk result (λ c. con_tree c ≡ con outer.at (con_name (within outer (path_of (meanings_tree parts))))) }
{
    let at = outer.at;
    let path = path_of(alloc, parts)?;
    let path = within(alloc, outer, path)?;
    Ok(Con {
        at,
        form: ConForm::Name(path),
    })
}

/// A guard that begins with a module's name: behind the dot `Path {ConIndex} {ConTerm} {ConConcat} "~" ConSum "]"`.
fn path_guard(
    alloc: Global,
    at: u32,
    outer: Token,
    sides: Meanings,
    body: Con,
) -> Result<Con, AllocError>
    ensures { IfOk result (λ c. con_tree c ≡ path_guard at outer (meanings_tree sides) (con_tree body)) }
{
    let mut sides = sides;
    match outer_path(alloc, outer, sides.group(alloc)) {
        Ok(left) => {
            let indexes = sides.several(alloc);
            named_guard(alloc, at, left, indexes, sides, body)
        }
        Err(full) => {
            drop(body);
            Err(full)
        }
    }
}

/// `BracketUpperRest` behind an upper-case name, by how its first tree begins: that of a guard with a dot.
fn upper_rest(
    alloc: Global,
    at: u32,
    token: Token,
    head: Meaning,
    sides: Meanings,
    parts: Meanings,
) -> Result<Con, AllocError>
    ensures { IfOk result (λ c. con_tree c
        ≡ upper_rest at token (meaning_tree head) (meanings_tree sides) (meanings_tree parts)) }
{
    let mut sides = sides;
    let mut parts = parts;
    match head {
        Meaning::Word(dot) => {
            drop(dot);
            path_guard(alloc, at, token, sides, con_of(parts.second()))
        }
        other => {
            let name = field_word(alloc, token);
            let value = maybe_con_of(other);
            named_row(alloc, at, name, value, sides.several(alloc), parts)
        }
    }
}

/// `BracketUpperRest = BracketUpperRow | BracketUpperGuard` behind an upper-case name.
fn bracket_upper(alloc: Global, at: u32, token: Token, parts: Meanings) -> Result<Con, AllocError>
    ensures { IfOk result (λ c. con_tree c ≡ bracket_upper at token (meanings_tree parts)) }
{
    let mut parts = parts;
    let mut sides = parts.group(alloc);
    let head = sides.take();
    upper_rest(alloc, at, token, head, sides, parts)
}

/// A label at its `#`.
pub fn label_at(alloc: Global, at: u32, token: Token) -> Con
    ensures { con_tree result ≡ label_at at token }
{
    Con {
        at,
        form: ConForm::Label(label_of(alloc, token)),
    }
}

/// `IntSides = int {ConIndex} {ConTerm} {ConConcat} "~" ConSum "]"` behind `#`, and a guard's body.
fn number_guard(
    alloc: Global,
    at: u32,
    hash: u32,
    sides: Meanings,
    body: Con,
) -> Result<Con, AllocError>
    ensures { IfOk result (λ c. con_tree c ≡ number_guard at hash (meanings_tree sides) (con_tree body)) }
{
    let mut sides = sides;
    let left = label_at(alloc, hash, sides.token());
    let indexes = sides.several(alloc);
    named_guard(alloc, at, left, indexes, sides, body)
}

/// `BracketHashRest` behind `#`, by its first part: an upper-case name, or the sides of a guard.
fn hash_rest(
    alloc: Global,
    at: u32,
    hash: u32,
    head: Meaning,
    parts: Meanings,
) -> Result<Con, AllocError>
    ensures { IfOk result (λ c. con_tree c ≡ hash_rest at hash (meaning_tree head) (meanings_tree parts)) }
{
    let mut parts = parts;
    match head {
        Meaning::Word(token) => {
            let name = label_at(alloc, hash, token);
            bracket_name(alloc, at, name, parts.group(alloc))
        }
        other => {
            let sides = group_of(alloc, other);
            number_guard(alloc, at, hash, sides, con_of(parts.second()))
        }
    }
}

/// `BracketHashRest = BracketHashUpper | BracketHashInt` behind `#`.
fn bracket_hash(alloc: Global, at: u32, hash: u32, parts: Meanings) -> Result<Con, AllocError>
    ensures { IfOk result (λ c. con_tree c ≡ bracket_hash at hash (meanings_tree parts)) }
{
    let mut parts = parts;
    let head = parts.take();
    hash_rest(alloc, at, hash, head, parts)
}

/// `BracketEmpty`, `BracketInt`, `BracketHash`, `BracketLower` or `BracketUpper`, behind its word.
fn bracket_word(alloc: Global, at: u32, token: Token, parts: Meanings) -> Result<Con, AllocError>
    ensures { IfOk result (λ c. con_tree c ≡ bracket_word at token token.kind (meanings_tree parts)) }
{
    let mut parts = parts;
    match token.kind {
        Kind::RightBracket => tails(alloc, at, no_row(alloc, at), parts),
        Kind::Integer => {
            let fields = parts.group(alloc);
            fields_row(alloc, at, field_word(alloc, token), fields, parts)
        }
        Kind::Hash => bracket_hash(alloc, at, token.at, parts.group(alloc)),
        Kind::LowerName => {
            let name = field_word(alloc, token);
            bracket_name(alloc, at, name, parts.group(alloc))
        }
        _ => bracket_upper(alloc, at, token, parts.group(alloc)),
    }
}

/// `[]`
fn no_row(alloc: Global, at: u32) -> Con
    ensures { con_tree result ≡ row_at at [] }
{
    let fields = ConFields {
        items: Vec::new(alloc),
    };
    Con {
        at,
        form: ConForm::Row(fields),
    }
}

/// `BracketRest` by its first part, and the parts behind it.
fn bracket_rest(alloc: Global, at: u32, head: Meaning, parts: Meanings) -> Result<Con, AllocError>
    ensures { IfOk result (λ c. con_tree c ≡ bracket_rest at (meaning_tree head) (meanings_tree parts)) }
{
    let mut parts = parts;
    match head {
        Meaning::Word(token) => bracket_word(alloc, at, token, parts),
        other => {
            let sides = group_of(alloc, other);
            plain_guard(alloc, at, sides, con_of(parts.second()))
        }
    }
}

/// `BracketRest` behind its bracket.
fn bracketed(alloc: Global, at: u32, parts: Meanings) -> Result<Con, AllocError>
    ensures { IfOk result (λ c. con_tree c ≡ bracketed at (meanings_tree parts)) }
{
    let mut parts = parts;
    let head = parts.take();
    bracket_rest(alloc, at, head, parts)
}

/// `ConBracket = BracketOpen BracketRest`
pub fn con_bracket(alloc: Global, parts: Meanings) -> Result<Meaning, AllocError>
    ensures { IfOk result (λ m. meaning_tree m ≡ bracket_value (meanings_tree parts)) }
{
    let mut parts = parts;
    let at = parts.at();
    let con = bracketed(alloc, at, parts.group(alloc))?;
    Ok(Meaning::Con(at, boxed_con(alloc, con)?))
}
