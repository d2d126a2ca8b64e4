//! What the rules of parameters stand for.
ghost use Rattle.std.specs.Prelude.{◌≡◌, ◌++◌, map, IfOk};
ghost use Rattle.plain_tree.specs.ExpView.{arg_tree, args_tree};
ghost use Rattle.desugar_values.specs.Parts.{behind, first, named};
ghost use Rattle.desugar_values.specs.View.{meaning_tree, meanings_tree};
ghost use Rattle.desugar_types.specs.Parameters.{arg_bracket, arg_from, arg_lower, arg_of, arg_start, args_of, empty_list, lower_guard, parameters, word_by};

use crate::boxes::one_of;
use crate::leading::{first_start, leading};
use crate::tails::short_tails;
use con_terms::Kind;
use desugar_values::{Meaning, Meanings, bare, group_of, named, start_of};
use plain_tree::{Arg, Args, BasisBuilder, Builder, Con, ConForm, Pat, PatForm, Word};
use std::alloc::{AllocError, Global};
use surface_tree::{Kind as TokenKind, Token};

/// The parameter `[]`, which is a pattern.
fn empty_list(at: u32) -> Arg
    ensures { arg_tree result ≡ empty_list at }
{
    Arg::Pat(Pat {
        at,
        form: PatForm::Bare(Builder::Basis(BasisBuilder::Nil)),
    })
}

/// `ArgLowerGuard = {ConIndex} {ConTerm} {ConConcat} "~" ConSum "]"`, behind a bracket and a name.
fn lower_guard(alloc: Global, at: u32, name: Word, rest: Meanings) -> Result<Arg, AllocError>
    ensures { IfOk result (λ a. arg_tree a ≡ lower_guard at name (meanings_tree rest)) }
{
    let mut rest = rest;
    let start = name.at;
    let form = ConForm::Name(bare(alloc, name.text));
    let left = short_tails(alloc, start, Con { at: start, form }, &mut rest)?;
    rest.skip();
    Ok(Arg::Guard(at, left, rest.con()))
}

/// `ArgLower = lower ArgLowerRest`, behind a bracket; a kind that isn't written is Type.
fn arg_lower(alloc: Global, at: u32, name: Word, rest: Meanings) -> Result<Arg, AllocError>
    ensures { IfOk result (λ a. arg_tree a ≡ arg_lower at name (meanings_tree rest)) }
{
    let mut rest = rest;
    match leading(&rest) {
        TokenKind::RightBracket => Ok(Arg::Con(at, false, false, name, Kind::Types)),
        TokenKind::DoubleColon => {
            rest.skip();
            Ok(Arg::Con(at, false, true, name, rest.kind()))
        }
        TokenKind::TripleColon => {
            rest.skip();
            Ok(Arg::Con(at, true, true, name, rest.kind()))
        }
        _ => lower_guard(alloc, at, name, rest),
    }
}

/// `ArgList = "]"` or `ArgLower`, which begin with a word.
fn word_parameter(alloc: Global, at: u32, token: Token, rest: Meaning) -> Result<Arg, AllocError>
    ensures { IfOk result (λ a. arg_tree a ≡ word_by token.kind at (named token) (meaning_tree rest)) }
{
    match token.kind {
        TokenKind::LowerName => arg_lower(alloc, at, named(alloc, token), group_of(alloc, rest)),
        _ => {
            drop(rest);
            Ok(empty_list(at))
        }
    }
}

/// `ArgBracket = "[" ArgBracketRest`
fn arg_bracket(alloc: Global, at: u32, rest: Meanings) -> Result<Arg, AllocError>
    ensures { IfOk result (λ a. arg_tree a ≡ arg_bracket at (meanings_tree rest)) }
{
    let mut rest = rest;
    match rest.take() {
        Meaning::Con(_, left) => {
            rest.skip();
            Ok(Arg::Guard(at, Box::into_inner(left), rest.con()))
        }
        Meaning::Word(token) => word_parameter(alloc, at, token, rest.take()),
        other => {
            drop(other);
            Ok(empty_list(at))
        }
    }
}

/// `ArgPattern = PatAtom` or `ArgBracket`, whose parts these are.
fn arg_from(alloc: Global, parts: Meanings) -> Result<Arg, AllocError>
    ensures { IfOk result (λ a. arg_tree a ≡ arg_from (meanings_tree parts)) }
{
    let mut parts = parts;
    match parts.take() {
        Meaning::Pat(_, pat) => Ok(Arg::Pat(Box::into_inner(pat))),
        first => {
            let at = start_of(&first);
            drop(first);
            arg_bracket(alloc, at, parts.group(alloc))
        }
    }
}

/// The parameter that an `Arg` is.
pub fn arg_of(alloc: Global, meaning: Meaning) -> Result<Arg, AllocError>
    ensures { IfOk result (λ a. arg_tree a ≡ arg_of (meaning_tree meaning)) }
{
    arg_from(alloc, group_of(alloc, meaning))
}

/// The byte at which a parameter begins.
pub fn arg_start(meaning: &Meaning) -> u32
    ensures { result ≡ arg_start (meaning_tree meaning.now) }
{
    match meaning {
        Meaning::Group(parts) => first_start(parts),
        _ => 0,
    }
}

/// The byte at which the parameter begins that comes first of these parts.
pub fn args_start(parts: &Meanings) -> u32
    ensures { result ≡ arg_start (first (meanings_tree parts.now)) }
{
    match parts.items.front() {
        Some(arg) => arg_start(arg),
        None => 0,
    }
}

/// These parameters with those of a repetition behind them.
pub fn add_args(alloc: Global, items: Vec<Arg>, more: Meanings) -> Result<Vec<Arg>, AllocError>
    ensures { IfOk result (λ all. map arg_tree all.items ≡ map arg_tree items.items ++ args_of (meanings_tree more)) }
{
    let mut items = items;
    for part in more.into_list() {
        items.push(arg_of(alloc, part)?)?;
    }
    Ok(items)
}

/// `Arg {Arg}`, which are taken off.
pub fn parameters(alloc: Global, parts: &mut Meanings) -> Result<Args, AllocError>
    ensures args { IfOk result (λ a. args_tree a ≡ parameters (meanings_tree parts.old)) }
    ensures behind { meanings_tree parts.new ≡ behind (behind (meanings_tree parts.old)) }
{
    let first = parts.take();
    let more = parts.several(alloc);
    let items = one_of(alloc, arg_of(alloc, first)?)?;
    let items = add_args(alloc, items, more)?;
    Ok(Args { items })
}
