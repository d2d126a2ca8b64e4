//! The tokens of a text.
ghost use Rattle.std.specs.Prelude.{◌≡◌, ◌+◌, ◌<◌, ◌≤◌, ◌^◌, length, IfOk, IfErr, IsErrAnd, ◌⊎◌, List};
ghost use Rattle.surface_tree.specs.declared.token.Token.{Token};
ghost use Rattle.ur_lexer.specs.declared.fault.LexFault.{LexFault};
ghost use Rattle.ur_lexer.specs.declared.fault.LexFault.TheVariants.{Memory};
ghost use Rattle.ur_lexer.specs.Lexing.{Lexes, IsTold, at_end, at_fault};
ghost use Rattle.ur_lexer.specs.Ahead as spec;
ghost use Rattle.ur_lexer.specs.Results.{Gives};

use crate::LexFault;
use crate::classes::is_space;
use crate::code::{code_token, tag_token};
use crate::comments::{comment_len, opens};
use crate::markup::text_token;
use crate::pieces::{Found, after};
use crate::state::{Mode, State};
use std::alloc::Global;
use surface_tree::{Token, Tokens};

/// What stands at the front of a text.
pub enum Ahead {
    /// Nothing: the text ends here.
    End,
    /// So many bytes of a space or a comment.
    Blank(usize),
    /// A token.
    Word(Found),
}

/// Whether a comment begins here.
fn at_comment(mode: Mode, bytes: &[u8]) -> bool
    ensures { result ≡ spec.at_comment mode bytes.now }
{
    mode != Mode::Tag && opens(bytes)
}

/// Whether a space begins here that is no part of a text.
fn at_space(mode: Mode, bytes: &[u8]) -> bool
    ensures { result ≡ spec.at_space mode bytes.now }
{
    mode != Mode::Text && !bytes.is_empty() && is_space(bytes[0])
}

/// The token at the front, where neither a space nor a comment stands.
#[tactic(auto, unfolding(crate::specs::Ahead::token_at))]
fn token(alloc: Global, state: &State, text: &str, at: u32) -> Result<Found, LexFault>
    requires some { 0 < length text.now }
    requires room { at + length text.now < 2 ^ 32 }
    ensures { Gives result (spec.token_at state.now text.now at) }
{
    match state.mode() {
        Mode::Code => code_token(alloc, text, at),
        Mode::Tag => tag_token(alloc, text, at),
        Mode::Text => text_token(alloc, state.in_literal(), text, at),
    }
}

/// What stands at the front.
#[tactic(auto, unfolding(crate::specs::Ahead::ahead_at))]
fn look_ahead(alloc: Global, state: &State, text: &str, at: u32) -> Result<Ahead, LexFault>
    requires { at + length text.now < 2 ^ 32 }
    ensures found { Gives result (spec.ahead_at state.now text.now at) }
{
    let bytes = text.as_bytes();
    if at_comment(state.mode(), bytes) {
        return match comment_len(bytes) {
            Some(len) => Ok(Ahead::Blank(len)),
            None => Err(LexFault::OpenComment { at }),
        };
    }
    if at_space(state.mode(), bytes) {
        return Ok(Ahead::Blank(1));
    }
    if bytes.is_empty() {
        return Ok(Ahead::End);
    }
    Ok(Ahead::Word(token(alloc, state, text, at)?))
}

/// The tokens of a text, each with the byte at which it begins.
pub fn lex(alloc: Global, text: &str) -> Result<Tokens, LexFault>
    requires { length text.now < 2 ^ 32 }
    // An `Ok` is the tokens that the text has, each at its place.
    ensures tokens { IfOk result (λ tokens. Lexes text.now tokens.items at_end) }
    ensures end { IfOk result (λ tokens. tokens.end ≡ length text.now) }
    // There are no more tokens than bytes.
    ensures few { IfOk result (λ tokens. length tokens.items ≤ length text.now) }
    // A fault is told only where the reading of the text ends at it.
    ensures fault { IfErr result (λ fault. IsTold text.now fault) }
    // What has tokens is refused only for want of memory.
    ensures no_fault { (tokens : List Token) → Lexes text.now tokens at_end → IfErr result (λ told. told ≡ Memory) }
    // What has a fault is refused with it, or for want of memory.
    ensures no_tokens { (tokens : List Token) (fault : LexFault) → Lexes text.now tokens (at_fault fault)
        → IsErrAnd result (λ told. (told ≡ fault) ⊎ (told ≡ Memory)) }
{
    let mut tokens = Tokens::new(alloc, text.len() as u32);
    let mut state = State::new(alloc);
    let mut rest = text;
    'steps: loop {
        let at = (text.len() - rest.len()) as u32;
        match look_ahead(alloc, &state, rest, at)? {
            Ahead::End => return Ok(tokens),
            Ahead::Blank(len) => rest = after(rest, len),
            Ahead::Word(found) => {
                tokens.push(Token {
                    kind: found.kind,
                    at,
                    content: found.content,
                })?;
                state.turn(found.turn)?;
                rest = after(rest, found.len);
            }
        }
    }
}
