//! Actions one after another, and functions.
ghost use Rattle.std.specs.Prelude.{◌≡◌, IfOk};
ghost use Rattle.plain_tree.specs.ConView.{pat_tree};
ghost use Rattle.plain_tree.specs.ExpView.{exp_tree};
ghost use Rattle.desugar_values.specs.View.{meaning_tree, meanings_tree};
ghost use Rattle.desugar_terms.specs.Actions.{bound, bound_rest, exp_bind, exp_plain, term_lambda, then_rest, unit_pattern};

use crate::boxes::{boxed_exp_of, boxed_pat, boxed_pat_of, next_exp};
use crate::made::{call_two, one_parameter, term_at};
use desugar_types::both;
use desugar_types::parameters::parameters;
use desugar_values::{Meaning, Meanings, start_of};
use plain_tree::{Basis, Exp, Form, Pat, PatFields, PatForm};
use std::alloc::{AllocError, Global};

/// `bind x (fn p => y)`, where the tree begins at the first place, and the pattern at the third.
fn bound(
    alloc: Global,
    start: u32,
    at: u32,
    x: Box<Exp>,
    place: u32,
    pat: Box<Pat>,
    y: Box<Exp>,
) -> Result<Meaning, AllocError>
    ensures { IfOk result (λ m. meaning_tree m
        ≡ bound start at (exp_tree x.value) place (pat_tree pat.value) (exp_tree y.value)) }
{
    let next = one_parameter(alloc, place, pat, y)?;
    let form = call_two(alloc, at, Basis::Bind, x, next)?;
    term_at(alloc, start, form)
}

/// `"<-" Body ";" Exp`, behind a pattern.
fn bound_rest(
    alloc: Global,
    start: u32,
    pat: Box<Pat>,
    rest: Meanings,
) -> Result<Meaning, AllocError>
    ensures { IfOk result (λ m. meaning_tree m ≡ bound_rest start (pat_tree pat.value) (meanings_tree rest)) }
{
    let mut rest = rest;
    let at = rest.at();
    let x = next_exp(alloc, &mut rest);
    rest.skip();
    let (x, y) = both(x, next_exp(alloc, &mut rest))?;
    bound(alloc, start, at, x, start, pat, y)
}

/// `ExpBind = Pat ExpBindRest`, `ExpBindRest = "<-" Body ";" Exp`: `p <- x; y` is `bind x (fn p => y)`.
pub fn exp_bind(alloc: Global, parts: Meanings) -> Result<Meaning, AllocError>
    ensures { IfOk result (λ m. meaning_tree m ≡ exp_bind (meanings_tree parts)) }
{
    let mut parts = parts;
    let pattern = parts.take();
    let start = start_of(&pattern);
    let pat = boxed_pat_of(alloc, pattern)?;
    bound_rest(alloc, start, pat, parts.group(alloc))
}

/// The pattern `()`.
fn unit_pattern(alloc: Global, at: u32) -> Pat
    ensures { pat_tree result ≡ unit_pattern at }
{
    let fields = PatFields {
        items: Vec::new(alloc),
    };
    Pat {
        at,
        form: PatForm::Rec(fields, false),
    }
}

/// `";" Exp`, behind a term.
fn then_rest(alloc: Global, first: Meaning, rest: Meanings) -> Result<Meaning, AllocError>
    ensures { IfOk result (λ m. meaning_tree m ≡ then_rest (meaning_tree first) (meanings_tree rest)) }
{
    let mut rest = rest;
    let start = start_of(&first);
    let x = boxed_exp_of(alloc, first);
    let at = rest.at();
    let (x, y) = both(x, next_exp(alloc, &mut rest))?;
    let pat = boxed_pat(alloc, unit_pattern(alloc, at))?;
    bound(alloc, start, at, x, at, pat, y)
}

/// `ExpPlain = Term [ExpThen]`, `ExpThen = ";" Exp`: `x; y` is `() <- x; y`.
pub fn exp_plain(alloc: Global, parts: Meanings) -> Result<Meaning, AllocError>
    ensures { IfOk result (λ m. meaning_tree m ≡ exp_plain (meanings_tree parts)) }
{
    let mut parts = parts;
    let first = parts.take();
    match parts.take() {
        Meaning::Group(rest) => then_rest(alloc, first, rest),
        other => {
            drop(other);
            Ok(first)
        }
    }
}

/// `TermLambda = "fn" Arg {Arg} "=>" Exp`
pub fn term_lambda(alloc: Global, parts: Meanings) -> Result<Meaning, AllocError>
    ensures { IfOk result (λ m. meaning_tree m ≡ term_lambda (meanings_tree parts)) }
{
    let mut parts = parts;
    let at = parts.at();
    let args = parameters(alloc, &mut parts);
    parts.skip();
    let (args, body) = both(args, next_exp(alloc, &mut parts))?;
    term_at(alloc, at, Form::Fn(args, body))
}
