//! Functions with a name.
ghost use Rattle.std.specs.Prelude.{◌≡◌, IfOk};
ghost use Rattle.plain_tree.specs.ExpView.{exp_tree, named_tree};
ghost use Rattle.desugar_values.specs.Parts.{behind, exp_of, first, part};
ghost use Rattle.desugar_values.specs.View.{meaning_tree, meanings_tree};
ghost use Rattle.desugar_terms.specs.Functions.{behind_function, body, function, typed};

use crate::boxes::{boxed_exp, next_exp};
use desugar_types::parameters::parameters;
use desugar_types::{args_start, both};
use desugar_values::{Meaning, Meanings};
use plain_tree::{Exp, Form, Named};
use std::alloc::{AllocError, Global};

/// A term with the type of a mark `":" Con`, at its colon.
fn typed(alloc: Global, parts: Meanings, exp: Box<Exp>) -> Result<Box<Exp>, AllocError>
    ensures { IfOk result (λ e. exp_tree e.value ≡ typed (meanings_tree parts) (exp_tree exp.value)) }
{
    let mut parts = parts;
    let at = parts.at();
    boxed_exp(alloc, at, Form::Typed(exp, parts.con()))
}

/// A body with the type that is written for it.
fn body(alloc: Global, mark: Meaning, exp: Box<Exp>) -> Result<Box<Exp>, AllocError>
    ensures { IfOk result (λ e. exp_tree e.value ≡ body (meaning_tree mark) (exp_tree exp.value)) }
{
    match mark {
        Meaning::Group(parts) => typed(alloc, parts, exp),
        other => {
            drop(other);
            Ok(exp)
        }
    }
}

/// `[TypeMark] "=" Exp`, which are taken off.
fn next_body(alloc: Global, parts: &mut Meanings) -> Result<Box<Exp>, AllocError>
    ensures body { IfOk result (λ e. exp_tree e.value
        ≡ body (first (meanings_tree parts.old)) (exp_of (part 2 (meanings_tree parts.old)))) }
    ensures behind { meanings_tree parts.new ≡ behind (behind (behind (meanings_tree parts.old))) }
{
    let mark = parts.take();
    parts.skip();
    match next_exp(alloc, parts) {
        Ok(exp) => body(alloc, mark, exp),
        Err(full) => {
            drop(mark);
            Err(full)
        }
    }
}

/// `lower Arg {Arg} [TypeMark] "=" Exp`: a name without a written type, whose term is a function.
pub fn function(alloc: Global, parts: &mut Meanings) -> Result<Named, AllocError>
    ensures named { IfOk result (λ n. named_tree n ≡ function (meanings_tree parts.old)) }
    ensures behind { meanings_tree parts.new ≡ behind_function (meanings_tree parts.old) }
{
    let name = parts.name(alloc);
    let at = args_start(parts);
    let args = parameters(alloc, parts);
    let (args, body) = both(args, next_body(alloc, parts))?;
    let form = Form::Fn(args, body);
    Ok(Named {
        name,
        con: None,
        exp: Exp { at, form },
    })
}
