//! Terms and patterns on the heap. They stand there from their trees on, and are taken out in the very expression that
//! moves them on, since what a `?` lets go beside it is proved anew wherever the `?` stands.
ghost use Rattle.std.specs.Prelude.{◌≡◌, IfOk};
ghost use Rattle.plain_tree.specs.ConView.{pat_tree};
ghost use Rattle.plain_tree.specs.ExpView.{exp_tree, form_tree};
ghost use Rattle.plain_tree.specs.Trees.{exp};
ghost use Rattle.desugar_values.specs.Parts.{behind, exp_of, first, pat_of};
ghost use Rattle.desugar_values.specs.View.{meaning_tree, meanings_tree};

use desugar_values::{Meaning, Meanings};
use plain_tree::{Basis, Exp, Form, Pat, PatForm};
use std::alloc::{AllocError, Global};

/// A term on the heap.
pub fn boxed_exp(alloc: Global, at: u32, form: Form) -> Result<Box<Exp>, AllocError>
    ensures { IfOk result (λ e. exp_tree e.value ≡ exp at (form_tree form)) }
{
    Ok(Box::new(alloc, Exp { at, form })?)
}

/// A pattern on the heap.
pub fn boxed_pat(alloc: Global, pat: Pat) -> Result<Box<Pat>, AllocError>
    ensures { IfOk result (λ p. pat_tree p.value ≡ pat_tree pat) }
{
    Ok(Box::new(alloc, pat)?)
}

/// The term that the tree stands for, on the heap.
pub fn boxed_exp_of(alloc: Global, meaning: Meaning) -> Result<Box<Exp>, AllocError>
    ensures { IfOk result (λ e. exp_tree e.value ≡ exp_of (meaning_tree meaning)) }
{
    match meaning {
        Meaning::Exp(_, exp) => Ok(exp),
        other => {
            drop(other);
            boxed_exp(alloc, 0, Form::Basis(Basis::Bind))
        }
    }
}

/// The pattern that the tree stands for, on the heap.
pub fn boxed_pat_of(alloc: Global, meaning: Meaning) -> Result<Box<Pat>, AllocError>
    ensures { IfOk result (λ p. pat_tree p.value ≡ pat_of (meaning_tree meaning)) }
{
    match meaning {
        Meaning::Pat(_, pat) => Ok(pat),
        other => {
            drop(other);
            let form = PatForm::Any;
            boxed_pat(alloc, Pat { at: 0, form })
        }
    }
}

/// The first part as a term on the heap. The part is taken off.
pub fn next_exp(alloc: Global, parts: &mut Meanings) -> Result<Box<Exp>, AllocError>
    ensures first { IfOk result (λ e. exp_tree e.value ≡ exp_of (first (meanings_tree parts.old))) }
    ensures behind { meanings_tree parts.new ≡ behind (meanings_tree parts.old) }
{
    boxed_exp_of(alloc, parts.take())
}
