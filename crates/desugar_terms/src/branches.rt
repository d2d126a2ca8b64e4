//! `case` and `if`.
ghost use Rattle.std.specs.Prelude.{◌≡◌, IfOk, map};
ghost use Rattle.plain_tree.specs.ExpView.{branch_tree, exp_tree};
ghost use Rattle.desugar_values.specs.Parts.{behind, first, part};
ghost use Rattle.desugar_values.specs.View.{meaning_tree, meanings_tree};
ghost use Rattle.desugar_terms.specs.Branches.{branch_of, branches_of, choice, more_branch, term_case, term_if};

use crate::boxes::next_exp;
use crate::made::term_at;
use desugar_types::{both, one_of};
use desugar_values::{Meaning, Meanings, group_of, pat_of, start_of};
use plain_tree::{BasisBuilder, Branch, Branches, Builder, Exp, Form, Pat, PatForm};
use std::alloc::{AllocError, Global};

/// `Pat "=>" Exp`
fn branch_of(parts: &mut Meanings) -> Branch
    ensures branch { branch_tree result
        ≡ branch_of (first (meanings_tree parts.old)) (part 2 (meanings_tree parts.old)) }
    ensures behind { meanings_tree parts.new ≡ behind (behind (behind (meanings_tree parts.old))) }
{
    let pattern = parts.take();
    let at = start_of(&pattern);
    let pat = pat_of(pattern);
    parts.skip();
    let body = parts.exp();
    Branch { at, pat, body }
}

/// `CaseMore = "|" Pat "=>" Exp`
fn more_branch(parts: Meanings) -> Branch
    ensures { branch_tree result ≡ more_branch (meanings_tree parts) }
{
    let mut parts = parts;
    parts.skip();
    branch_of(&mut parts)
}

/// A branch on the heap.
fn boxed_branch(alloc: Global, branch: Branch) -> Result<Box<Branch>, AllocError>
    ensures { IfOk result (λ b. branch_tree b.value ≡ branch_tree branch) }
{
    Ok(Box::new(alloc, branch)?)
}

/// `{CaseMore}`
fn branches_of(alloc: Global, several: Meanings) -> Result<Vec<Branch>, AllocError>
    ensures { IfOk result (λ items. map branch_tree items.items ≡ branches_of (meanings_tree several)) }
{
    let mut items = Vec::new(alloc);
    for part in several.into_list() {
        items.push(more_branch(group_of(alloc, part)))?;
    }
    Ok(items)
}

/// `TermCase = "case" Exp "of" [CaseBar] Pat "=>" Exp {CaseMore}`
pub fn term_case(alloc: Global, parts: Meanings) -> Result<Meaning, AllocError>
    ensures { IfOk result (λ m. meaning_tree m ≡ term_case (meanings_tree parts)) }
{
    let mut parts = parts;
    let at = parts.at();
    let subject = next_exp(alloc, &mut parts);
    parts.skip();
    parts.skip();
    let first = boxed_branch(alloc, branch_of(&mut parts));
    let items = branches_of(alloc, parts.several(alloc));
    let ((subject, first), items) = both(both(subject, first), items)?;
    term_at(alloc, at, Form::Case(subject, first, Branches { items }))
}

/// The branch of a truth value, at the word that leads to it.
fn choice(at: u32, value: BasisBuilder, body: Exp) -> Branch
    ensures { branch_tree result ≡ choice at value (exp_tree body) }
{
    let form = PatForm::Bare(Builder::Basis(value));
    Branch {
        at,
        pat: Pat { at, form },
        body,
    }
}

/// `TermIf = "if" Exp "then" Exp "else" Term`, `BodyIf` likewise: a `case` on True and False.
pub fn term_if(alloc: Global, parts: Meanings) -> Result<Meaning, AllocError>
    ensures { IfOk result (λ m. meaning_tree m ≡ term_if (meanings_tree parts)) }
{
    let mut parts = parts;
    let at = parts.at();
    let subject = next_exp(alloc, &mut parts);
    let then = parts.at();
    let yes = boxed_branch(alloc, choice(then, BasisBuilder::True, parts.exp()));
    let otherwise = parts.at();
    let no = choice(otherwise, BasisBuilder::False, parts.exp());
    let ((subject, yes), items) = both(both(subject, yes), one_of(alloc, no))?;
    term_at(alloc, at, Form::Case(subject, yes, Branches { items }))
}
