//! Names, constructors and what sugar stands for, as forms of terms.
ghost use Rattle.std.specs.Prelude.{◌≡◌, IfOk};
ghost use Rattle.con_terms.specs.View.{con_tree};
ghost use Rattle.core_terms.specs.Strip.{strip_pattern};
ghost use Rattle.core_terms.specs.View.{form_tree, maybe_name, pat_tree};
ghost use Rattle.plain_tree.specs.ConView as plain;
ghost use Rattle.source_names.specs.Standing as standing;
ghost use Rattle.source_names.specs.View.{scope_view};
ghost use Rattle.source_terms.specs.Leaves as leaves;
ghost use Rattle.source_terms.specs.Left.{left};
ghost use Rattle.source_terms.specs.Terms as terms;

use con_terms::Con;
use core_terms::{BasisName, ConOrigin, Form, InputName, Pat, PatForm};
use plain_tree::{Basis, BasisBuilder, ConForm, Infix, Path};
use source_names::{Here, names_basis_builder, names_builder, names_value, reads_con};
use std::alloc::{AllocError, Global};

/// Whether a path names the value that a form is.
#[tactic(auto, using(crate::proofs::Leaving::value_left))]
pub fn is_value(s: &Here<'_>, p: &Path, f: &Form) -> Result<bool, AllocError>
    ensures { IfOk result
        (λ b. b ≡ standing.names_value (scope_view s.now) p.now (left (form_tree f.now))) }
{
    let found = names_value(s, p, f)?;
    Ok(found)
}

/// Whether a path names the constructor of a datatype that a form is.
pub fn is_built(s: &Here<'_>, p: &Path, f: &Form) -> Result<bool, AllocError>
    ensures { IfOk result (λ b. b ≡ leaves.builds (scope_view s.now) p.now (left (form_tree f.now))) }
{
    match f {
        Form::Build(datatype, index) => names_builder(s, p, *datatype, *index),
        _ => Ok(false),
    }
}

/// Whether a form is what sugar stands for.
pub fn is_sugar(s: &Here<'_>, b: Basis, f: &Form) -> Result<bool, AllocError>
    ensures { IfOk result (λ r. r ≡ leaves.is_sugar (scope_view s.now) b (left (form_tree f.now))) }
{
    match b {
        Basis::Bind => Ok(matches!(f, Form::Basis(BasisName::Bind))),
        Basis::Txt => Ok(matches!(f, Form::Basis(BasisName::Txt))),
        Basis::Neg => Ok(matches!(f, Form::Basis(BasisName::Neg))),
        Basis::Eq => Ok(matches!(f, Form::Basis(BasisName::Eq))),
        Basis::Ne => Ok(matches!(f, Form::Basis(BasisName::Ne))),
        Basis::Lt => Ok(matches!(f, Form::Basis(BasisName::Lt))),
        Basis::Le => Ok(matches!(f, Form::Basis(BasisName::Le))),
        Basis::Builder(b) => is_basis_builder(s, b, f),
    }
}

/// Whether a form is a constructor of the basis.
pub fn is_basis_builder(s: &Here<'_>, b: BasisBuilder, f: &Form) -> Result<bool, AllocError>
    ensures { IfOk result (λ r. r ≡ leaves.is_basis_builder (scope_view s.now) b (left (form_tree f.now))) }
{
    match f {
        Form::Build(datatype, index) => names_basis_builder(s, b, *datatype, *index),
        _ => Ok(false),
    }
}

/// Whether a form is the value of the basis that an operator stands for.
pub fn is_operator(op: Infix, f: &Form) -> bool
    ensures { result ≡ leaves.is_operator op (left (form_tree f.now)) }
{
    match op {
        Infix::Strcat => matches!(f, Form::Basis(BasisName::Strcat)),
        Infix::Plus => matches!(f, Form::Basis(BasisName::Plus)),
        Infix::Minus => matches!(f, Form::Basis(BasisName::Minus)),
        Infix::Times => matches!(f, Form::Basis(BasisName::Times)),
        Infix::Divide => matches!(f, Form::Basis(BasisName::Divide)),
        Infix::Mod => matches!(f, Form::Basis(BasisName::Mod)),
        Infix::Or | Infix::And | Infix::Concat => false,
    }
}

/// Whether a form is `cdata`.
pub fn is_cdata(f: &Form) -> bool
    ensures { result ≡ leaves.is_cdata (left (form_tree f.now)) }
{
    matches!(f, Form::Basis(BasisName::Cdata))
}

/// Whether a pattern is a bare constructor of the basis.
pub fn is_bare_of(s: &Here<'_>, b: BasisBuilder, q: &Pat) -> Result<bool, AllocError>
    ensures { IfOk result (λ r. r ≡ leaves.is_bare_of (scope_view s.now) b (strip_pattern (pat_tree q.now))) }
{
    match &q.form {
        PatForm::Build(datatype, index, None) => names_basis_builder(s, b, *datatype, *index),
        _ => Ok(false),
    }
}

/// Whether a constructor that a call is applied to is the written one.
pub fn is_given(
    alloc: Global,
    s: &Here<'_>,
    c: &plain_tree::Con,
    origin: ConOrigin,
    con: &Con,
) -> Result<bool, AllocError>
    ensures { IfOk result
        (λ b. b ≡ terms.is_given (scope_view s.now) (plain.con_tree c.now) origin (con_tree con.now)) }
{
    match origin {
        ConOrigin::Written => reads_con(alloc, s, c, con),
        ConOrigin::Wild => Ok(matches!(&c.form, ConForm::Wild)),
        ConOrigin::Inserted => Ok(false),
    }
}

/// Whether an input fills the written field.
pub fn is_filled(
    alloc: Global,
    s: &Here<'_>,
    written: &Option<plain_tree::Con>,
    field: &Option<InputName>,
) -> Result<bool, AllocError>
    ensures { IfOk result
        (λ b. b ≡ terms.is_filled (scope_view s.now) (plain.maybe_con written.now) (maybe_name field.now)) }
{
    match written {
        None => Ok(matches!(field, None)),
        Some(c) => match field {
            None => Ok(false),
            Some(input) => reads_con(alloc, s, c, &input.name),
        },
    }
}
