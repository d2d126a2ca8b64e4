//! Declarations held against those of a source.
ghost use Rattle.std.specs.Prelude.{◌≡◌, map, IfOk, IsTrue, OnOk};
ghost use Rattle.con_terms.specs.View.{kind_tree};
ghost use Rattle.core_terms.specs.Strip.{if_written, kind_if_written, strip, strip_decl, strip_named};
ghost use Rattle.core_terms.specs.View.{decl_tree, named_list_tree, named_tree, symbols_view};
ghost use Rattle.core_terms.specs.declared.decl.Decl.TheVariants as made_decl;
ghost use Rattle.plain_tree.specs.ExpView as plain_exps;
ghost use Rattle.plain_tree.specs.Trees.{decl_con, decl_value};
ghost use Rattle.plain_tree.specs.View as plain_decls;
ghost use Rattle.source_names.specs.Scopes.{at_top};
ghost use Rattle.source_names.specs.View.{declared_view, tables_view};
ghost use Rattle.source_terms.specs.Declarations.{declare_group, declared_after, is_outside, reads_decl, reads_kind};
ghost use Rattle.source_terms.specs.Leaves.{form_of};
ghost use Rattle.source_terms.specs.Terms.{reads_group, reads_named};

use crate::datatypes::is_datatype;
use crate::terms::{is_group, is_named};
use con_terms::{Kind, same_kind};
use core_terms::{ConDecl, Decl, Named, NamedList, Program, Symbols};
use plain_tree as plain;
use source_names::{Here, Known, is_text, reads_con};
use std::alloc::{AllocError, Global};

/// Whether a declaration stands outside of structures.
pub fn is_at_top(path: &Symbols) -> bool
    ensures { result ≡ is_outside (symbols_view path.now) }
{
    path.items.is_empty()
}

/// Declares names.
fn declare_names(
    alloc: Global,
    known: &mut Known,
    source: &[plain::Named],
) -> Result<(), AllocError>
    ensures { OnOk result (declared_view known.new ≡ declare_group
        (plain_exps.named_list_from (map plain_exps.named_tree source.now)) (declared_view known.old)) }
{
    for i in 0..source.len() {
        known.add_value(alloc, &source[i].name.text)?;
    }
    Ok(())
}

/// Declares the names of a group.
fn declare_names_of(
    alloc: Global,
    known: &mut Known,
    source: &plain::NamedList,
) -> Result<(), AllocError>
    ensures { OnOk result
        (declared_view known.new ≡ declare_group (plain_exps.named_list_tree source.now) (declared_view known.old)) }
{
    declare_names(alloc, known, source.items.as_slice())
}

/// Whether a kind is what the source writes, where it writes one.
fn is_kind(source: &Option<Kind>, written: bool, kind: &Kind) -> bool
    ensures { result ≡ reads_kind (plain_decls.maybe_kind source.now) written
        (kind_if_written written (kind_tree kind.now)) }
{
    match source {
        None => !written,
        Some(k) => written && same_kind(k, kind),
    }
}

/// Whether a name of the type level is the source's.
fn is_con_decl(
    alloc: Global,
    known: &Known,
    program: &Program,
    source: &plain::TypeDecl,
    made: &ConDecl,
) -> Result<bool, AllocError>
    ensures { IfOk result (λ b. b ≡ reads_decl (tables_view program.now) (declared_view known.now)
        (decl_con (plain_decls.type_decl_tree source.now)) (strip_decl (decl_tree (made_decl.Con made.now)))) }
{
    let s = Here::new(alloc, known, program)?;
    if !is_at_top(&made.path) {
        return Ok(false);
    }
    if !is_text(&s, made.name, &source.name.text)? {
        return Ok(false);
    }
    if !is_kind(&source.kind, made.written, &made.kind) {
        return Ok(false);
    }
    reads_con(alloc, &s, &source.con, &made.con)
}

/// Whether a value is the source's, where all before it is in scope.
fn is_value(
    alloc: Global,
    known: &Known,
    program: &Program,
    source: &plain::Named,
    made: &Named,
) -> Result<bool, AllocError>
    ensures { IfOk result (λ b. b ≡ reads_named (at_top (tables_view program.now) (declared_view known.now))
        (plain_exps.named_tree source.now) (named_tree made.now).1 (named_tree made.now).2
        (if_written (named_tree made.now).2 (named_tree made.now).3) (form_of (strip (named_tree made.now).4))) }
{
    let s = Here::new(alloc, known, program)?;
    is_named(alloc, &s, source, made)
}

/// Whether values that are declared together are the source's, where they and all before them are in scope.
fn are_values(
    alloc: Global,
    known: &Known,
    program: &Program,
    source: &plain::NamedList,
    made: &NamedList,
) -> Result<bool, AllocError>
    ensures { IfOk result (λ b. b ≡ reads_group (at_top (tables_view program.now) (declared_view known.now))
        (plain_exps.named_list_tree source.now) (strip_named (named_list_tree made.now))) }
{
    let s = Here::new(alloc, known, program)?;
    is_group(alloc, &s, source, made)
}

/// Whether a declaration of values is the source's. Where it is, they are declared.
fn is_local(
    alloc: Global,
    known: &mut Known,
    program: &Program,
    source: &plain::Local,
    made: &Decl,
) -> Result<bool, AllocError>
    ensures same { IfOk result (λ b. b ≡ reads_decl (tables_view program.now) (declared_view known.old)
        (decl_value (plain_exps.local_tree source.now)) (strip_decl (decl_tree made.now))) }
    ensures behind { IfOk result (λ b. IsTrue b → declared_view known.new ≡ declared_after
        (declared_view known.old) (decl_value (plain_exps.local_tree source.now)) (decl_tree made.now)) }
{
    match source {
        plain::Local::Val(_, value) => match made {
            Decl::Val(path, named) => {
                if !is_at_top(path) || !is_value(alloc, known, program, value, named)? {
                    return Ok(false);
                }
                known.add_value(alloc, &value.name.text)?;
                Ok(true)
            }
            _ => Ok(false),
        },
        plain::Local::ValRec(_, group) => match made {
            Decl::ValRec(path, named) => {
                declare_names_of(alloc, known, group)?;
                if !is_at_top(path) {
                    return Ok(false);
                }
                are_values(alloc, known, program, group, named)
            }
            _ => Ok(false),
        },
    }
}

/// Whether a declaration is the source's. Where it is, it is declared.
pub fn is_decl(
    alloc: Global,
    known: &mut Known,
    program: &Program,
    source: &plain::Decl,
    made: &Decl,
) -> Result<bool, AllocError>
    ensures same { IfOk result (λ b. b ≡ reads_decl (tables_view program.now) (declared_view known.old)
        (plain_decls.decl_tree source.now) (strip_decl (decl_tree made.now))) }
    ensures behind { IfOk result (λ b. IsTrue b → declared_view known.new ≡ declared_after
        (declared_view known.old) (plain_decls.decl_tree source.now) (decl_tree made.now)) }
{
    match source {
        plain::Decl::Value(local) => is_local(alloc, known, program, local, made),
        plain::Decl::Con(source) => match made {
            Decl::Con(made) => {
                if !is_con_decl(alloc, known, program, source, made)? {
                    return Ok(false);
                }
                known.add_type(alloc, &source.name.text, &made.con)?;
                Ok(true)
            }
            _ => Ok(false),
        },
        plain::Decl::Datatype(source) => match made {
            Decl::Datatype(made) => is_datatype(alloc, known, program, source, made),
            _ => Ok(false),
        },
        plain::Decl::Table(_) | plain::Decl::Sequence(_, _) | plain::Decl::Cookie(_) => Ok(false),
    }
}
