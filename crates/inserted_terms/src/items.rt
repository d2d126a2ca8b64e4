//! What a call is applied to, along its head's type.
ghost use Rattle.std.specs.Prelude.{◌≡◌, true, map, IfOk, IsTrue, Option, Some, option_and_then, option_map, slice_get};
ghost use Rattle.con_terms.specs.Trees.{Cn};
ghost use Rattle.con_terms.specs.View.{con_tree, kind_tree};
ghost use Rattle.con_terms.specs.declared.place.Place.{Place};
ghost use Rattle.core_terms.specs.Basis.{fold_type as fold_type_of};
ghost use Rattle.core_terms.specs.Datatypes.{datatype_of};
ghost use Rattle.core_terms.specs.Lists.{item_tree};
ghost use Rattle.core_terms.specs.Strip.{was_added};
ghost use Rattle.core_terms.specs.Trees.{node, top};
ghost use Rattle.core_terms.specs.View.{datatype_view, decls_view, exp_tree, folder_view, form_tree, items_tree, maybe_con};
ghost use Rattle.core_typing.specs.Declarations.{datatypes};
ghost use Rattle.core_typing.specs.Scopes.{folder_of};
ghost use Rattle.guided_terms.specs.Heres as heres;
ghost use Rattle.guided_terms.specs.Implied.{Inserts};
ghost use Rattle.inserted_terms.specs.Asked as asked;
ghost use Rattle.inserted_terms.specs.Heads as heads;
ghost use Rattle.inserted_terms.specs.Lacking.{Lacks};
ghost use Rattle.inserted_terms.specs.Parts as parts;
ghost use Rattle.inserted_terms.specs.Values.{type_of_value};
ghost use Rattle.inserted_terms.specs.View.{at_view};
ghost use Rattle.judgements.specs.View.{locals_view, maybe_symbol};

use crate::at::At;
use crate::folders::{is_folder_of, lacks_folder};
use crate::gaps::{NO_FOLDER, NO_INSTANCE};
use crate::instances::{is_instance_of, lacks_instance};
use crate::types::{Split, past_con, past_guard, taken_apart};
use con_terms::{Con, Kind, Sym, copy_con, same_kind};
use core_terms::{Datatype, Decl, Exp, Form, Item, Items, Program};
use judgements::{constructor_named, look_up};
use std::alloc::{AllocError, Global};
use type_makers::{basis_type, constructor_type, fold_type};

/// The type of a variable.
fn type_of_variable(alloc: Global, h: &At<'_>, i: u32) -> Result<Option<Con>, AllocError>
    ensures { IfOk result (λ o. maybe_con o ≡ slice_get (locals_view h.now.locals.value) i) }
{
    look_up(alloc, &h.locals, i, 0)
}

/// The type of a top-level value.
fn top_type(alloc: Global, h: &At<'_>, i: u32) -> Result<Option<Con>, AllocError>
    ensures { IfOk result (λ o. maybe_con o ≡ slice_get (map type_of_value h.now.tops.now.values.items) i) }
{
    let index = i as usize;
    if index < h.tops.values.len() {
        Ok(Some(copy_con(alloc, &h.tops.values[index].con)?))
    } else {
        Ok(None)
    }
}

/// The symbol of the type of folders over rows of a kind.
fn folder_symbol(program: &Program, k: &Kind) -> Option<Sym>
    ensures { maybe_symbol result ≡ folder_of (map folder_view program.now.folders.items.items) (kind_tree k.now) }
{
    let folders = program.folders.items.as_slice();
    for i in 0..folders.len() {
        if same_kind(&folders[i].kind, k) {
            return Some(folders[i].symbol);
        }
    }
    None
}

/// The type of `fold` over rows of a kind.
fn type_of_fold(alloc: Global, h: &At<'_>, k: &Kind) -> Result<Option<Con>, AllocError>
    ensures { IfOk result (λ o. maybe_con o ≡ option_map (fold_type_of (kind_tree k.now))
        (folder_of (at_view h.now).types.folders (kind_tree k.now))) }
{
    match folder_symbol(h.program, k) {
        None => Ok(None),
        Some(s) => Ok(Some(fold_type(alloc, k, s)?)),
    }
}

/// The datatype that a program declares with a symbol.
fn datatype_with(program: &Program, s: Sym) -> Option<&Datatype>
    ensures { option_map (λ d. datatype_view d.now) result
        ≡ datatype_of (datatypes (decls_view program.now.decls)) s.number }
{
    let decls = program.decls.items.as_slice();
    for i in 0..decls.len() {
        match &decls[i] {
            Decl::Datatype(d) => {
                if d.symbol.number == s.number {
                    return Some(d);
                }
            }
            _ => (),
        }
    }
    None
}

/// The type of a constructor of a datatype that the program declares.
fn type_of_built(alloc: Global, h: &At<'_>, s: Sym, j: u32) -> Result<Option<Con>, AllocError>
    ensures { IfOk result (λ o. maybe_con o ≡ option_and_then (heads.type_of_built j)
        (datatype_of (at_view h.now).types.datatypes s.number)) }
{
    match datatype_with(h.program, s) {
        None => Ok(None),
        Some(d) => match constructor_named(d, j) {
            None => Ok(None),
            Some(c) => Ok(Some(constructor_type(alloc, d, c)?)),
        },
    }
}

/// The type of an identifier that may take folders or instances.
fn type_of_form(alloc: Global, h: &At<'_>, f: &Form) -> Result<Option<Con>, AllocError>
    ensures { IfOk result (λ o. maybe_con o ≡ heads.type_of_form (at_view h.now) (form_tree f.now)) }
{
    match f {
        Form::Var(i) => type_of_variable(alloc, h, *i),
        Form::Top(i) => top_type(alloc, h, *i),
        Form::Basis(b) => Ok(Some(basis_type(alloc, *b)?)),
        Form::Fold(k) => type_of_fold(alloc, h, k),
        Form::Build(s, j) => type_of_built(alloc, h, *s, *j),
        _ => Ok(None),
    }
}

/// Whether a term is the one that the rules insert for a parameter of this type.
fn is_chosen_for(alloc: Global, h: &At<'_>, t: &Con, e: &Exp) -> Result<bool, AllocError>
    ensures { IfOk result (λ b. IsTrue b → was_added (exp_tree e.now) ≡ true
        → Inserts (at_view h.now) (con_tree t.now) (exp_tree e.now)) }
{
    match &e.form {
        Form::Folder(k, fields) => is_folder_of(alloc, h, t, k, fields),
        f => is_instance_of(alloc, h, t, f),
    }
}

/// Whether the value of a number is a gap that stands for a parameter of this type.
fn is_gap_for(alloc: Global, h: &At<'_>, t: &Con, i: u32) -> Result<bool, AllocError>
    ensures { IfOk result
        (λ b. IsTrue b → (p : Place) → Lacks (at_view h.now) (con_tree t.now) (node p true (top i))) }
{
    if i == NO_INSTANCE {
        return lacks_instance(alloc, h, t, i);
    }
    if i == NO_FOLDER {
        return lacks_folder(alloc, h, t, i);
    }
    Ok(false)
}

/// Whether a term is a gap that stands for a parameter of this type, for which the rules choose nothing.
fn is_lacking_for(alloc: Global, h: &At<'_>, t: &Con, e: &Exp) -> Result<bool, AllocError>
    ensures { IfOk result (λ b. IsTrue b → was_added (exp_tree e.now) ≡ true
        → Lacks (at_view h.now) (con_tree t.now) (exp_tree e.now)) }
{
    match &e.form {
        Form::Top(i) => is_gap_for(alloc, h, t, *i),
        _ => Ok(false),
    }
}

/// Whether a term is the one that is inserted for a parameter of this type, or a gap where the rules choose none.
fn is_inserted_for(alloc: Global, h: &At<'_>, t: &Con, e: &Exp) -> Result<bool, AllocError>
    ensures { IfOk result (λ b. IsTrue b → was_added (exp_tree e.now) ≡ true
        → asked.InsertsFor (at_view h.now) (Some (con_tree t.now)) (exp_tree e.now)) }
{
    if is_lacking_for(alloc, h, t, e)? {
        return Ok(true);
    }
    is_chosen_for(alloc, h, t, e)
}

/// Whether a term, if it was inserted, is the one for a parameter of this type.
fn is_asked_term(
    alloc: Global,
    h: &At<'_>,
    taken: &Option<Con>,
    e: &Exp,
) -> Result<bool, AllocError>
    ensures { IfOk result (λ b. IsTrue b → asked.IfAdded (was_added (exp_tree e.now))
        (asked.InsertsFor (at_view h.now) (maybe_con taken.now) (exp_tree e.now))) }
{
    if !e.added {
        return Ok(true);
    }
    match taken {
        None => Ok(false),
        Some(taken) => is_inserted_for(alloc, h, taken, e),
    }
}

/// Whether an item is asked for, and what is left of the head's type behind it.
#[derive(Drop)]
struct Walked {
    asked: bool,
    rest: Option<Con>,
}

/// Whether a term is asked for, behind a head of this type, and what is left of that.
fn walk_term(alloc: Global, h: &At<'_>, t: Option<Con>, e: &Exp) -> Result<Walked, AllocError>
    ensures asked { IfOk result
        (λ w. IsTrue w.asked → asked.IfAdded (was_added (exp_tree e.now))
        (asked.InsertsFor (at_view h.now) (asked.parameter (maybe_con t)) (exp_tree e.now))) }
    ensures rest { IfOk result (λ w. maybe_con w.rest ≡ asked.past_term (maybe_con t)) }
{
    let Split { taken, rest } = taken_apart(alloc, t)?;
    let asked = is_asked_term(alloc, h, &taken, e)?;
    Ok(Walked { asked, rest })
}

/// Whether an item is asked for, behind a head of this type, and what is left of that.
fn walk(alloc: Global, h: &At<'_>, t: Option<Con>, i: &Item) -> Result<Walked, AllocError>
    ensures asked { IfOk result
        (λ w. IsTrue w.asked → parts.ItemAsked (at_view h.now) (maybe_con t) (item_tree i.now)) }
    ensures rest { IfOk result (λ w. maybe_con w.rest ≡ parts.past_item (item_tree i.now) (maybe_con t)) }
{
    match i {
        Item::Term(e) => walk_term(alloc, h, t, e),
        Item::Con(_, _, c) => Ok(Walked {
            asked: true,
            rest: past_con(alloc, c, t)?,
        }),
        Item::Guard(_, _) => Ok(Walked {
            asked: true,
            rest: past_guard(alloc, t)?,
        }),
    }
}

/// Whether a term was inserted.
fn is_added(i: &Item) -> bool
    ensures { result ≡ parts.is_added (item_tree i.now) }
{
    match i {
        Item::Term(e) => e.added,
        Item::Con(_, _, _) | Item::Guard(_, _) => false,
    }
}

/// Whether no term among items was inserted.
#[tactic(auto, using(crate::proofs::Parts::nothing_asked))]
fn none_added(is: &Items) -> bool
    ensures { IsTrue result → (h : heres.Here) → (t : Option Cn) → asked.ItemsAsked h t (items_tree is.now) }
{
    for i in 0..is.items.len() {
        if is_added(&is.items[i]) {
            return false;
        }
    }
    true
}

/// Whether the items of a call are asked for, behind a head of this type.
#[tactic(auto, using(crate::proofs::Parts::asked_more))]
fn are_asked_behind(
    alloc: Global,
    h: &At<'_>,
    t: Option<Con>,
    is: &Items,
) -> Result<bool, AllocError>
    ensures { IfOk result
        (λ b. IsTrue b → asked.ItemsAsked (at_view h.now) (maybe_con t) (items_tree is.now)) }
{
    let mut left = t;
    for i in 0..is.items.len() {
        let Walked { asked, rest } = walk(alloc, h, left, &is.items[i])?;
        if !asked {
            return Ok(false);
        }
        left = rest;
    }
    Ok(true)
}

/// Whether the folders and instances among what a call is applied to are those that are asked for.
pub fn are_asked(alloc: Global, h: &At<'_>, head: &Exp, is: &Items) -> Result<bool, AllocError>
    ensures { IfOk result (λ b. IsTrue b → asked.ItemsAsked (at_view h.now)
        (heads.type_of (at_view h.now) (exp_tree head.now)) (items_tree is.now)) }
{
    if none_added(is) {
        return Ok(true);
    }
    let t = type_of_form(alloc, h, &head.form)?;
    are_asked_behind(alloc, h, t, is)
}
