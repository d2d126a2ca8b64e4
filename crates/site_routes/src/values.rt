//! The values of a program, by their numbers.
ghost use Rattle.std.specs.Prelude.{◌≡◌, ◌++◌, ◌∷◌, [], get_or, map, IfOk, OnOk};
ghost use Rattle.con_terms.specs.View.{con_tree};
ghost use Rattle.core_terms.specs.View.{decl_tree, decls_view, named_list_tree, named_tree, program_view, symbols_view};
ghost use Rattle.core_typing.specs.Declarations.{named_values, values as values_in};
ghost use Rattle.site_routes.specs.Linked.{decl_values, linked, name_in, named_value};
ghost use Rattle.site_routes.specs.View.{value_view};

use con_terms::{Con, Place, Sym, copy_con};
use core_terms::{Decl, Named, NamedList, Program, Symbols};
use std::alloc::{AllocError, Global};
use table_rows::{Text, Texts};

/// A value: its type, and the name that it has in links.
#[derive(Drop)]
pub struct Value {
    pub con: Con,
    pub name: Texts,
}

/// The text of a place in a list; the empty one where it has no such place.
fn text_at(alloc: Global, texts: &Texts, i: usize) -> Result<Text, AllocError>
    ensures { IfOk result (λ t. t ≡ get_or texts.now i []) }
{
    if i < texts.len() {
        texts.at(i).copy(alloc)
    } else {
        Ok(Text::new(alloc))
    }
}

/// The name that a value has in links: its module, the structures around it, and its name.
#[tactic(auto, using(crate::proofs::Names::texts_on, crate::proofs::Names::texts_end))]
fn link_name(
    alloc: Global,
    p: &Program,
    place: Place,
    path: &Symbols,
    name: Sym,
) -> Result<Texts, AllocError>
    ensures { IfOk result (λ t. t ≡ name_in (program_view p.now) place.file (symbols_view path.now) name.number) }
{
    let mut texts = Texts::new(alloc);
    texts.push(text_at(alloc, &p.modules, place.file as usize)?)?;
    for i in 0..path.items.len() {
        texts.push(text_at(alloc, &p.names, path.items[i].number as usize)?)?;
    }
    texts.push(text_at(alloc, &p.names, name.number as usize)?)?;
    Ok(texts)
}

/// Adds a value with a term.
fn add_named(
    alloc: Global,
    p: &Program,
    path: &Symbols,
    n: &Named,
    values: &mut Vec<Value>,
) -> Result<(), AllocError>
    ensures { OnOk result (map value_view values.new.items ≡ map value_view values.old.items
        ++ linked (program_view p.now) (named_value (symbols_view path.now) (named_tree n.now)) ∷ []) }
{
    let con = copy_con(alloc, &n.con)?;
    let name = link_name(alloc, p, n.place, path, n.name)?;
    Ok(values.push(Value { con, name })?)
}

/// Adds the values of a list.
#[tactic(auto, using(crate::proofs::Names::named_on))]
fn add_list(
    alloc: Global,
    p: &Program,
    path: &Symbols,
    ns: &NamedList,
    values: &mut Vec<Value>,
) -> Result<(), AllocError>
    ensures { OnOk result (map value_view values.new.items ≡ map value_view values.old.items
        ++ map (linked (program_view p.now)) (named_values (symbols_view path.now) (named_list_tree ns.now))) }
{
    for i in 0..ns.items.len() {
        add_named(alloc, p, path, &ns.items[i], values)?;
    }
    Ok(())
}

/// Adds the values of a declaration.
fn add_values(
    alloc: Global,
    p: &Program,
    d: &Decl,
    values: &mut Vec<Value>,
) -> Result<(), AllocError>
    ensures { OnOk result (map value_view values.new.items ≡ map value_view values.old.items
        ++ map (linked (program_view p.now)) (decl_values (decl_tree d.now))) }
{
    match d {
        Decl::Val(path, n) => add_named(alloc, p, path, n, values),
        Decl::ValRec(path, ns) => add_list(alloc, p, path, ns, values),
        Decl::Thing(t) => {
            let con = copy_con(alloc, &t.con)?;
            let name = link_name(alloc, p, t.place, &t.path, t.name)?;
            Ok(values.push(Value { con, name })?)
        }
        _ => Ok(()),
    }
}

/// The values of a program.
#[tactic(auto, using(crate::proofs::Names::values_on, crate::proofs::Names::values_end))]
pub fn values_of(alloc: Global, p: &Program) -> Result<Vec<Value>, AllocError>
    ensures { IfOk result (λ vs. map value_view vs.items
        ≡ map (linked (program_view p.now)) (values_in (decls_view p.now.decls))) }
{
    let mut all = Vec::new(alloc);
    for i in 0..p.decls.items.len() {
        add_values(alloc, p, &p.decls.items[i], &mut all)?;
    }
    Ok(all)
}
