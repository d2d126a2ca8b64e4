//! What is known of a program.
ghost use Rattle.std.specs.Prelude.{◌≡◌, ◌++◌, map, IfOk, OnOk};
ghost use Rattle.core_terms.specs.Lists.{constructors_view, folders_view};
ghost use Rattle.core_terms.specs.View.{datatype_view, decl_tree, decls_view, symbols_view};
ghost use Rattle.shown_types.specs.Names.{text_of};
ghost use Rattle.shown_types.specs.Programs.{all_declared, builder_name, declared_by, declared_in, folder_symbol, texts_of};
ghost use Rattle.shown_types.specs.View.{declared_view, known_view};

use crate::known::{Declared, Known, text};
use con_terms::Sym;
use core_terms::{Constructors, Datatype, Decl, Decls, Folders, Symbols};
use std::alloc::{AllocError, Global};
use table_rows::{Text, Texts};

/// The names of a datatype's constructors.
fn builders_of(alloc: Global, constructors: &Constructors) -> Result<Vec<Sym>, AllocError>
    ensures { IfOk result (λ made. map (λ s. s.number) made.items
        ≡ map builder_name (constructors_view constructors.now)) }
{
    let mut made = Vec::new(alloc);
    for i in 0..constructors.items.len() {
        made.push(constructors.items[i].name)?;
    }
    Ok(made)
}

/// What is known of a datatype.
fn declared_of(alloc: Global, datatype: &Datatype) -> Result<Declared, AllocError>
    ensures { IfOk result (λ made. declared_view made ≡ declared_by (datatype_view datatype.now)) }
{
    Ok(Declared {
        symbol: datatype.symbol,
        home: datatype.module,
        name: datatype.name,
        builders: builders_of(alloc, &datatype.constructors)?,
    })
}

/// Adds the datatype that a declaration makes.
fn push_declared(alloc: Global, decl: &Decl, made: &mut Vec<Declared>) -> Result<(), AllocError>
    ensures { OnOk result (map declared_view made.new.items
        ≡ map declared_view made.old.items ++ declared_in (decl_tree decl.now)) }
{
    match decl {
        Decl::Datatype(datatype) => {
            let declared = declared_of(alloc, datatype)?;
            Ok(made.push(declared)?)
        }
        Decl::Val(_, _) => Ok(()),
        Decl::ValRec(_, _) => Ok(()),
        Decl::Con(_) => Ok(()),
        Decl::Thing(_) => Ok(()),
    }
}

/// The datatypes that declarations make.
pub fn types_of(alloc: Global, decls: &Decls) -> Result<Vec<Declared>, AllocError>
    ensures { IfOk result (λ made. map declared_view made.items ≡ all_declared (decls_view decls.now)) }
{
    let mut made = Vec::new(alloc);
    for i in 0..decls.items.len() {
        push_declared(alloc, &decls.items[i], &mut made)?;
    }
    Ok(made)
}

/// The symbols of the types of folders.
pub fn folders_of(alloc: Global, folders: &Folders) -> Result<Vec<u32>, AllocError>
    ensures { IfOk result (λ made. made.items ≡ map folder_symbol (folders_view folders.now)) }
{
    let mut made = Vec::new(alloc);
    for i in 0..folders.items.len() {
        made.push(folders.items[i].symbol.number)?;
    }
    Ok(made)
}

/// What constructor variables are called, by their names' symbols.
pub fn called_by(known: &Known<'_>, called: &Symbols) -> Result<Texts, AllocError>
    ensures { IfOk result (λ made. made ≡ texts_of (known_view known.now) (symbols_view called.now)) }
{
    let mut made = Texts::new(known.alloc);
    for i in 0..called.items.len() {
        made.push(Text::of(known.alloc, text(known, called.items[i]))?)?;
    }
    Ok(made)
}
