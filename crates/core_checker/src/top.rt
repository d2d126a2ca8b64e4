//! What is in scope at the top of a program: the kinds of types, the datatypes, the folders.
ghost use Rattle.std.specs.Prelude.{◌≡◌, ◌++◌, ◌∷◌, [], IfOk, OnOk, drop, map, take};
ghost use Rattle.con_terms.specs.Trees as tree;
ghost use Rattle.con_terms.specs.View.{kind_tree};
ghost use Rattle.core_checker.specs.Declarations.{at_start};
ghost use Rattle.core_checker.specs.View.{IsTop, globals_view};
ghost use Rattle.core_terms.specs.Types.{type_taking};
ghost use Rattle.core_terms.specs.View.{datatype_view, folder_view, program_view};
ghost use Rattle.core_typing.specs.Scopes.{basis_kinds, datatype_kinds, folder_kinds};
ghost use Rattle.kind_rules.specs.View.{basic_tree};

use con_terms::{Kind, Sym, copy_kind};
use core_terms::{Datatype, FolderName, Program};
use judgements::{Called, Globals, Here, Locals};
use kind_rules::{Basic, Scope};
use std::alloc::{AllocError, Global};
use std::rc::Rc;
use type_makers::{arrow_kind, basis_datatypes, row_kind, symbols};

/// A type's name with its kind.
fn named(name: Sym, kind: Kind) -> Basic
    ensures { basic_tree result ≡ (name.number, kind_tree kind) }
{
    Basic { name, kind }
}

/// The kind of a type that takes a type.
fn type_to_type(alloc: Global) -> Result<Kind, AllocError>
    ensures { IfOk result (λ k. kind_tree k ≡ tree.to tree.types tree.types) }
{
    arrow_kind(alloc, Kind::Types, Kind::Types)
}

/// The kind of a type that takes a row of types.
fn row_to_type(alloc: Global) -> Result<Kind, AllocError>
    ensures { IfOk result (λ k. kind_tree k ≡ tree.to (tree.row_of tree.types) tree.types) }
{
    arrow_kind(alloc, row_kind(alloc, Kind::Types)?, Kind::Types)
}

/// The kind of rows of tables.
fn tables(alloc: Global) -> Result<Kind, AllocError>
    ensures { IfOk result (λ k. kind_tree k ≡ tree.row_of (tree.row_of tree.types)) }
{
    row_kind(alloc, row_kind(alloc, Kind::Types)?)
}

/// The kind of `xml`.
fn xml_kind(alloc: Global) -> Result<Kind, AllocError>
    ensures { IfOk result (λ k. kind_tree k ≡ tree.to (tree.row_of tree.units)
        (tree.to (tree.row_of tree.types) (tree.to (tree.row_of tree.types) tree.types))) }
{
    let more = arrow_kind(alloc, row_kind(alloc, Kind::Types)?, row_to_type(alloc)?)?;
    arrow_kind(alloc, row_kind(alloc, Kind::Units)?, more)
}

/// Adds the kinds of the types of the basis that terms and pages have.
fn add_first(alloc: Global, all: &mut Vec<Basic>) -> Result<(), AllocError>
    ensures { OnOk result (map basic_tree all.new.items ≡ map basic_tree all.old.items ++ take 5 basis_kinds) }
{
    all.push(named(symbols::INT, Kind::Types))?;
    all.push(named(symbols::STRING, Kind::Types))?;
    all.push(named(symbols::URL, Kind::Types))?;
    all.push(named(symbols::TRANSACTION, type_to_type(alloc)?))?;
    all.push(named(symbols::XML, xml_kind(alloc)?))?;
    Ok(())
}

/// Adds the kinds of the types of instances.
fn add_instances(alloc: Global, all: &mut Vec<Basic>) -> Result<(), AllocError>
    ensures { OnOk result (map basic_tree all.new.items
        ≡ map basic_tree all.old.items ++ take 4 (drop 5 basis_kinds)) }
{
    all.push(named(symbols::SHOW, type_to_type(alloc)?))?;
    all.push(named(symbols::EQ, type_to_type(alloc)?))?;
    all.push(named(symbols::ORD, type_to_type(alloc)?))?;
    all.push(named(symbols::NUM, type_to_type(alloc)?))?;
    Ok(())
}

/// Adds the kinds of the types of the basis that have nothing to do with SQL and cookies.
fn add_plain(alloc: Global, all: &mut Vec<Basic>) -> Result<(), AllocError>
    ensures { OnOk result (map basic_tree all.new.items ≡ map basic_tree all.old.items ++ take 9 basis_kinds) }
{
    add_first(alloc, all)?;
    add_instances(alloc, all)
}

/// Adds the kinds of the types of SQL and of cookies.
fn add_sql(alloc: Global, all: &mut Vec<Basic>) -> Result<(), AllocError>
    ensures { OnOk result (map basic_tree all.new.items ≡ map basic_tree all.old.items ++ drop 9 basis_kinds) }
{
    let query = arrow_kind(alloc, tables(alloc)?, row_to_type(alloc)?)?;
    let expression = arrow_kind(alloc, tables(alloc)?, type_to_type(alloc)?)?;
    all.push(named(symbols::SQL_TABLE, row_to_type(alloc)?))?;
    all.push(named(symbols::SQL_QUERY, query))?;
    all.push(named(symbols::SQL_EXP, expression))?;
    all.push(named(symbols::DML, Kind::Types))?;
    all.push(named(symbols::SQL_SEQUENCE, Kind::Types))?;
    all.push(named(symbols::HTTP_COOKIE, type_to_type(alloc)?))?;
    all.push(named(symbols::SQL_INJECTABLE, type_to_type(alloc)?))?;
    Ok(())
}

/// The kind of a type that takes so many types.
#[tactic(auto, using(crate::proofs::DeclSteps::taking_on, crate::proofs::DeclSteps::taking_end))]
fn taking(alloc: Global, count: usize) -> Result<Kind, AllocError>
    ensures { IfOk result (λ k. kind_tree k ≡ type_taking count) }
{
    let mut kind = Kind::Types;
    let mut made = 0;
    while made < count {
        kind = arrow_kind(alloc, Kind::Types, kind)?;
        made += 1;
    }
    Ok(kind)
}

/// Adds the kind of a datatype.
fn add_datatype(alloc: Global, d: &Datatype, all: &mut Vec<Basic>) -> Result<(), AllocError>
    ensures { OnOk result (map basic_tree all.new.items
        ≡ map basic_tree all.old.items ++ datatype_kinds (datatype_view d.now ∷ [])) }
{
    let kind = taking(alloc, d.parameters.items.len())?;
    Ok(all.push(named(d.symbol, kind))?)
}

/// Adds the kinds of datatypes.
#[tactic(auto, using(crate::proofs::DeclSteps::datatypes_on))]
fn add_datatypes(alloc: Global, ds: &Vec<Datatype>, all: &mut Vec<Basic>) -> Result<(), AllocError>
    ensures { OnOk result (map basic_tree all.new.items
        ≡ map basic_tree all.old.items ++ datatype_kinds (map datatype_view ds.now.items)) }
{
    for i in 0..ds.len() {
        add_datatype(alloc, &ds[i], all)?;
    }
    Ok(())
}

/// Adds the kind of a folder.
fn add_folder(alloc: Global, f: &FolderName, all: &mut Vec<Basic>) -> Result<(), AllocError>
    ensures { OnOk result (map basic_tree all.new.items
        ≡ map basic_tree all.old.items ++ folder_kinds (folder_view f.now ∷ [])) }
{
    let over = row_kind(alloc, copy_kind(alloc, &f.kind)?)?;
    Ok(all.push(named(f.symbol, arrow_kind(alloc, over, Kind::Types)?))?)
}

/// Adds the kinds of folders.
#[tactic(auto, using(crate::proofs::DeclSteps::folders_on))]
fn add_folders(alloc: Global, fs: &Vec<FolderName>, all: &mut Vec<Basic>) -> Result<(), AllocError>
    ensures { OnOk result (map basic_tree all.new.items
        ≡ map basic_tree all.old.items ++ folder_kinds (map folder_view fs.now.items)) }
{
    for i in 0..fs.len() {
        add_folder(alloc, &fs[i], all)?;
    }
    Ok(())
}

/// The kinds of all types: those of the basis, of datatypes and of folders.
fn type_kinds(alloc: Global, g: &Globals) -> Result<Vec<Basic>, AllocError>
    ensures { IfOk result (λ all. map basic_tree all.items
        ≡ basis_kinds ++ datatype_kinds (map datatype_view g.now.datatypes.items)
        ++ folder_kinds (map folder_view g.now.folders.items)) }
{
    let mut all = Vec::new(alloc);
    add_plain(alloc, &mut all)?;
    add_sql(alloc, &mut all)?;
    add_datatypes(alloc, &g.datatypes, &mut all)?;
    add_folders(alloc, &g.folders, &mut all)?;
    Ok(all)
}

/// The scope at the top: the kinds of all types, which are those of the basis, of datatypes and of folders.
pub fn top_scope(alloc: Global, g: &Globals) -> Result<Here, AllocError>
    ensures { IfOk result (IsTop (globals_view g.now)) }
{
    let all = type_kinds(alloc, g)?;
    let kinds = Scope::new(alloc).with_basics(all)?;
    Ok(Here {
        kinds: Rc::new(alloc, kinds).map_err(AllocError::from)?,
        called: Rc::new(alloc, Called::Nothing).map_err(AllocError::from)?,
        locals: Rc::new(alloc, Locals::Empty).map_err(AllocError::from)?,
    })
}

/// A copy of the name of a folder.
fn copy_folder(alloc: Global, f: &FolderName) -> Result<FolderName, AllocError>
    ensures { IfOk result (λ new. folder_view new ≡ folder_view f.now) }
{
    Ok(FolderName {
        kind: copy_kind(alloc, &f.kind)?,
        symbol: f.symbol,
    })
}

/// A copy of the names of folders.
fn copy_folders(alloc: Global, fs: &Vec<FolderName>) -> Result<Vec<FolderName>, AllocError>
    ensures { IfOk result (λ new. map folder_view new.items ≡ map folder_view fs.now.items) }
{
    let mut new = Vec::with_capacity(alloc, fs.len())?;
    for i in 0..fs.len() {
        new.push(copy_folder(alloc, &fs[i])?)?;
    }
    Ok(new)
}

/// What is in scope in all of a program before its first declaration.
pub fn globals_at_start(alloc: Global, p: &Program) -> Result<Globals, AllocError>
    ensures { IfOk result (λ g. globals_view g ≡ at_start (program_view p.now)) }
{
    Ok(Globals {
        tops: Vec::new(alloc),
        datatypes: basis_datatypes(alloc)?,
        folders: copy_folders(alloc, &p.folders.items)?,
        effects: p.foreign.items.len(),
    })
}
