//! What a name that is in scope stands for.
use con_terms::{Con, Kind, Sym};
use core_terms::BasisName;
use plain_tree::Path;
use std::alloc::{AllocError, Global};
use table_rows::Text;
use type_makers::symbols::{EQ, NUM, ORD, SHOW, SQL_INJECTABLE};

/// What names a value.
#[derive(Clone, Copy, Debug, PartialEq, Eq)]
pub enum ValueName {
    /// What the binder of a variable that is so many such binders further out binds.
    Local(u32),
    /// The top-level value with this number.
    Top(u32),
    /// The foreign effect with this number.
    Foreign(u32),
    Basis(BasisName),
    /// `fold`, over rows of any kind.
    Fold,
}

/// A value with its type, as it is seen from the scope. The type of `fold` is made once the kind of its
/// rows is known; until then `()` stands for it.
#[derive(Drop)]
pub struct KnownValue {
    pub name: ValueName,
    pub con: Con,
}

/// A constructor of a datatype.
#[derive(Drop)]
pub struct KnownBuilder {
    /// The datatype's symbol.
    pub datatype: Sym,
    /// The constructor's place in it.
    pub index: u32,
    /// How many types the datatype takes.
    pub parameters: u32,
    /// What it holds. In it, number 0 is the datatype's last parameter.
    pub holds: Option<Con>,
    /// Its type: `t ::: Type -> .. -> held -> datatype t ..`
    pub con: Con,
}

/// A name of the type level.
#[derive(Drop)]
pub enum KnownType {
    /// A constructor with its kind.
    Known(Con, Kind),
    /// `folder`, over rows of any kind.
    Folder,
    /// `map`, from any kind to any kind.
    Map,
}

/// Whether a basic name is a class.
fn is_class(name: Sym) -> bool {
    name == SHOW || name == EQ || name == ORD || name == NUM || name == SQL_INJECTABLE
}

/// Whether what a constructor is applied to may make it a class at a type.
fn may_end_in_class(c: &Con) -> bool {
    match c {
        Con::App(function, _) => may_end_in_class(function),
        Con::Basic(name) => is_class(*name),
        Con::Var(_) => false,
        _ => true,
    }
}

/// Whether a type may have the normal form of an instance's, which is a class at a type. One that isn't
/// known yet may.
pub fn may_be_of_class(con: &Con) -> bool {
    match con {
        Con::App(function, _) => may_end_in_class(function),
        Con::Proj(_, _) | Con::UnitCon => true,
        _ => false,
    }
}

/// A name as its source has it, with the modules before it.
pub fn path_text(alloc: Global, path: &Path) -> Result<Text, AllocError> {
    let mut text = Text::new(alloc);
    for i in 0..path.modules.items.len() {
        text.push_str(path.modules.items[i].as_str())?;
        text.push_str(".")?;
    }
    text.push_str(path.name.as_str())?;
    Ok(text)
}
