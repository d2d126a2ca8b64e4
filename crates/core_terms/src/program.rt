//! Programs.
use crate::decl::Decls;
use con_terms::{Kind, Sym};
use table_rows::{Text, Texts};

/// A rule on addresses: whether what fits it is allowed.
#[derive(Drop)]
pub struct Rule {
    pub allow: bool,
    pub pattern: Text,
}

/// The rules on addresses, in order.
#[derive(Drop)]
pub struct Rules {
    pub items: Vec<Rule>,
}

/// A foreign effect, by its module and its name.
#[derive(Drop)]
pub struct ForeignName {
    pub module: Text,
    pub name: Text,
}

/// The foreign effects, by their numbers.
#[derive(Drop)]
pub struct Foreigns {
    pub items: Vec<ForeignName>,
}

/// The symbol of the type `folder`, over rows of a kind.
#[derive(Drop)]
pub struct FolderName {
    pub kind: Kind,
    pub symbol: Sym,
}

/// The kinds of rows over which the program has folders.
#[derive(Drop)]
pub struct Folders {
    pub items: Vec<FolderName>,
}

/// The numbers of top-level values.
#[derive(Drop)]
pub struct Exports {
    pub items: Vec<u32>,
}

/// A program: all modules, one after another.
#[derive(Drop)]
pub struct Program {
    /// The texts of its symbols. They begin with those of the basis.
    pub names: Texts,
    /// The modules' names. A place's file is a number in this list.
    pub modules: Texts,
    pub decls: Decls,
    pub rules: Rules,
    pub foreign: Foreigns,
    pub folders: Folders,
    /// The values that a request may name, by their numbers.
    pub exports: Exports,
}
