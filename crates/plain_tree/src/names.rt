//! Names, operators and other leaves of plain trees.
ghost use Rattle.std.specs.Prelude.{◌≡◌, [], ◌∷◌, ◌++◌, length, OnOk, OnErr};

use std::alloc::{AllocError, Global};
use std::marker::Model;
use table_rows::Text;

/// A name at its place.
#[derive(Debug, Drop)]
pub struct Word {
    pub at: u32,
    pub text: Text,
}

/// Names at their places, in order. Contracts see their list.
#[derive(Debug, Drop)]
pub struct Words {
    pub items: Vec<Word>,
}

impl Model for Words {
    ghost use Rattle.std.specs.Prelude.{List};
    ghost use Rattle.plain_tree.specs.declared.names.Word.{Word};

    ghost Value = { List Word };

    ghost view = { λ words. words.items.items };
}

impl Words {
    /// The empty list. It allocates nothing.
    pub fn new(alloc: Global) -> Words
        ensures { result ≡ [] }
    {
        Words {
            items: Vec::new(alloc),
        }
    }

    /// Adds a name at the end. An `Err` changes nothing.
    pub fn push(&mut self, word: Word) -> Result<(), AllocError>
        ensures ok { OnOk result (self.new ≡ self.old ++ word ∷ []) }
        ensures err { OnErr result (self.new ≡ self.old) }
    {
        self.items.push(word)?;
        Ok(())
    }

    /// The number of names.
    pub fn len(&self) -> usize
        ensures { result ≡ length self.now }
    {
        self.items.len()
    }
}

/// Numbers in order. Contracts see their list.
#[derive(Debug, Drop)]
pub struct Numbers {
    pub items: Vec<u64>,
}

impl Model for Numbers {
    ghost use Rattle.std.specs.Prelude.{ℕ, List};

    ghost Value = { List ℕ };

    ghost view = { λ numbers. numbers.items.items };
}

/// Bytes of the text at which tokens begin, in order. Contracts see their list.
#[derive(Debug, Drop)]
pub struct Places {
    pub items: Vec<u32>,
}

impl Model for Places {
    ghost use Rattle.std.specs.Prelude.{ℕ, List};

    ghost Value = { List ℕ };

    ghost view = { λ places. places.items.items };
}

/// Names of modules, the outermost first. Contracts see their list.
#[derive(Debug, Drop)]
pub struct Modules {
    pub items: Vec<Text>,
}

impl Model for Modules {
    ghost use Rattle.std.specs.Prelude.{ℕ, List};

    ghost Value = { List (List ℕ) };

    ghost view = { λ modules. modules.items.items };
}

impl Modules {
    /// The empty list. It allocates nothing.
    pub fn new(alloc: Global) -> Modules
        ensures { result ≡ [] }
    {
        Modules {
            items: Vec::new(alloc),
        }
    }

    /// Adds a name at the end. An `Err` changes nothing.
    pub fn push(&mut self, name: Text) -> Result<(), AllocError>
        ensures ok { OnOk result (self.new ≡ self.old ++ name ∷ []) }
        ensures err { OnErr result (self.new ≡ self.old) }
    {
        self.items.push(name)?;
        Ok(())
    }

    /// The number of names.
    pub fn len(&self) -> usize
        ensures { result ≡ length self.now }
    {
        self.items.len()
    }
}

/// A name with the modules that stand before its dots.
#[derive(Debug, Drop)]
pub struct Path {
    pub modules: Modules,
    pub name: Text,
}

/// The name of a field, as `#A` or `#1`.
#[derive(Debug, Drop)]
pub enum Label {
    Word(Text),
    Number(u64),
}

/// What stands before a name in a call: nothing, `@` (guards, folders and instances are written) or
/// `@@` (implicit constructors are written too).
#[derive(Clone, Copy, Debug, PartialEq, Eq)]
pub enum Sigil {
    Nothing,
    At,
    AtAt,
}

/// A constructor of the basis's datatypes that sugar stands for.
#[derive(Clone, Copy, Debug, PartialEq, Eq)]
pub enum BasisBuilder {
    False,
    True,
    Nil,
    Cons,
}

/// A value of the basis that sugar stands for.
#[derive(Clone, Copy, Debug, PartialEq, Eq)]
pub enum Basis {
    Bind,
    Txt,
    Neg,
    Eq,
    Ne,
    Lt,
    Le,
    Builder(BasisBuilder),
}

/// The constructor of a pattern: a written one, or one of the basis that sugar stands for.
#[derive(Debug, Drop)]
pub enum Builder {
    Named(Path),
    Basis(BasisBuilder),
}

/// An operator of a chain. `And` and `Or` are a `case` on True and False, `Concat` joins records, and
/// the others are the basis's values `strcat`, `plus`, `minus`, `times`, `divide` and `mod`.
#[derive(Clone, Copy, Debug, PartialEq, Eq)]
pub enum Infix {
    Or,
    And,
    Strcat,
    Concat,
    Plus,
    Minus,
    Times,
    Divide,
    Mod,
}

/// An operator of a chain in a query.
#[derive(Clone, Copy, Debug, PartialEq, Eq)]
pub enum QueryInfix {
    Or,
    And,
    Plus,
    Minus,
    Times,
    Divide,
    Mod,
}

/// A comparison in a query.
#[derive(Clone, Copy, Debug, PartialEq, Eq)]
pub enum Comparison {
    Equal,
    NotEqual,
    Less,
    LessOrEqual,
    Greater,
    GreaterOrEqual,
}
