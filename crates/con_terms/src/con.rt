//! Constructors of the type level.

ghost use Rattle.std.specs.Prelude.{◌≡◌, ◌<◌, ◌++◌, ◌∷◌, [], Some, length, slice_get, OnOk, OnErr};

use crate::kind::Kind;
use crate::symbol::Sym;
use std::alloc::{AllocError, Global};

/// A constructor of the type level. Contracts see it as the tree `con_tree`.
#[cycle(con)]
#[derive(Drop)]
pub enum Con {
    /// What the binder that is so many binders further out binds.
    Var(u32),
    /// A basic name, as `int`.
    Basic(Sym),
    /// `a -> b`
    Arrow(Box<Con>, Box<Con>),
    /// `x :: k -> b`, or `x ::: k -> b` where the flag is true
    Poly(bool, Box<Kind>, Box<Con>),
    /// `[a ~ b] => c`
    Guarded(Box<Con>, Box<Con>, Box<Con>),
    /// `$a`
    Record(Box<Con>),
    /// `f a`
    App(Box<Con>, Box<Con>),
    /// `fn x :: k => b`
    Lambda(Box<Kind>, Box<Con>),
    /// `()`
    UnitCon,
    /// `#X`
    Name(Sym),
    /// A row literal, whose values have this kind.
    Row(Box<Kind>, Pairs),
    /// `a ++ b`
    Cat(Box<Con>, Box<Con>),
    /// `map`, which takes a function from the first kind to the second
    Map(Box<Kind>, Box<Kind>),
    /// `(c, ..)`
    Tuple(Cons),
    /// The component with this number, the first having 0.
    Proj(Box<Con>, u32),
}

/// A list of constructors. Contracts see it as the list `con_list (cons_tree ..)`.
#[cycle(con)]
#[derive(Drop)]
pub struct Cons {
    pub items: Vec<Con>,
}

impl Cons {
    ghost use Rattle.con_terms.specs.Trees.{con_list};
    ghost use Rattle.con_terms.specs.View.{con_tree, cons_tree};

    /// An empty list.
    pub fn new(alloc: Global) -> Cons
        ensures { con_list (cons_tree result) ≡ [] }
    {
        Cons {
            items: Vec::new(alloc),
        }
    }

    /// Puts a constructor last. Where memory ends the list stays.
    pub fn push(&mut self, c: Con) -> Result<(), AllocError>
        ensures grown { OnOk result (con_list (cons_tree self.new) ≡ con_list (cons_tree self.old) ++ con_tree c ∷ []) }
        ensures kept { OnErr result (con_list (cons_tree self.new) ≡ con_list (cons_tree self.old)) }
    {
        Ok(self.items.push(c)?)
    }

    /// How many constructors there are.
    pub fn len(&self) -> usize
        ensures { result ≡ length (con_list (cons_tree self.now)) }
    {
        self.items.len()
    }

    /// The constructor at a place.
    pub fn at(&self, i: usize) -> &Con
        requires { i < length (con_list (cons_tree self.now)) }
        ensures { slice_get (con_list (cons_tree self.now)) i ≡ Some (con_tree result.now) }
    {
        &self.items[i]
    }
}

/// A field of a row literal.
#[cycle(con)]
#[derive(Drop)]
pub struct Pair {
    pub name: Con,
    pub value: Con,
}

/// The fields of a row literal. Contracts see them as the list `pair_list (pairs_tree ..)`.
#[cycle(con)]
#[derive(Drop)]
pub struct Pairs {
    pub items: Vec<Pair>,
}

impl Pairs {
    ghost use Rattle.con_terms.specs.Trees.{pair_list};
    ghost use Rattle.con_terms.specs.View.{con_tree, pair_tree, pairs_tree};

    /// No fields.
    pub fn new(alloc: Global) -> Pairs
        ensures { pair_list (pairs_tree result) ≡ [] }
    {
        Pairs {
            items: Vec::new(alloc),
        }
    }

    /// Puts a field last. Where memory ends the list stays.
    pub fn push(&mut self, pair: Pair) -> Result<(), AllocError>
        ensures grown { OnOk result
            (pair_list (pairs_tree self.new) ≡ pair_list (pairs_tree self.old) ++ pair_tree pair ∷ []) }
        ensures kept { OnErr result (pair_list (pairs_tree self.new) ≡ pair_list (pairs_tree self.old)) }
    {
        Ok(self.items.push(pair)?)
    }

    /// How many fields there are.
    pub fn len(&self) -> usize
        ensures { result ≡ length (pair_list (pairs_tree self.now)) }
    {
        self.items.len()
    }

    /// The field at a place.
    pub fn at(&self, i: usize) -> &Pair
        requires { i < length (pair_list (pairs_tree self.now)) }
        ensures { slice_get (pair_list (pairs_tree self.now)) i ≡ Some (pair_tree result.now) }
    {
        &self.items[i]
    }
}
