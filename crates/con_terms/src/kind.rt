//! Kinds.

ghost use Rattle.std.specs.Prelude.{◌≡◌, ◌<◌, ◌++◌, ◌∷◌, [], Some, length, slice_get, IsTrue, ◌↔◌, IfOk, OnOk, OnErr};
ghost use Rattle.con_terms.specs.Same.{kd_eq, kds_eq};
ghost use Rattle.con_terms.specs.View.{kind_tree, kinds_tree};

use std::alloc::{AllocError, Global};

/// A kind. Contracts see it as the tree `kind_tree`.
#[cycle(kind)]
#[derive(Drop)]
pub enum Kind {
    /// `Type`
    Types,
    /// `Unit`
    Units,
    /// `Name`
    Names,
    /// `{k}`
    Row(Box<Kind>),
    /// `k -> l`
    Arrow(Box<Kind>, Box<Kind>),
    /// `(k * ..)`
    Tuple(Kinds),
}

/// A list of kinds. Contracts see it as the list `kind_list (kinds_tree ..)`.
#[cycle(kind)]
#[derive(Drop)]
pub struct Kinds {
    pub items: Vec<Kind>,
}

impl Kinds {
    ghost use Rattle.con_terms.specs.Trees.{kind_list};
    ghost use Rattle.con_terms.specs.View.{kind_tree, kinds_tree};

    /// An empty list.
    pub fn new(alloc: Global) -> Kinds
        ensures { kind_list (kinds_tree result) ≡ [] }
    {
        Kinds {
            items: Vec::new(alloc),
        }
    }

    /// Puts a kind last. Where memory ends the list stays.
    pub fn push(&mut self, kind: Kind) -> Result<(), AllocError>
        ensures grown { OnOk result
            (kind_list (kinds_tree self.new) ≡ kind_list (kinds_tree self.old) ++ kind_tree kind ∷ []) }
        ensures kept { OnErr result (kind_list (kinds_tree self.new) ≡ kind_list (kinds_tree self.old)) }
    {
        Ok(self.items.push(kind)?)
    }

    /// How many kinds there are.
    pub fn len(&self) -> usize
        ensures { result ≡ length (kind_list (kinds_tree self.now)) }
    {
        self.items.len()
    }

    /// The kind at a place.
    pub fn at(&self, i: usize) -> &Kind
        requires { i < length (kind_list (kinds_tree self.now)) }
        ensures { slice_get (kind_list (kinds_tree self.now)) i ≡ Some (kind_tree result.now) }
    {
        &self.items[i]
    }
}

/// A copy of a kind.
#[cycle(copy_kind)]
pub fn copy_kind(alloc: Global, k: &Kind) -> Result<Kind, AllocError>
    ensures { IfOk result (λ new. kind_tree new ≡ kind_tree k.now) }
{
    match k {
        Kind::Types => Ok(Kind::Types),
        Kind::Units => Ok(Kind::Units),
        Kind::Names => Ok(Kind::Names),
        Kind::Row(k) => Ok(Kind::Row(Box::new(alloc, copy_kind(alloc, k)?)?)),
        Kind::Arrow(k, l) => {
            let from = Box::new(alloc, copy_kind(alloc, k)?)?;
            let to = Box::new(alloc, copy_kind(alloc, l)?)?;
            Ok(Kind::Arrow(from, to))
        }
        Kind::Tuple(ks) => Ok(Kind::Tuple(copy_kinds(alloc, ks)?)),
    }
}

/// A copy of a list of kinds.
#[cycle(copy_kind)]
fn copy_kinds(alloc: Global, ks: &Kinds) -> Result<Kinds, AllocError>
    ensures { IfOk result (λ new. kinds_tree new ≡ kinds_tree ks.now) }
{
    let mut items = Vec::new(alloc);
    for i in 0..ks.items.len() {
        items.push(copy_kind(alloc, &ks.items[i])?)?;
    }
    Ok(Kinds { items })
}

/// Whether two kinds are one.
pub fn same_kind(a: &Kind, b: &Kind) -> bool
    ensures computed { result ≡ kd_eq (kind_tree a.now) (kind_tree b.now) }
    ensures exact { IsTrue result ↔ (kind_tree a.now ≡ kind_tree b.now) }
{
    equal(a, b)
}

/// Whether two kinds are one, node by node.
#[cycle(equal)]
fn equal(a: &Kind, b: &Kind) -> bool
    ensures { result ≡ kd_eq (kind_tree a.now) (kind_tree b.now) }
{
    match a {
        Kind::Types => matches!(b, Kind::Types),
        Kind::Units => matches!(b, Kind::Units),
        Kind::Names => matches!(b, Kind::Names),
        Kind::Row(k) => match b {
            Kind::Row(l) => equal(k, l),
            _ => false,
        },
        Kind::Arrow(k, l) => match b {
            Kind::Arrow(m, n) => equal(k, m) && equal(l, n),
            _ => false,
        },
        Kind::Tuple(ks) => match b {
            Kind::Tuple(ls) => equal_each(ks, ls),
            _ => false,
        },
    }
}

/// Whether two lists of kinds are one.
#[cycle(equal)]
fn equal_each(ks: &Kinds, ls: &Kinds) -> bool
    ensures { result ≡ kds_eq (kinds_tree ks.now) (kinds_tree ls.now) }
{
    if ks.items.len() != ls.items.len() {
        return false;
    }
    for i in 0..ks.items.len() {
        if !equal(&ks.items[i], &ls.items[i]) {
            return false;
        }
    }
    true
}
