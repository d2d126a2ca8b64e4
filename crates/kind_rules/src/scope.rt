//! What is in scope where a constructor stands.
//!
//! A scope is a list of what was put into it, the last first, whose tail is shared with the scopes that it grew from:
//! entering a binder or assuming a guard copies nothing of what stands in it. A guard is kept as it was seen where it
//! was assumed; a look-up shifts it once, by all binders entered since.

ghost use Rattle.std.specs.Prelude.{◌≡◌, ◌++◌, ◌<◌, ◌^◌, IfOk, OnOk, map, slice_get};
ghost use Rattle.con_terms.specs.Kinded.{assume as assumed, basic_kind, bind as bound};
ghost use Rattle.con_terms.specs.Substitution.{shift as shifted};
ghost use Rattle.con_terms.specs.View.{con_tree, kind_tree};
ghost use Rattle.disjoint_prover.specs.View.{guard_list, sides_tree};
ghost use Rattle.kind_rules.specs.Flaws.{unbound_basic, unbound_variable};
ghost use Rattle.kind_rules.specs.Rules.{or_flaw};
ghost use Rattle.kind_rules.specs.Scopes.{empty_scope, raised_by, with_basic as put_basic, with_basics as put_basics};
ghost use Rattle.kind_rules.specs.View.{basic_tree, entered, found, layers_view, maybe_kind, scope_view};
ghost use Rattle.row_normal.specs.View.{normal_tree};

use crate::flaw::Flaw;
use con_terms::{Con, Kind, Sym, copy_con, copy_kind, has_room, shift};
use disjoint_prover::{Guards, Sides};
use row_normal::Normal;
use std::alloc::{AllocError, Global};
use std::rc::Rc;

/// How many binders a guard may be seen from under.
const BINDERS: u32 = 1 << 31;

/// A basic name and its kind.
#[derive(Drop)]
pub struct Basic {
    pub name: Sym,
    pub kind: Kind,
}

/// What is put into a scope at once.
#[derive(Drop)]
pub enum Entry {
    /// A binder of this kind, which is then the innermost.
    Binder(Kind),
    /// Two rows that are apart.
    Guard(Sides),
    /// Basic names, of which the first of a name counts.
    Basics(Vec<Basic>),
}

/// What was put into a scope, the last first.
#[cycle(layers)]
#[derive(Drop)]
pub enum Layers {
    Empty,
    Over(Rc<Layer>),
}

/// What was put in last, and what was there before.
#[cycle(layers)]
#[derive(Drop)]
pub struct Layer {
    entry: Entry,
    rest: Layers,
}

/// The kinds of the binders, the assumed guards, the kinds of the basic names. Contracts see it as the record
/// `scope_view`.
#[derive(Drop)]
pub struct Scope {
    alloc: Global,
    layers: Layers,
}

impl Scope {
    /// The empty scope.
    pub fn new(alloc: Global) -> Scope
        ensures { scope_view result ≡ empty_scope }
    {
        Scope {
            alloc,
            layers: Layers::Empty,
        }
    }

    /// The same scope once more, which shares all that stands in it.
    pub fn share(&self) -> Result<Scope, AllocError>
        ensures { IfOk result (λ new. scope_view new ≡ scope_view self.now) }
    {
        Ok(Scope {
            alloc: self.alloc,
            layers: shared(&self.layers)?,
        })
    }

    /// The scope with a kind for a basic name, which from then on is the only one that counts for it.
    pub fn with_basic(&self, name: Sym, kind: &Kind) -> Result<Scope, AllocError>
        ensures { IfOk result
            (λ new. scope_view new ≡ put_basic name.number (kind_tree kind.now) (scope_view self.now)) }
    {
        let mut basics = Vec::new(self.alloc);
        let kind = copy_kind(self.alloc, kind)?;
        basics.push(Basic { name, kind })?;
        self.with_basics(basics)
    }

    /// The scope with kinds for many basic names at once, of which the first of a name counts from then on.
    pub fn with_basics(&self, basics: Vec<Basic>) -> Result<Scope, AllocError>
        ensures { IfOk result (λ new. scope_view new ≡ put_basics (map basic_tree basics.items) (scope_view self.now)) }
    {
        self.with(Entry::Basics(basics))
    }

    /// The scope with one more binder, of this kind, which is the innermost.
    pub fn bind(&self, kind: &Kind) -> Result<Scope, AllocError>
        ensures { IfOk result (λ new. scope_view new ≡ bound (kind_tree kind.now) (scope_view self.now)) }
    {
        self.with(Entry::Binder(copy_kind(self.alloc, kind)?))
    }

    /// The scope with one more guard: these two rows are apart.
    pub fn assume(&self, left: &Normal, right: &Normal) -> Result<Scope, AllocError>
        ensures { IfOk result
            (λ new. scope_view new ≡ assumed (normal_tree left.now) (normal_tree right.now) (scope_view self.now)) }
    {
        let left = copy_con(self.alloc, left.con())?;
        let right = copy_con(self.alloc, right.con())?;
        self.with(Entry::Guard(Sides { left, right }))
    }

    /// The guards as they are seen from here, the last one assumed first.
    #[tactic(auto, using(crate::proofs::Layers::raised_none))]
    pub fn guards(&self) -> Result<Guards, AllocError>
        ensures { IfOk result (λ g. guard_list g ≡ (scope_view self.now).guards) }
    {
        let mut guards = Guards::new(self.alloc);
        raise_each(self.alloc, &self.layers, 0, &mut guards)?;
        Ok(guards)
    }

    /// The scope with one more entry.
    fn with(&self, entry: Entry) -> Result<Scope, AllocError>
        ensures { IfOk result (λ new. scope_view new ≡ entered entry (scope_view self.now)) }
    {
        let rest = shared(&self.layers)?;
        let layer = Rc::new(self.alloc, Layer { entry, rest }).map_err(AllocError::from)?;
        Ok(Scope {
            alloc: self.alloc,
            layers: Layers::Over(layer),
        })
    }
}

/// The same layers once more.
fn shared(layers: &Layers) -> Result<Layers, AllocError>
    ensures { IfOk result (λ new. layers_view new ≡ layers_view layers.now) }
{
    match layers {
        Layers::Empty => Ok(Layers::Empty),
        Layers::Over(layer) => Ok(Layers::Over(layer.clone()?)),
    }
}

/// A constructor as it is seen from under so many binders more. One without room for that counts as want of memory.
fn raised(alloc: Global, c: &Con, by: u32) -> Result<Con, AllocError>
    ensures { IfOk result (λ new. con_tree new ≡ shifted by (con_tree c.now) 0) }
{
    if by >= BINDERS || !has_room(c) {
        return Err(AllocError);
    }
    shift(alloc, c, by, 0)
}

/// Both sides of a guard as they are seen from under so many binders more.
fn raised_sides(alloc: Global, s: &Sides, by: u32) -> Result<Sides, AllocError>
    ensures { IfOk result (λ new. sides_tree new ≡ raised_by by (sides_tree s.now)) }
{
    let left = raised(alloc, &s.left, by)?;
    let right = raised(alloc, &s.right, by)?;
    Ok(Sides { left, right })
}

/// Puts each guard behind these, as it is seen from under so many binders more.
#[cycle(raise_each)]
fn raise_each(
    alloc: Global,
    layers: &Layers,
    by: u32,
    guards: &mut Guards,
) -> Result<(), AllocError>
    ensures { OnOk result
        (guard_list guards.new ≡ guard_list guards.old ++ map (raised_by by) (layers_view layers.now).guards) }
{
    match layers {
        Layers::Empty => Ok(()),
        Layers::Over(layer) => match &layer.entry {
            Entry::Binder(_) => {
                if by >= BINDERS {
                    return Err(AllocError);
                }
                raise_each(alloc, &layer.rest, by + 1, guards)
            }
            Entry::Guard(sides) => {
                guards.sides.push(raised_sides(alloc, sides, by)?)?;
                raise_each(alloc, &layer.rest, by, guards)
            }
            Entry::Basics(_) => raise_each(alloc, &layer.rest, by, guards),
        },
    }
}

/// The kind of a binder; none where there are fewer.
#[cycle(kind_bound)]
fn kind_bound(alloc: Global, layers: &Layers, number: u32) -> Result<Option<Kind>, AllocError>
    ensures { IfOk result (λ o. maybe_kind o ≡ slice_get (layers_view layers.now).binders number) }
{
    match layers {
        Layers::Empty => Ok(None),
        Layers::Over(layer) => match &layer.entry {
            Entry::Binder(kind) => {
                if number == 0 {
                    Ok(Some(copy_kind(alloc, kind)?))
                } else {
                    kind_bound(alloc, &layer.rest, number - 1)
                }
            }
            _ => kind_bound(alloc, &layer.rest, number),
        },
    }
}

/// The kind of a basic name among these; none where it isn't there.
fn kind_among(alloc: Global, basics: &Vec<Basic>, name: Sym) -> Result<Option<Kind>, AllocError>
    ensures { IfOk result (λ o. maybe_kind o ≡ basic_kind (map basic_tree basics.now.items) name.number) }
{
    for i in 0..basics.len() {
        if basics[i].name.number == name.number {
            return Ok(Some(copy_kind(alloc, &basics[i].kind)?));
        }
    }
    Ok(None)
}

/// The kind of a basic name; none where it has none.
#[cycle(kind_named)]
fn kind_named(alloc: Global, layers: &Layers, name: Sym) -> Result<Option<Kind>, AllocError>
    ensures { IfOk result (λ o. maybe_kind o ≡ basic_kind (layers_view layers.now).basics name.number) }
{
    match layers {
        Layers::Empty => Ok(None),
        Layers::Over(layer) => match &layer.entry {
            Entry::Basics(basics) => match kind_among(alloc, basics, name)? {
                Some(kind) => Ok(Some(kind)),
                None => kind_named(alloc, &layer.rest, name),
            },
            _ => kind_named(alloc, &layer.rest, name),
        },
    }
}

/// The kind of the binder with this number, the innermost having 0.
pub fn kind_of_variable(
    alloc: Global,
    s: &Scope,
    number: u32,
) -> Result<Result<Kind, Flaw>, AllocError>
    ensures { IfOk result
        (λ r. found kind_tree r ≡ or_flaw (unbound_variable number) (slice_get (scope_view s.now).binders number)) }
{
    match kind_bound(alloc, &s.layers, number)? {
        Some(kind) => Ok(Ok(kind)),
        None => Ok(Err(Flaw::Variable(number))),
    }
}

/// The kind of a basic name, where the one put in last counts.
pub fn kind_of_basic(alloc: Global, s: &Scope, name: Sym) -> Result<Result<Kind, Flaw>, AllocError>
    ensures { IfOk result
        (λ r. found kind_tree r
        ≡ or_flaw (unbound_basic name.number) (basic_kind (scope_view s.now).basics name.number)) }
{
    match kind_named(alloc, &s.layers, name)? {
        Some(kind) => Ok(Ok(kind)),
        None => Ok(Err(Flaw::Basic(name))),
    }
}
