//! Guards that are assumed.

ghost use Rattle.std.specs.Prelude.{◌≡◌, ◌∷◌, [], map, IfOk, OnOk, OnErr};
ghost use Rattle.con_terms.specs.Trees.{Cn};
ghost use Rattle.con_terms.specs.Substitution.{shift as shifted};
ghost use Rattle.con_terms.specs.View.{con_tree};
ghost use Rattle.disjoint_prover.specs.View.{sides_tree};
ghost use Rattle.row_normal.specs.View.{normal_tree};

use con_terms::{Con, copy_con, has_room, shift};
use row_normal::Normal;
use std::alloc::{AllocError, Global};

/// The two sides of a guard, as normal forms.
#[derive(Drop)]
pub struct Sides {
    pub left: Con,
    pub right: Con,
}

/// Guards that are assumed. Contracts see them as the list `guard_list`, the last one assumed first.
#[derive(Drop)]
pub struct Guards {
    alloc: Global,
    pub sides: Vec<Sides>,
}

impl Guards {
    ghost use Rattle.disjoint_prover.specs.View.{guard_list};

    /// No guards.
    pub fn new(alloc: Global) -> Guards
        ensures { guard_list result ≡ [] }
    {
        Guards {
            alloc,
            sides: Vec::new(alloc),
        }
    }

    /// Assumes that two rows are apart.
    pub fn assume(&mut self, left: &Normal, right: &Normal) -> Result<(), AllocError>
        ensures assumed { OnOk result
            (guard_list self.new ≡ (normal_tree left.now, normal_tree right.now) ∷ guard_list self.old) }
        ensures kept { OnErr result (guard_list self.new ≡ guard_list self.old) }
    {
        let left = copy_con(self.alloc, left.con())?;
        let right = copy_con(self.alloc, right.con())?;
        self.sides.insert(0, Sides { left, right })?;
        Ok(())
    }

    /// A copy of the guards.
    pub fn copy(&self) -> Result<Guards, AllocError>
        ensures { IfOk result (λ g. guard_list g ≡ guard_list self.now) }
    {
        let mut sides = Vec::new(self.alloc);
        for i in 0..self.sides.len() {
            sides.push(copy_sides(self.alloc, &self.sides[i])?)?;
        }
        Ok(Guards {
            alloc: self.alloc,
            sides,
        })
    }

    /// The guards as they are seen from under one more binder.
    pub fn under_binder(&self) -> Result<Guards, AllocError>
        ensures { IfOk result
            (λ g. guard_list g ≡ map (λ (s : Cn × Cn). (shifted 1 s.0 0, shifted 1 s.1 0)) (guard_list self.now)) }
    {
        let mut sides = Vec::new(self.alloc);
        for i in 0..self.sides.len() {
            sides.push(raise_sides(self.alloc, &self.sides[i])?)?;
        }
        Ok(Guards {
            alloc: self.alloc,
            sides,
        })
    }
}

/// A constructor as it is seen from under one more binder. One without room for that counts as want of memory.
fn raised(alloc: Global, c: &Con) -> Result<Con, AllocError>
    ensures { IfOk result (λ new. con_tree new ≡ shifted 1 (con_tree c.now) 0) }
{
    if !has_room(c) {
        return Err(AllocError);
    }
    shift(alloc, c, 1, 0)
}

/// A copy of a guard's sides.
fn copy_sides(alloc: Global, s: &Sides) -> Result<Sides, AllocError>
    ensures { IfOk result (λ new. sides_tree new ≡ sides_tree s.now) }
{
    let left = copy_con(alloc, &s.left)?;
    let right = copy_con(alloc, &s.right)?;
    Ok(Sides { left, right })
}

/// A guard's sides as they are seen from under one more binder.
fn raise_sides(alloc: Global, s: &Sides) -> Result<Sides, AllocError>
    ensures { IfOk result
        (λ new. sides_tree new ≡ (shifted 1 (sides_tree s.now).0 0, shifted 1 (sides_tree s.now).1 0)) }
{
    let left = raised(alloc, &s.left)?;
    let right = raised(alloc, &s.right)?;
    Ok(Sides { left, right })
}
