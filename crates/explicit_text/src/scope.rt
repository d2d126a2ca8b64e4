//! The names that are in scope where the text ends.
use crate::implicits::has_implicits;
use crate::known::Known;
use con_terms::{Con, Kind, Sym};
use std::alloc::{AllocError, Global};
use table_rows::Text;

/// A variable that is in scope: its name, and whether its type has implicit parameters.
#[derive(Drop)]
pub struct Variable {
    pub name: Text,
    pub implicit: bool,
}

/// What is in scope.
#[derive(Drop)]
pub struct Scope {
    alloc: Global,
    /// The names of the constructor variables, the innermost last.
    cons: Vec<Text>,
    /// The variables, the innermost last.
    values: Vec<Variable>,
}

/// What a variable of a kind is called where its source's name is lost.
fn custom_name(kind: &Kind) -> &'static str {
    match kind {
        Kind::Types => "t",
        Kind::Names => "nm",
        Kind::Row(_) => "r",
        Kind::Arrow(_, _) => "f",
        _ => "c",
    }
}

/// A name with a number behind it; 0 isn't written.
fn numbered(alloc: Global, base: &str, number: u32) -> Result<Text, AllocError> {
    let mut name = Text::of(alloc, base)?;
    if number > 0 {
        let digits = number.to_string(alloc)?;
        name.push_str(digits.as_str())?;
    }
    Ok(name)
}

/// The place of what so many others lie inside of, in a list of this length.
fn place_of(length: usize, number: u32) -> Option<usize> {
    length.checked_sub((number as usize).saturating_add(1))
}

impl Scope {
    /// Nothing is in scope.
    pub fn new(alloc: Global) -> Scope {
        Scope {
            alloc,
            cons: Vec::new(alloc),
            values: Vec::new(alloc),
        }
    }

    /// Whether a constructor variable in scope has this name.
    fn is_taken(&self, name: &str) -> bool {
        for other in self.cons.iter() {
            if other.as_str() == name {
                return true;
            }
        }
        false
    }

    /// A name that no constructor variable in scope has.
    fn new_name(&self, base: &str) -> Result<Text, AllocError> {
        for number in 0..u32::MAX {
            let name = numbered(self.alloc, base, number)?;
            if !self.is_taken(name.as_str()) {
                return Ok(name);
            }
        }
        Err(AllocError)
    }

    /// Puts a constructor variable into scope under a name that no other one in scope has.
    pub fn bind_new(&mut self, kind: &Kind) -> Result<(), AllocError> {
        let name = self.new_name(custom_name(kind))?;
        self.cons.push(name)?;
        Ok(())
    }

    /// Puts a constructor variable into scope under its name.
    pub fn bind_con(&mut self, known: &Known, name: Sym) -> Result<(), AllocError> {
        let name = Text::of(self.alloc, known.text(name))?;
        self.cons.push(name)?;
        Ok(())
    }

    /// The innermost constructor variable leaves the scope.
    pub fn leave_con(&mut self) {
        let _ = self.cons.pop();
    }

    /// The name of a constructor variable; `_` where there is none.
    pub fn con_name(&self, number: u32) -> &str {
        match place_of(self.cons.len(), number) {
            Some(place) => {
                match self.cons.get(place) {
                    Some(name) => name.as_str(),
                    None => "_",
                }
            }
            None => "_",
        }
    }

    /// Puts a variable into scope. `con` is its type.
    pub fn bind_value(&mut self, known: &Known, name: Sym, con: &Con) -> Result<(), AllocError> {
        let implicit = has_implicits(known, con);
        let name = Text::of(self.alloc, known.text(name))?;
        self.values.push(Variable { name, implicit })?;
        Ok(())
    }

    /// How many variables are in scope.
    pub fn depth(&self) -> usize {
        self.values.len()
    }

    /// All but the outermost variables leave the scope.
    pub fn leave_values(&mut self, outside: usize) {
        self.values.truncate(outside);
    }

    /// A variable.
    pub fn value(&self, number: u32) -> Option<&Variable> {
        let place = place_of(self.values.len(), number)?;
        self.values.get(place)
    }
}
