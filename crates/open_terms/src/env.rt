//! Where a term stands: what is in scope, and the number of its file.
use crate::types::bounded;
use con_elaborator::con;
use con_terms::{Con, Kind, Place, Sym};
use name_scopes::{ElabFault, Scope};
use std::alloc::{AllocError, Global};
use table_rows::Text;

/// What is in scope, and the number of the file in the list of modules.
#[derive(Drop)]
pub struct Env {
    pub scope: Scope,
    pub file: u32,
}

impl Env {
    /// The same once more, which shares all that stands in it.
    pub fn share(&self) -> Result<Env, AllocError> {
        Ok(Env {
            scope: self.scope.share()?,
            file: self.file,
        })
    }

    /// A place of the file.
    pub fn place(&self, at: u32) -> Place {
        Place {
            file: self.file,
            at,
        }
    }

    /// The symbol of a text of the source.
    pub fn symbol(&self, text: &Text) -> Result<Sym, AllocError> {
        self.scope.symbol(text.as_str())
    }

    /// A constructor of this kind.
    pub fn con(
        &self,
        alloc: Global,
        c: &plain_tree::Con,
        kind: &Kind,
        room: u32,
    ) -> Result<Con, ElabFault> {
        let names = self.scope.names();
        let (con, _) = con(alloc, &self.scope, names, self.file, c, Some(kind), room)?;
        Ok(con)
    }

    /// A constructor with its kind.
    pub fn con_and_kind(
        &self,
        alloc: Global,
        c: &plain_tree::Con,
        room: u32,
    ) -> Result<Side, ElabFault> {
        let names = self.scope.names();
        let (con, kind) = con(alloc, &self.scope, names, self.file, c, None, room)?;
        Ok(Side { con, kind })
    }

    /// With one more variable. One whose type has 100,000 nodes or more counts as want of memory.
    pub fn with_value(&self, alloc: Global, name: &Text, con: Con) -> Result<Env, AllocError> {
        Ok(Env {
            scope: self.scope.with_value(alloc, name, bounded(con)?)?,
            file: self.file,
        })
    }

    /// With one more constructor variable.
    pub fn with_con(&self, alloc: Global, name: &Text, kind: &Kind) -> Result<Env, AllocError> {
        Ok(Env {
            scope: self.scope.with_con(alloc, name, kind)?,
            file: self.file,
        })
    }

    /// With one more guard, at a place.
    pub fn with_guard(
        &self,
        alloc: Global,
        left: &Side,
        right: &Side,
        at: Place,
    ) -> Result<Env, ElabFault> {
        let scope = self
            .scope
            .with_guard(alloc, &left.con, &left.kind, &right.con, &right.kind, at)?;
        Ok(Env {
            scope,
            file: self.file,
        })
    }
}

/// A side of a guard, with its kind.
#[derive(Drop)]
pub struct Side {
    pub con: Con,
    pub kind: Kind,
}
