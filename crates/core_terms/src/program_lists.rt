//! Lists of what programs are made of.
ghost use Rattle.std.specs.Prelude.{◌≡◌, ◌<◌, ◌++◌, ◌∷◌, [], Some, length, slice_get, OnOk, OnErr};

use crate::decl::{Column, Columns, Constructor, Constructors, Decl, Decls};
use crate::lists::add;
use crate::pat::{Pat, Pats};
use crate::program::{Exports, FolderName, Folders, ForeignName, Foreigns, Rule, Rules};
use std::alloc::{AllocError, Global};

impl Pats {
    ghost use Rattle.core_terms.specs.View.{pats_view, pat_tree};

    /// The empty list. It allocates nothing.
    pub fn new(alloc: Global) -> Pats
        ensures { pats_view result ≡ [] }
    {
        Pats {
            items: Vec::new(alloc),
        }
    }

    /// Adds a pattern at the end. An `Err` changes nothing.
    pub fn push(&mut self, pattern: Pat) -> Result<(), AllocError>
        ensures grown { OnOk result (pats_view self.new ≡ pats_view self.old ++ pat_tree pattern ∷ []) }
        ensures kept { OnErr result (pats_view self.new ≡ pats_view self.old) }
    {
        add(&mut self.items, pattern)
    }

    /// The number of patterns.
    pub fn len(&self) -> usize
        ensures { result ≡ length (pats_view self.now) }
    {
        self.items.len()
    }

    /// The pattern at this place, counted from 0.
    pub fn at(&self, i: usize) -> &Pat
        requires { i < length (pats_view self.now) }
        ensures { slice_get (pats_view self.now) i ≡ Some (pat_tree result.now) }
    {
        &self.items[i]
    }
}

impl Constructors {
    ghost use Rattle.core_terms.specs.Lists.{constructors_view};
    ghost use Rattle.core_terms.specs.View.{constructor_view};

    /// The empty list. It allocates nothing.
    pub fn new(alloc: Global) -> Constructors
        ensures { constructors_view result ≡ [] }
    {
        Constructors {
            items: Vec::new(alloc),
        }
    }

    /// Adds a constructor at the end. An `Err` changes nothing.
    pub fn push(&mut self, constructor: Constructor) -> Result<(), AllocError>
        ensures grown { OnOk result (constructors_view self.new
            ≡ constructors_view self.old ++ constructor_view constructor ∷ []) }
        ensures kept { OnErr result (constructors_view self.new ≡ constructors_view self.old) }
    {
        add(&mut self.items, constructor)
    }

    /// The number of constructors.
    pub fn len(&self) -> usize
        ensures { result ≡ length (constructors_view self.now) }
    {
        self.items.len()
    }

    /// The constructor at this place, counted from 0.
    pub fn at(&self, i: usize) -> &Constructor
        requires { i < length (constructors_view self.now) }
        ensures { slice_get (constructors_view self.now) i ≡ Some (constructor_view result.now) }
    {
        &self.items[i]
    }
}

impl Columns {
    ghost use Rattle.core_terms.specs.Lists.{columns_view};
    ghost use Rattle.core_terms.specs.View.{column_view};

    /// The empty list. It allocates nothing.
    pub fn new(alloc: Global) -> Columns
        ensures { columns_view result ≡ [] }
    {
        Columns {
            items: Vec::new(alloc),
        }
    }

    /// Adds a column at the end. An `Err` changes nothing.
    pub fn push(&mut self, column: Column) -> Result<(), AllocError>
        ensures grown { OnOk result (columns_view self.new ≡ columns_view self.old ++ column_view column ∷ []) }
        ensures kept { OnErr result (columns_view self.new ≡ columns_view self.old) }
    {
        add(&mut self.items, column)
    }

    /// The number of columns.
    pub fn len(&self) -> usize
        ensures { result ≡ length (columns_view self.now) }
    {
        self.items.len()
    }

    /// The column at this place, counted from 0.
    pub fn at(&self, i: usize) -> &Column
        requires { i < length (columns_view self.now) }
        ensures { slice_get (columns_view self.now) i ≡ Some (column_view result.now) }
    {
        &self.items[i]
    }
}

impl Decls {
    ghost use Rattle.core_terms.specs.View.{decls_view, decl_tree};

    /// The empty list. It allocates nothing.
    pub fn new(alloc: Global) -> Decls
        ensures { decls_view result ≡ [] }
    {
        Decls {
            items: Vec::new(alloc),
        }
    }

    /// Adds a declaration at the end. An `Err` changes nothing.
    pub fn push(&mut self, declaration: Decl) -> Result<(), AllocError>
        ensures grown { OnOk result (decls_view self.new ≡ decls_view self.old ++ decl_tree declaration ∷ []) }
        ensures kept { OnErr result (decls_view self.new ≡ decls_view self.old) }
    {
        add(&mut self.items, declaration)
    }

    /// The number of declarations.
    pub fn len(&self) -> usize
        ensures { result ≡ length (decls_view self.now) }
    {
        self.items.len()
    }

    /// The declaration at this place, counted from 0.
    pub fn at(&self, i: usize) -> &Decl
        requires { i < length (decls_view self.now) }
        ensures { slice_get (decls_view self.now) i ≡ Some (decl_tree result.now) }
    {
        &self.items[i]
    }
}

impl Rules {
    ghost use Rattle.core_terms.specs.Lists.{rules_view};
    ghost use Rattle.core_terms.specs.View.{rule_view};

    /// The empty list. It allocates nothing.
    pub fn new(alloc: Global) -> Rules
        ensures { rules_view result ≡ [] }
    {
        Rules {
            items: Vec::new(alloc),
        }
    }

    /// Adds a rule at the end. An `Err` changes nothing.
    pub fn push(&mut self, rule: Rule) -> Result<(), AllocError>
        ensures grown { OnOk result (rules_view self.new ≡ rules_view self.old ++ rule_view rule ∷ []) }
        ensures kept { OnErr result (rules_view self.new ≡ rules_view self.old) }
    {
        add(&mut self.items, rule)
    }

    /// The number of rules.
    pub fn len(&self) -> usize
        ensures { result ≡ length (rules_view self.now) }
    {
        self.items.len()
    }

    /// The rule at this place, counted from 0.
    pub fn at(&self, i: usize) -> &Rule
        requires { i < length (rules_view self.now) }
        ensures { slice_get (rules_view self.now) i ≡ Some (rule_view result.now) }
    {
        &self.items[i]
    }
}

impl Foreigns {
    ghost use Rattle.core_terms.specs.Lists.{foreigns_view};
    ghost use Rattle.core_terms.specs.View.{foreign_view};

    /// The empty list. It allocates nothing.
    pub fn new(alloc: Global) -> Foreigns
        ensures { foreigns_view result ≡ [] }
    {
        Foreigns {
            items: Vec::new(alloc),
        }
    }

    /// Adds a effect at the end. An `Err` changes nothing.
    pub fn push(&mut self, effect: ForeignName) -> Result<(), AllocError>
        ensures grown { OnOk result (foreigns_view self.new ≡ foreigns_view self.old ++ foreign_view effect ∷ []) }
        ensures kept { OnErr result (foreigns_view self.new ≡ foreigns_view self.old) }
    {
        add(&mut self.items, effect)
    }

    /// The number of effects.
    pub fn len(&self) -> usize
        ensures { result ≡ length (foreigns_view self.now) }
    {
        self.items.len()
    }

    /// The effect at this place, counted from 0.
    pub fn at(&self, i: usize) -> &ForeignName
        requires { i < length (foreigns_view self.now) }
        ensures { slice_get (foreigns_view self.now) i ≡ Some (foreign_view result.now) }
    {
        &self.items[i]
    }
}

impl Folders {
    ghost use Rattle.core_terms.specs.Lists.{folders_view};
    ghost use Rattle.core_terms.specs.View.{folder_view};

    /// The empty list. It allocates nothing.
    pub fn new(alloc: Global) -> Folders
        ensures { folders_view result ≡ [] }
    {
        Folders {
            items: Vec::new(alloc),
        }
    }

    /// Adds a folder at the end. An `Err` changes nothing.
    pub fn push(&mut self, folder: FolderName) -> Result<(), AllocError>
        ensures grown { OnOk result (folders_view self.new ≡ folders_view self.old ++ folder_view folder ∷ []) }
        ensures kept { OnErr result (folders_view self.new ≡ folders_view self.old) }
    {
        add(&mut self.items, folder)
    }

    /// The number of folders.
    pub fn len(&self) -> usize
        ensures { result ≡ length (folders_view self.now) }
    {
        self.items.len()
    }

    /// The folder at this place, counted from 0.
    pub fn at(&self, i: usize) -> &FolderName
        requires { i < length (folders_view self.now) }
        ensures { slice_get (folders_view self.now) i ≡ Some (folder_view result.now) }
    {
        &self.items[i]
    }
}

impl Exports {
    ghost use Rattle.std.specs.List.{slice_index_or};

    /// The empty list. It allocates nothing.
    pub fn new(alloc: Global) -> Exports
        ensures { result.items.items ≡ [] }
    {
        Exports {
            items: Vec::new(alloc),
        }
    }

    /// Adds a value's number at the end. An `Err` changes nothing.
    pub fn push(&mut self, number: u32) -> Result<(), AllocError>
        ensures grown { OnOk result (self.new.items.items ≡ self.old.items.items ++ number ∷ []) }
        ensures kept { OnErr result (self.new.items.items ≡ self.old.items.items) }
    {
        add(&mut self.items, number)
    }

    /// The number of values.
    pub fn len(&self) -> usize
        ensures { result ≡ length self.now.items.items }
    {
        self.items.len()
    }

    /// The value's number at this place, counted from 0.
    pub fn at(&self, i: usize) -> u32
        requires { i < length self.now.items.items }
        ensures { slice_get self.now.items.items i ≡ Some result }
    {
        self.items[i]
    }
}
