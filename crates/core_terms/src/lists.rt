//! Lists of what terms are made of: the empty one, a further element, the number, one of them.
ghost use Rattle.std.specs.Prelude.{◌≡◌, ◌<◌, ◌++◌, ◌∷◌, [], Some, length, slice_get, OnOk, OnErr};

use crate::exp::{
    Attribute, Attributes, Branch, Branches, Exp, Exps, Field, Fields, Item, Items, Local, Locals,
    Named, NamedList, Node, Nodes,
};
use crate::pat::{PatField, PatFields};
use std::alloc::{AllocError, Global};

/// Adds an element at the end. An `Err` changes nothing. What is added is let go here where there is no memory for it,
/// so that no list does so for the wide type of its own elements.
pub(crate) fn add<T: Drop>(items: &mut Vec<T>, item: T) -> Result<(), AllocError>
    ensures grown { OnOk result (items.new.items ≡ items.old.items ++ item ∷ []) }
    ensures kept { OnErr result (items.new.items ≡ items.old.items) }
{
    Ok(items.push(item)?)
}

impl Items {
    ghost use Rattle.core_terms.specs.Lists.{item_list, item_tree};
    ghost use Rattle.core_terms.specs.View.{items_tree};

    /// The empty list. It allocates nothing.
    pub fn new(alloc: Global) -> Items
        ensures { item_list (items_tree result) ≡ [] }
    {
        Items {
            items: Vec::new(alloc),
        }
    }

    /// Adds a item at the end. An `Err` changes nothing.
    pub fn push(&mut self, item: Item) -> Result<(), AllocError>
        ensures grown { OnOk result (item_list (items_tree self.new)
            ≡ item_list (items_tree self.old) ++ item_tree item ∷ []) }
        ensures kept { OnErr result (item_list (items_tree self.new) ≡ item_list (items_tree self.old)) }
    {
        add(&mut self.items, item)
    }

    /// The number of items.
    pub fn len(&self) -> usize
        ensures { result ≡ length (item_list (items_tree self.now)) }
    {
        self.items.len()
    }

    /// The item at this place, counted from 0.
    pub fn at(&self, i: usize) -> &Item
        requires { i < length (item_list (items_tree self.now)) }
        ensures { slice_get (item_list (items_tree self.now)) i ≡ Some (item_tree result.now) }
    {
        &self.items[i]
    }
}

impl NamedList {
    ghost use Rattle.core_terms.specs.Lists.{name_list};
    ghost use Rattle.core_terms.specs.View.{named_list_tree, named_tree};

    /// The empty list. It allocates nothing.
    pub fn new(alloc: Global) -> NamedList
        ensures { name_list (named_list_tree result) ≡ [] }
    {
        NamedList {
            items: Vec::new(alloc),
        }
    }

    /// Adds a name at the end. An `Err` changes nothing.
    pub fn push(&mut self, name: Named) -> Result<(), AllocError>
        ensures grown { OnOk result (name_list (named_list_tree self.new)
            ≡ name_list (named_list_tree self.old) ++ named_tree name ∷ []) }
        ensures kept { OnErr result (name_list (named_list_tree self.new) ≡ name_list (named_list_tree self.old)) }
    {
        add(&mut self.items, name)
    }

    /// The number of names.
    pub fn len(&self) -> usize
        ensures { result ≡ length (name_list (named_list_tree self.now)) }
    {
        self.items.len()
    }

    /// The name at this place, counted from 0.
    pub fn at(&self, i: usize) -> &Named
        requires { i < length (name_list (named_list_tree self.now)) }
        ensures { slice_get (name_list (named_list_tree self.now)) i ≡ Some (named_tree result.now) }
    {
        &self.items[i]
    }
}

impl Locals {
    ghost use Rattle.core_terms.specs.Lists.{local_list, local_tree};
    ghost use Rattle.core_terms.specs.View.{locals_tree};

    /// The empty list. It allocates nothing.
    pub fn new(alloc: Global) -> Locals
        ensures { local_list (locals_tree result) ≡ [] }
    {
        Locals {
            items: Vec::new(alloc),
        }
    }

    /// Adds a declaration at the end. An `Err` changes nothing.
    pub fn push(&mut self, declaration: Local) -> Result<(), AllocError>
        ensures grown { OnOk result (local_list (locals_tree self.new)
            ≡ local_list (locals_tree self.old) ++ local_tree declaration ∷ []) }
        ensures kept { OnErr result (local_list (locals_tree self.new) ≡ local_list (locals_tree self.old)) }
    {
        add(&mut self.items, declaration)
    }

    /// The number of declarations.
    pub fn len(&self) -> usize
        ensures { result ≡ length (local_list (locals_tree self.now)) }
    {
        self.items.len()
    }

    /// The declaration at this place, counted from 0.
    pub fn at(&self, i: usize) -> &Local
        requires { i < length (local_list (locals_tree self.now)) }
        ensures { slice_get (local_list (locals_tree self.now)) i ≡ Some (local_tree result.now) }
    {
        &self.items[i]
    }
}

impl Branches {
    ghost use Rattle.core_terms.specs.Lists.{branch_list, branch_tree};
    ghost use Rattle.core_terms.specs.View.{branches_tree};

    /// The empty list. It allocates nothing.
    pub fn new(alloc: Global) -> Branches
        ensures { branch_list (branches_tree result) ≡ [] }
    {
        Branches {
            items: Vec::new(alloc),
        }
    }

    /// Adds a branch at the end. An `Err` changes nothing.
    pub fn push(&mut self, branch: Branch) -> Result<(), AllocError>
        ensures grown { OnOk result (branch_list (branches_tree self.new)
            ≡ branch_list (branches_tree self.old) ++ branch_tree branch ∷ []) }
        ensures kept { OnErr result (branch_list (branches_tree self.new) ≡ branch_list (branches_tree self.old)) }
    {
        add(&mut self.items, branch)
    }

    /// The number of branches.
    pub fn len(&self) -> usize
        ensures { result ≡ length (branch_list (branches_tree self.now)) }
    {
        self.items.len()
    }

    /// The branch at this place, counted from 0.
    pub fn at(&self, i: usize) -> &Branch
        requires { i < length (branch_list (branches_tree self.now)) }
        ensures { slice_get (branch_list (branches_tree self.now)) i ≡ Some (branch_tree result.now) }
    {
        &self.items[i]
    }
}

impl Fields {
    ghost use Rattle.core_terms.specs.Lists.{field_list, field_tree};
    ghost use Rattle.core_terms.specs.View.{fields_tree};

    /// The empty list. It allocates nothing.
    pub fn new(alloc: Global) -> Fields
        ensures { field_list (fields_tree result) ≡ [] }
    {
        Fields {
            items: Vec::new(alloc),
        }
    }

    /// Adds a field at the end. An `Err` changes nothing.
    pub fn push(&mut self, field: Field) -> Result<(), AllocError>
        ensures grown { OnOk result (field_list (fields_tree self.new)
            ≡ field_list (fields_tree self.old) ++ field_tree field ∷ []) }
        ensures kept { OnErr result (field_list (fields_tree self.new) ≡ field_list (fields_tree self.old)) }
    {
        add(&mut self.items, field)
    }

    /// The number of fields.
    pub fn len(&self) -> usize
        ensures { result ≡ length (field_list (fields_tree self.now)) }
    {
        self.items.len()
    }

    /// The field at this place, counted from 0.
    pub fn at(&self, i: usize) -> &Field
        requires { i < length (field_list (fields_tree self.now)) }
        ensures { slice_get (field_list (fields_tree self.now)) i ≡ Some (field_tree result.now) }
    {
        &self.items[i]
    }
}

impl Attributes {
    ghost use Rattle.core_terms.specs.Lists.{attribute_list, attribute_tree};
    ghost use Rattle.core_terms.specs.View.{attributes_tree};

    /// The empty list. It allocates nothing.
    pub fn new(alloc: Global) -> Attributes
        ensures { attribute_list (attributes_tree result) ≡ [] }
    {
        Attributes {
            items: Vec::new(alloc),
        }
    }

    /// Adds a attribute at the end. An `Err` changes nothing.
    pub fn push(&mut self, attribute: Attribute) -> Result<(), AllocError>
        ensures grown { OnOk result (attribute_list (attributes_tree self.new)
            ≡ attribute_list (attributes_tree self.old) ++ attribute_tree attribute ∷ []) }
        ensures kept { OnErr result (attribute_list (attributes_tree self.new)
            ≡ attribute_list (attributes_tree self.old)) }
    {
        add(&mut self.items, attribute)
    }

    /// The number of attributes.
    pub fn len(&self) -> usize
        ensures { result ≡ length (attribute_list (attributes_tree self.now)) }
    {
        self.items.len()
    }

    /// The attribute at this place, counted from 0.
    pub fn at(&self, i: usize) -> &Attribute
        requires { i < length (attribute_list (attributes_tree self.now)) }
        ensures { slice_get (attribute_list (attributes_tree self.now)) i ≡ Some (attribute_tree result.now) }
    {
        &self.items[i]
    }
}

impl Exps {
    ghost use Rattle.core_terms.specs.Lists.{exp_list};
    ghost use Rattle.core_terms.specs.View.{exps_tree, exp_tree};

    /// The empty list. It allocates nothing.
    pub fn new(alloc: Global) -> Exps
        ensures { exp_list (exps_tree result) ≡ [] }
    {
        Exps {
            items: Vec::new(alloc),
        }
    }

    /// Adds a term at the end. An `Err` changes nothing.
    pub fn push(&mut self, term: Exp) -> Result<(), AllocError>
        ensures grown { OnOk result (exp_list (exps_tree self.new)
            ≡ exp_list (exps_tree self.old) ++ exp_tree term ∷ []) }
        ensures kept { OnErr result (exp_list (exps_tree self.new) ≡ exp_list (exps_tree self.old)) }
    {
        add(&mut self.items, term)
    }

    /// The number of terms.
    pub fn len(&self) -> usize
        ensures { result ≡ length (exp_list (exps_tree self.now)) }
    {
        self.items.len()
    }

    /// The term at this place, counted from 0.
    pub fn at(&self, i: usize) -> &Exp
        requires { i < length (exp_list (exps_tree self.now)) }
        ensures { slice_get (exp_list (exps_tree self.now)) i ≡ Some (exp_tree result.now) }
    {
        &self.items[i]
    }
}

impl Nodes {
    ghost use Rattle.core_terms.specs.Lists.{node_list, node_tree};
    ghost use Rattle.core_terms.specs.View.{nodes_tree};

    /// The empty list. It allocates nothing.
    pub fn new(alloc: Global) -> Nodes
        ensures { node_list (nodes_tree result) ≡ [] }
    {
        Nodes {
            items: Vec::new(alloc),
        }
    }

    /// Adds a node at the end. An `Err` changes nothing.
    pub fn push(&mut self, node: Node) -> Result<(), AllocError>
        ensures grown { OnOk result (node_list (nodes_tree self.new)
            ≡ node_list (nodes_tree self.old) ++ node_tree node ∷ []) }
        ensures kept { OnErr result (node_list (nodes_tree self.new) ≡ node_list (nodes_tree self.old)) }
    {
        add(&mut self.items, node)
    }

    /// The number of nodes.
    pub fn len(&self) -> usize
        ensures { result ≡ length (node_list (nodes_tree self.now)) }
    {
        self.items.len()
    }

    /// The node at this place, counted from 0.
    pub fn at(&self, i: usize) -> &Node
        requires { i < length (node_list (nodes_tree self.now)) }
        ensures { slice_get (node_list (nodes_tree self.now)) i ≡ Some (node_tree result.now) }
    {
        &self.items[i]
    }
}

impl PatFields {
    ghost use Rattle.core_terms.specs.Lists.{pat_field_list, pat_field_tree};
    ghost use Rattle.core_terms.specs.View.{pat_fields_tree};

    /// The empty list. It allocates nothing.
    pub fn new(alloc: Global) -> PatFields
        ensures { pat_field_list (pat_fields_tree result) ≡ [] }
    {
        PatFields {
            items: Vec::new(alloc),
        }
    }

    /// Adds a field at the end. An `Err` changes nothing.
    pub fn push(&mut self, field: PatField) -> Result<(), AllocError>
        ensures grown { OnOk result (pat_field_list (pat_fields_tree self.new)
            ≡ pat_field_list (pat_fields_tree self.old) ++ pat_field_tree field ∷ []) }
        ensures kept { OnErr result (pat_field_list (pat_fields_tree self.new)
            ≡ pat_field_list (pat_fields_tree self.old)) }
    {
        add(&mut self.items, field)
    }

    /// The number of fields.
    pub fn len(&self) -> usize
        ensures { result ≡ length (pat_field_list (pat_fields_tree self.now)) }
    {
        self.items.len()
    }

    /// The field at this place, counted from 0.
    pub fn at(&self, i: usize) -> &PatField
        requires { i < length (pat_field_list (pat_fields_tree self.now)) }
        ensures { slice_get (pat_field_list (pat_fields_tree self.now)) i ≡ Some (pat_field_tree result.now) }
    {
        &self.items[i]
    }
}
