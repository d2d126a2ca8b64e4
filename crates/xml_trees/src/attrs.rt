//! The attributes of a tag.
ghost use Rattle.std.specs.Prelude.{◌≡◌, ℕ, List, [], ◌∷◌, ◌++◌, IfOk, OnOk, OnErr};

use std::alloc::{AllocError, Global};
use std::marker::Model;
use table_rows::Text;

/// An attribute with its value. `Link` and `Action` hold the text of a link.
#[derive(Debug, Drop)]
pub enum Attr {
    Title(Text),
    Link(Text),
    Href(Text),
    Src(Text),
    Alt(Text),
    Border(i64),
    Value(Text),
    Size(i64),
    Action(Text),
}

impl Attr {
    /// Another attribute like this one.
    pub fn copy(&self, alloc: Global) -> Result<Attr, AllocError>
        ensures { IfOk result (λ made. made ≡ self.now) }
    {
        Ok(match self {
            Attr::Title(text) => Attr::Title(text.copy(alloc)?),
            Attr::Link(text) => Attr::Link(text.copy(alloc)?),
            Attr::Href(text) => Attr::Href(text.copy(alloc)?),
            Attr::Src(text) => Attr::Src(text.copy(alloc)?),
            Attr::Alt(text) => Attr::Alt(text.copy(alloc)?),
            Attr::Border(number) => Attr::Border(*number),
            Attr::Value(text) => Attr::Value(text.copy(alloc)?),
            Attr::Size(number) => Attr::Size(*number),
            Attr::Action(text) => Attr::Action(text.copy(alloc)?),
        })
    }
}

/// The attributes of a tag, in the order in which they are written. Contracts see the list of them.
#[derive(Debug, Drop)]
pub struct Attrs {
    items: Vec<Attr>,
}

impl Model for Attrs {
    ghost use Rattle.std.specs.Prelude.{List};
    ghost use Rattle.xml_trees.specs.declared.attrs.Attr.{Attr};

    ghost Value = { List Attr };

    ghost view = { λ attrs. attrs.items.items };
}

impl Attrs {
    /// No attribute. It allocates nothing.
    pub fn new(alloc: Global) -> Attrs
        ensures { result ≡ [] }
    {
        Attrs {
            items: Vec::new(alloc),
        }
    }

    /// Adds an attribute at the end. An `Err` changes nothing.
    pub fn push(&mut self, attr: Attr) -> Result<(), AllocError>
        ensures ok { OnOk result (self.new ≡ self.old ++ attr ∷ []) }
        ensures err { OnErr result (self.new ≡ self.old) }
    {
        self.items.push(attr)?;
        Ok(())
    }

    /// The attributes as a slice.
    pub fn as_slice(&self) -> &[Attr]
        ensures { result.now ≡ self.now }
    {
        self.items.as_slice()
    }

    /// Other attributes like these.
    pub fn copy(&self, alloc: Global) -> Result<Attrs, AllocError>
        ensures { IfOk result (λ made. made ≡ self.now) }
    {
        let mut made = Attrs::new(alloc);
        for attr in &self.items {
            made.push(attr.copy(alloc)?)?;
        }
        Ok(made)
    }
}
