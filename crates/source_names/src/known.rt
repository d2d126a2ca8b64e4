//! What is declared so far.
ghost use Rattle.std.specs.Prelude.{◌≡◌, ◌-◌, ◌≤◌, ◌&&◌, nat_le, length, map, reverse, take, option_map, OnOk, if◌then◌else◌};
ghost use Rattle.std.specs.Str.{bytes_eq};
ghost use Rattle.con_terms.specs.View.{con_tree};
ghost use Rattle.source_names.specs.Scopes as scopes;
ghost use Rattle.source_names.specs.Standing as standing;
ghost use Rattle.source_names.specs.View.{builder_found, declared_view};

use crate::marked::{KnownBuilder, KnownType, KnownValue, is_builder, is_type, is_value, mark_of};
use con_terms::{Con, Sym, copy_con};
use plain_tree::Path;
use std::alloc::{AllocError, Global};
use table_rows::Text;

/// What is declared so far, the latest last. Contracts see it as `declared_view`.
#[derive(Drop)]
pub struct Known {
    /// The modules' names, as they are given. A path names them with a capital.
    pub modules: Vec<Text>,
    pub values: Vec<KnownValue>,
    pub types: Vec<KnownType>,
    pub builders: Vec<KnownBuilder>,
}

/// A letter, or its capital where it is a small one.
fn capital_letter(letter: u8) -> u8
    ensures { result ≡ (if nat_le 97 letter && nat_le letter 122 then letter - 32 else letter) }
{
    if 97 <= letter && letter <= 122 {
        letter - 32
    } else {
        letter
    }
}

/// Whether a text is a name with its first letter a capital.
fn is_capital_of(text: &Text, name: &Text) -> bool
    ensures { result ≡ bytes_eq (scopes.capital name.now) text.now }
{
    if text.len() != name.len() {
        return false;
    }
    is_capital(name.as_bytes(), text.as_bytes())
}

/// The same for the bytes of both.
fn is_capital(name: &[u8], text: &[u8]) -> bool
    ensures { result ≡ bytes_eq (scopes.capital name.now) text.now }
{
    match name {
        [] => text.is_empty(),
        [letter, rest @ ..] => match text {
            [] => false,
            [first, others @ ..] => capital_letter(*letter) == *first && rest == others,
        },
    }
}

impl Known {
    /// Nothing declared.
    pub fn new(alloc: Global) -> Known
        ensures { declared_view result ≡ scopes.nothing_declared }
    {
        Known {
            modules: Vec::new(alloc),
            values: Vec::new(alloc),
            types: Vec::new(alloc),
            builders: Vec::new(alloc),
        }
    }

    /// The number of the module that is read.
    pub fn last_home(&self) -> usize
        ensures { result ≡ scopes.last_home (declared_view self.now).modules }
    {
        self.modules.len().saturating_sub(1)
    }

    /// Begins the next module.
    pub fn begin_module(&mut self, alloc: Global, name: &Text) -> Result<(), AllocError>
        ensures { OnOk result (declared_view self.new ≡ scopes.begin_module name.now (declared_view self.old)) }
    {
        let name = name.copy(alloc)?;
        self.modules.push(name)?;
        Ok(())
    }

    /// Declares a value in the module that is read.
    pub fn add_value(&mut self, alloc: Global, name: &Text) -> Result<(), AllocError>
        ensures { OnOk result (declared_view self.new ≡ scopes.declare_value name.now (declared_view self.old)) }
    {
        let home = self.last_home();
        let name = name.copy(alloc)?;
        let mark = mark_of(&name);
        self.values.push(KnownValue { home, mark, name })?;
        Ok(())
    }

    /// Declares a name of the type level in the module that is read. What it means is copied.
    pub fn add_type(&mut self, alloc: Global, name: &Text, means: &Con) -> Result<(), AllocError>
        ensures { OnOk result (declared_view self.new ≡
            scopes.declare_type name.now (con_tree means.now) (declared_view self.old)) }
    {
        let home = self.last_home();
        let name = name.copy(alloc)?;
        let mark = mark_of(&name);
        let means = copy_con(alloc, means)?;
        self.types.push(KnownType {
            home,
            mark,
            name,
            means,
        })?;
        Ok(())
    }

    /// Declares a constructor of a datatype in the module that is read.
    pub fn add_builder(
        &mut self,
        alloc: Global,
        name: &Text,
        datatype: Sym,
        index: u32,
    ) -> Result<(), AllocError>
        ensures { OnOk result (declared_view self.new ≡
            scopes.declare_builder name.now datatype.number index (declared_view self.old)) }
    {
        let home = self.last_home();
        let name = name.copy(alloc)?;
        let mark = mark_of(&name);
        self.builders.push(KnownBuilder {
            home,
            mark,
            name,
            datatype,
            index,
        })?;
        Ok(())
    }

    /// The number of the first of so many modules that a name with a capital is the one of.
    fn module_named(&self, name: &Text, count: usize) -> Option<usize>
        requires { count ≤ length self.now.modules.items }
        ensures { result ≡ standing.module_named name.now
            (reverse (map scopes.capital (take count self.now.modules.items))) }
    {
        let mut found = None;
        let mut left = count;
        while left > 0 {
            left -= 1;
            if is_capital_of(name, &self.modules[left]) {
                found = Some(left);
            }
        }
        found
    }

    /// The number of the module that a path leads to.
    fn home_of(&self, path: &Path) -> Option<usize>
        ensures { result ≡ standing.home_of path.now.modules (declared_view self.now).modules }
    {
        let count = self.modules.len();
        if count == 0 {
            return None;
        }
        match path.modules.items.as_slice() {
            [] => Some(count - 1),
            [home] => self.module_named(home, count - 1),
            _ => None,
        }
    }

    /// The number of the latest value of a name in a module.
    pub fn value_in(&self, name: &Text, home: usize) -> Option<usize>
        ensures { result ≡ standing.value_in name.now (declared_view self.now).values home }
    {
        let mark = mark_of(name);
        let mut left = self.values.len();
        while left > 0 {
            left -= 1;
            if is_value(&self.values[left], home, mark, name) {
                return Some(left);
            }
        }
        None
    }

    /// The number of the latest value that a path leads to.
    pub(crate) fn value(&self, path: &Path) -> Option<usize>
        ensures { result ≡ standing.in_home (standing.home_of path.now.modules (declared_view self.now).modules)
            (standing.value_in path.now.name (declared_view self.now).values) }
    {
        let home = self.home_of(path)?;
        self.value_in(&path.name, home)
    }

    /// The latest name of the type level in a module.
    fn type_in(&self, name: &Text, home: usize) -> Option<&KnownType>
        ensures { option_map (λ t. con_tree t.now.means) result
            ≡ standing.type_in name.now (declared_view self.now).types home }
    {
        let mark = mark_of(name);
        let mut left = self.types.len();
        while left > 0 {
            left -= 1;
            let known = &self.types[left];
            if is_type(known, home, mark, name) {
                return Some(known);
            }
        }
        None
    }

    /// The latest name of the type level that a path leads to.
    pub(crate) fn type_at(&self, path: &Path) -> Option<&KnownType>
        ensures { option_map (λ t. con_tree t.now.means) result
            ≡ standing.in_home (standing.home_of path.now.modules (declared_view self.now).modules)
            (standing.type_in path.now.name (declared_view self.now).types) }
    {
        let home = self.home_of(path)?;
        self.type_in(&path.name, home)
    }

    /// The latest constructor of a name in a module.
    fn builder_in(&self, name: &Text, home: usize) -> Option<&KnownBuilder>
        ensures { option_map (λ b. builder_found b.now) result
            ≡ standing.builder_in name.now (declared_view self.now).builders home }
    {
        let mark = mark_of(name);
        let mut left = self.builders.len();
        while left > 0 {
            left -= 1;
            let known = &self.builders[left];
            if is_builder(known, home, mark, name) {
                return Some(known);
            }
        }
        None
    }

    /// The latest constructor of a datatype that a path leads to.
    pub(crate) fn builder(&self, path: &Path) -> Option<&KnownBuilder>
        ensures { option_map (λ b. builder_found b.now) result
            ≡ standing.in_home (standing.home_of path.now.modules (declared_view self.now).modules)
            (standing.builder_in path.now.name (declared_view self.now).builders) }
    {
        let home = self.home_of(path)?;
        self.builder_in(&path.name, home)
    }
}
