//! What is declared at the top of the modules, beside what every program has.
use crate::known::{KnownBuilder, may_be_of_class};
use crate::table::NameTable;
use con_terms::{Con, Kind, Sym, SymTable, copy_con, copy_kind, same_kind};
use core_terms::{Constructor, Datatype, FolderName, Folders, Foreigns, TypeName};
use kind_rules::{Basic, Scope as Kinds};
use plain_tree::Path;
use std::alloc::{AllocError, Global};
use table_rows::Text;
use type_makers::{arrow_kind, basis_datatypes, constructor_type, named_kind, row_kind, symbols};

/// How many types a program may declare, and over how many kinds it may have folders. More count as
/// want of memory, since letting go of a scope takes stack for each.
pub const MOST_TYPES: u32 = 10_000;

/// How many kinds are put into a scope together.
const TOGETHER: usize = 64;

/// A value at the top.
#[derive(Drop)]
pub struct TopValue {
    /// The number of its module.
    pub module: u32,
    pub name: Text,
    pub con: Con,
}

/// A name of the type level at the top, with what it means and its kind.
#[derive(Drop)]
pub struct TopType {
    pub con: Con,
    pub kind: Kind,
}

/// The names that a module declares. Of several declarations of a name the last counts.
#[derive(Drop)]
struct ModuleNames {
    /// The module's name, with a capital.
    name: Text,
    values: NameTable,
    types: NameTable,
    builders: NameTable,
}

/// What is declared at the top of all modules so far. The last module is the one that is read.
#[derive(Drop)]
pub struct Tops {
    alloc: Global,
    /// The symbols of all texts.
    pub names: SymTable,
    modules: Vec<ModuleNames>,
    /// All values, by their numbers.
    pub values: Vec<TopValue>,
    /// The values whose types may be those of instances, in order.
    candidates: Vec<u32>,
    types: Vec<TopType>,
    builders: Vec<KnownBuilder>,
    basis_builders: NameTable,
    /// The foreign effects, by their numbers.
    pub foreign: Foreigns,
    /// The symbols of `folder`.
    pub folders: Folders,
    /// The kinds of all basic names.
    kinds: Kinds,
    /// Those of all but the last few, and of these: so a look-up goes through few layers, however many types there are.
    settled: Kinds,
    recent: Vec<Basic>,
    /// How many types and folders were declared.
    declared: u32,
}

/// The symbols of the types of the basis, with the names that tell their kinds.
const BASIS_TYPES: [(Sym, TypeName); 19] = [
    (symbols::INT, TypeName::Int),
    (symbols::STRING, TypeName::String),
    (symbols::URL, TypeName::Url),
    (symbols::BOOL, TypeName::Bool),
    (symbols::OPTION, TypeName::Option),
    (symbols::LIST, TypeName::List),
    (symbols::TRANSACTION, TypeName::Transaction),
    (symbols::XML, TypeName::Xml),
    (symbols::SHOW, TypeName::Show),
    (symbols::EQ, TypeName::Eq),
    (symbols::ORD, TypeName::Ord),
    (symbols::NUM, TypeName::Num),
    (symbols::SQL_TABLE, TypeName::SqlTable),
    (symbols::SQL_QUERY, TypeName::SqlQuery),
    (symbols::SQL_EXP, TypeName::SqlExp),
    (symbols::DML, TypeName::Dml),
    (symbols::SQL_SEQUENCE, TypeName::SqlSequence),
    (symbols::HTTP_COOKIE, TypeName::HttpCookie),
    (symbols::SQL_INJECTABLE, TypeName::SqlInjectable),
];

/// The kinds of the types of the basis.
fn basis_kinds(alloc: Global) -> Result<Kinds, AllocError> {
    let mut basics = Vec::new(alloc);
    for (name, called) in BASIS_TYPES {
        let kind = named_kind(alloc, called)?;
        basics.push(Basic { name, kind })?;
    }
    Kinds::new(alloc).with_basics(basics)
}

/// A copy of basic names with their kinds.
fn copy_basics(alloc: Global, basics: &Vec<Basic>) -> Result<Vec<Basic>, AllocError> {
    let mut copied = Vec::with_capacity(alloc, basics.len())?;
    for basic in basics {
        let kind = copy_kind(alloc, &basic.kind)?;
        copied.push(Basic {
            name: basic.name,
            kind,
        })?;
    }
    Ok(copied)
}

/// A number for what stands at this place; none above 2^32 - 1, which counts as want of memory.
fn number_of(place: usize) -> Result<u32, AllocError> {
    match u32::try_from(place) {
        Ok(number) => Ok(number),
        Err(_) => Err(AllocError),
    }
}

/// The text of a symbol; none of one that the table doesn't have.
pub fn text_of(names: &SymTable, symbol: Sym) -> &str {
    if symbol.number < names.count() {
        names.text(symbol)
    } else {
        ""
    }
}

/// A name with its first letter a capital.
fn capital(alloc: Global, name: &str) -> Result<Text, AllocError> {
    let mut text = Text::new(alloc);
    let mut first = true;
    for c in name.chars() {
        if first && c.is_ascii_lowercase() {
            text.push(c.to_ascii_uppercase())?;
        } else {
            text.push(c)?;
        }
        first = false;
    }
    Ok(text)
}

impl Tops {
    /// What every program has, where these are the symbols of all texts of its sources.
    pub fn new(alloc: Global, names: SymTable, foreign: Foreigns) -> Result<Tops, AllocError> {
        let mut tops = Tops {
            alloc,
            names,
            modules: Vec::new(alloc),
            values: Vec::new(alloc),
            candidates: Vec::new(alloc),
            types: Vec::new(alloc),
            builders: Vec::new(alloc),
            basis_builders: NameTable::new(alloc),
            foreign,
            folders: Folders {
                items: Vec::new(alloc),
            },
            kinds: basis_kinds(alloc)?,
            settled: basis_kinds(alloc)?,
            recent: Vec::new(alloc),
            declared: 0,
        };
        let datatypes = basis_datatypes(alloc)?;
        for i in 0..datatypes.len() {
            tops.add_basis_builders(&datatypes[i])?;
        }
        Ok(tops)
    }

    /// Begins the next module.
    pub fn begin_module(&mut self, name: &Text) -> Result<(), AllocError> {
        let name = capital(self.alloc, name.as_str())?;
        self.modules.push(ModuleNames {
            name,
            values: NameTable::new(self.alloc),
            types: NameTable::new(self.alloc),
            builders: NameTable::new(self.alloc),
        })?;
        Ok(())
    }

    /// Declares the next value, in the last module.
    pub fn add_value(&mut self, name: &Text, con: Con) -> Result<(), AllocError> {
        let number = number_of(self.values.len())?;
        if may_be_of_class(&con) {
            self.candidates.push(number)?;
        }
        let module = number_of(self.modules.len())?.saturating_sub(1);
        let copied = name.copy(self.alloc)?;
        self.values.push(TopValue {
            module,
            name: copied,
            con,
        })?;
        let Some(last) = self.modules.last_mut() else {
            return Ok(());
        };
        last.values.put(name.as_str(), number)
    }

    /// Gives a value the type that was found for its term. While it isn't known `()` stands for it.
    pub fn set_value_type(&mut self, number: usize, con: Con) {
        match self.values.get_mut(number) {
            Some(value) => value.con = con,
            None => {}
        }
    }

    /// Declares a name of the type level, in the last module.
    pub fn add_type(&mut self, name: &Text, con: Con, kind: Kind) -> Result<(), AllocError> {
        let number = number_of(self.types.len())?;
        self.types.push(TopType { con, kind })?;
        let Some(last) = self.modules.last_mut() else {
            return Ok(());
        };
        last.types.put(name.as_str(), number)
    }

    /// Gives a basic name its kind.
    fn add_kind(&mut self, name: Sym, kind: &Kind) -> Result<(), AllocError> {
        if self.declared >= MOST_TYPES {
            return Err(AllocError);
        }
        self.declared += 1;
        let kind = copy_kind(self.alloc, kind)?;
        self.recent.push(Basic { name, kind })?;
        let together = copy_basics(self.alloc, &self.recent)?;
        self.kinds = self.settled.with_basics(together)?;
        if self.recent.len() >= TOGETHER {
            self.settled = self.kinds.share()?;
            self.recent = Vec::new(self.alloc);
        }
        Ok(())
    }

    /// Declares the type of a datatype, in the last module, and gives its symbol. Its constructors come
    /// later.
    pub fn begin_datatype(&mut self, name: &Text, parameters: usize) -> Result<Sym, AllocError> {
        let symbol = self.symbol_for(name)?;
        let mut kind = Kind::Types;
        for _ in 0..parameters {
            kind = arrow_kind(self.alloc, Kind::Types, kind)?;
        }
        self.add_kind(symbol, &kind)?;
        self.add_type(name, Con::Basic(symbol), kind)?;
        Ok(symbol)
    }

    /// The symbol of a new datatype. Its text is the module's name, a dot, the datatype's, and where an
    /// earlier one has this, `#` and a number. No source has a dot or `#` in a name.
    fn symbol_for(&mut self, name: &Text) -> Result<Sym, AllocError> {
        let mut text = Text::new(self.alloc);
        match self.modules.last() {
            Some(module) => text.push_str(module.name.as_str())?,
            None => {}
        }
        text.push_str(".")?;
        text.push_str(name.as_str())?;
        self.fresh_symbol(text)
    }

    /// A symbol with this text, and where another has this, `#` and a number behind it.
    fn fresh_symbol(&mut self, text: Text) -> Result<Sym, AllocError> {
        match self.names.find(text.as_str()) {
            None => self.names.intern(text.as_str()),
            Some(_) => {
                let mut numbered = text;
                numbered.push_str("#")?;
                numbered.push_str(self.names.count().to_string(self.alloc)?.as_str())?;
                match self.names.find(numbered.as_str()) {
                    None => self.names.intern(numbered.as_str()),
                    Some(_) => Err(AllocError),
                }
            }
        }
    }

    /// Declares the constructors of a datatype, in the last module.
    pub fn add_builders(&mut self, datatype: &Datatype) -> Result<(), AllocError> {
        for i in 0..datatype.constructors.items.len() {
            let constructor = &datatype.constructors.items[i];
            let number = number_of(self.builders.len())?;
            let known = known_builder(self.alloc, datatype, constructor, number_of(i)?)?;
            self.builders.push(known)?;
            let name = text_of(&self.names, constructor.name);
            let Some(last) = self.modules.last_mut() else {
                return Ok(());
            };
            last.builders.put(name, number)?;
        }
        Ok(())
    }

    /// Declares the constructors of a datatype that every program has.
    fn add_basis_builders(&mut self, datatype: &Datatype) -> Result<(), AllocError> {
        for i in 0..datatype.constructors.items.len() {
            let constructor = &datatype.constructors.items[i];
            let number = number_of(self.builders.len())?;
            let known = known_builder(self.alloc, datatype, constructor, number_of(i)?)?;
            self.builders.push(known)?;
            let name = text_of(&self.names, constructor.name);
            self.basis_builders.put(name, number)?;
        }
        Ok(())
    }

    /// Makes the symbol of `folder` for rows whose values have this kind.
    pub fn add_folder(&mut self, kind: Kind) -> Result<(), AllocError> {
        let mut text = Text::of(self.alloc, "folder#")?;
        text.push_str(self.folders.items.len().to_string(self.alloc)?.as_str())?;
        let symbol = self.fresh_symbol(text)?;
        let rows = row_kind(self.alloc, copy_kind(self.alloc, &kind)?)?;
        let of_rows = arrow_kind(self.alloc, rows, Kind::Types)?;
        self.add_kind(symbol, &of_rows)?;
        self.folders.items.push(FolderName { kind, symbol })?;
        Ok(())
    }

    /// The symbol of `folder` for rows whose values have this kind.
    pub fn folder(&self, kind: &Kind) -> Option<Sym> {
        for i in 0..self.folders.items.len() {
            if same_kind(&self.folders.items[i].kind, kind) {
                return Some(self.folders.items[i].symbol);
            }
        }
        None
    }

    /// The foreign effects and the symbols of `folder`, at the end.
    pub fn into_parts(self) -> (Foreigns, Folders) {
        (self.foreign, self.folders)
    }

    /// The kinds of the types declared so far.
    pub fn kinds(&self) -> &Kinds {
        &self.kinds
    }

    /// The number of a value that is declared under a path.
    pub fn value_number(&self, path: &Path) -> Option<u32> {
        self.reached(path)?.values.get(path.name.as_str())
    }

    /// A name of the type level that is declared under a path.
    pub fn declared_type(&self, path: &Path) -> Option<&TopType> {
        let number = self.reached(path)?.types.get(path.name.as_str())?;
        self.types.get(number as usize)
    }

    /// A constructor that is declared under a path, or that every program has.
    pub fn builder(&self, path: &Path) -> Option<&KnownBuilder> {
        let declared = match self.reached(path) {
            None => None,
            Some(module) => module.builders.get(path.name.as_str()),
        };
        match declared {
            Some(number) => self.builders.get(number as usize),
            None if path.modules.len() == 0 => self.basis_builder(path.name.as_str()),
            None => None,
        }
    }

    /// A constructor that every program has.
    pub fn basis_builder(&self, name: &str) -> Option<&KnownBuilder> {
        let number = self.basis_builders.get(name)?;
        self.builders.get(number as usize)
    }

    /// The number of a foreign effect.
    pub fn effect_number(&self, path: &Path) -> Option<u32> {
        let [module] = path.modules.items.as_slice() else {
            return None;
        };
        for i in 0..self.foreign.items.len() {
            let effect = &self.foreign.items[i];
            if effect.module.as_str() == module.as_str()
                && effect.name.as_str() == path.name.as_str()
            {
                return u32::try_from(i).ok();
            }
        }
        None
    }

    /// The values whose types may be those of instances, in order.
    pub fn candidates(&self) -> &[u32] {
        self.candidates.as_slice()
    }

    /// Whether a value is what its name stands for, seen from the end of its module.
    pub fn is_last_of_its_name(&self, number: u32) -> bool {
        match self.values.get(number as usize) {
            None => false,
            Some(value) => match self.modules.get(value.module as usize) {
                None => false,
                Some(module) => match module.values.get(value.name.as_str()) {
                    Some(last) => last == number,
                    None => false,
                },
            },
        }
    }

    /// Whether a value is declared in the last module.
    pub fn is_own(&self, value: &TopValue) -> bool {
        value.module as usize == self.modules.len().saturating_sub(1)
    }

    /// The module that a path leads to: the last one, or an earlier one by its name.
    fn reached(&self, path: &Path) -> Option<&ModuleNames> {
        match path.modules.items.as_slice() {
            [] => self.modules.last(),
            [module] => self.module(module.as_str()),
            _ => None,
        }
    }

    /// The names of an earlier module.
    fn module(&self, name: &str) -> Option<&ModuleNames> {
        let count = self.modules.len().saturating_sub(1);
        for i in 0..count {
            if self.modules[i].name.as_str() == name {
                return Some(&self.modules[i]);
            }
        }
        None
    }
}

/// A constructor of a datatype, as a scope tells it.
fn known_builder(
    alloc: Global,
    datatype: &Datatype,
    constructor: &Constructor,
    index: u32,
) -> Result<KnownBuilder, AllocError> {
    let holds = match &constructor.holds {
        None => None,
        Some(held) => Some(copy_con(alloc, held)?),
    };
    Ok(KnownBuilder {
        datatype: datatype.symbol,
        index,
        parameters: number_of(datatype.parameters.len())?,
        holds,
        con: constructor_type(alloc, datatype, constructor)?,
    })
}
