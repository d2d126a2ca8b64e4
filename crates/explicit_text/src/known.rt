//! What a program's numbers and symbols stand for.
use crate::implicits::has_implicits;
use con_terms::{Con, Sym};
use core_terms::{Datatype, Decl, Folders, Foreigns, Named, NamedList, Program};
use std::alloc::{AllocError, Global};
use table_rows::{Text, Texts};
use type_makers::symbols;

/// A top-level value: its module, its name, and whether its type has implicit parameters.
#[derive(Clone, Copy, Debug)]
pub struct Top {
    pub module: u32,
    pub name: Sym,
    pub implicit: bool,
}

/// A datatype: its symbol, its module, its name, whether it takes types, and the names of its constructors.
#[derive(Drop)]
pub struct KnownType {
    pub symbol: Sym,
    pub module: Option<u32>,
    pub name: Sym,
    pub takes_types: bool,
    pub builders: Vec<Sym>,
}

/// A foreign effect: its module, and its name.
#[derive(Drop)]
pub struct KnownEffect {
    pub module: Text,
    pub name: Text,
}

/// What a program's numbers and symbols stand for.
#[derive(Drop)]
pub struct Known {
    alloc: Global,
    names: Texts,
    modules: Texts,
    types: Vec<KnownType>,
    /// For each symbol how many datatypes there are up to the first that has it; 0 where none has.
    places: Vec<usize>,
    folders: Vec<u32>,
    tops: Vec<Top>,
    effects: Vec<KnownEffect>,
}

/// A copy of texts, which shares their bytes.
fn copy_texts(alloc: Global, texts: &Texts) -> Result<Texts, AllocError> {
    let mut copy = Texts::new(alloc);
    for i in 0..texts.len() {
        copy.push(texts.at(i).copy(alloc)?)?;
    }
    Ok(copy)
}

impl Known {
    /// What symbols stand for, where nothing more is known.
    pub fn of_names(alloc: Global, names: &Texts, modules: &Texts) -> Result<Known, AllocError> {
        Ok(Known {
            alloc,
            names: copy_texts(alloc, names)?,
            modules: copy_texts(alloc, modules)?,
            types: Vec::new(alloc),
            places: vec![in alloc; 0; names.len()]?,
            folders: Vec::new(alloc),
            tops: Vec::new(alloc),
            effects: Vec::new(alloc),
        })
    }

    /// What a program's numbers and symbols stand for.
    pub fn of_program(alloc: Global, program: &Program) -> Result<Known, AllocError> {
        let mut known = Known::of_names(alloc, &program.names, &program.modules)?;
        known.add_folders(&program.folders)?;
        known.add_effects(&program.foreign)?;
        for decl in program.decls.items.iter() {
            known.add_decl(decl)?;
        }
        Ok(known)
    }

    /// Adds the symbols of the types of folders.
    fn add_folders(&mut self, folders: &Folders) -> Result<(), AllocError> {
        for folder in folders.items.iter() {
            self.folders.push(folder.symbol.number)?;
        }
        Ok(())
    }

    /// Adds the foreign effects.
    fn add_effects(&mut self, effects: &Foreigns) -> Result<(), AllocError> {
        for effect in effects.items.iter() {
            let module = effect.module.copy(self.alloc)?;
            let name = effect.name.copy(self.alloc)?;
            if self.effects.push(KnownEffect { module, name }).is_err() {
                return Err(AllocError);
            }
        }
        Ok(())
    }

    /// Adds a top-level value.
    fn add_top(&mut self, module: u32, name: Sym, con: &Con) -> Result<(), AllocError> {
        let implicit = has_implicits(self, con);
        self.tops.push(Top {
            module,
            name,
            implicit,
        })?;
        Ok(())
    }

    /// Adds named terms.
    fn add_all(&mut self, list: &NamedList) -> Result<(), AllocError> {
        for named in list.items.iter() {
            self.add_named(named)?;
        }
        Ok(())
    }

    /// Adds a named term.
    fn add_named(&mut self, named: &Named) -> Result<(), AllocError> {
        self.add_top(named.place.file, named.name, &named.con)
    }

    /// Notes that the last datatype has a symbol, where none before it has.
    fn note(&mut self, symbol: Sym) {
        let number = symbol.number as usize;
        if number < self.places.len() && self.places[number] == 0 {
            self.places[number] = self.types.len();
        }
    }

    /// Adds a datatype.
    fn add_datatype(&mut self, datatype: &Datatype) -> Result<(), AllocError> {
        let mut builders = Vec::new(self.alloc);
        for constructor in datatype.constructors.items.iter() {
            builders.push(constructor.name)?;
        }
        let known = KnownType {
            symbol: datatype.symbol,
            module: datatype.module,
            name: datatype.name,
            takes_types: !datatype.parameters.items.is_empty(),
            builders,
        };
        if self.types.push(known).is_err() {
            return Err(AllocError);
        }
        self.note(datatype.symbol);
        Ok(())
    }

    /// Adds what a declaration declares.
    fn add_decl(&mut self, decl: &Decl) -> Result<(), AllocError> {
        match decl {
            Decl::Val(_, named) => self.add_named(named),
            Decl::ValRec(_, list) => self.add_all(list),
            Decl::Con(_) => Ok(()),
            Decl::Datatype(datatype) => self.add_datatype(datatype),
            Decl::Thing(thing) => self.add_top(thing.place.file, thing.name, &thing.con),
        }
    }

    /// The text of a symbol; `_` where there is none.
    pub fn text(&self, symbol: Sym) -> &str {
        let place = symbol.number as usize;
        if place < self.names.len() {
            self.names.at(place).as_str()
        } else {
            "_"
        }
    }

    /// The name of a module; `_` where there is none.
    pub fn module(&self, module: u32) -> &str {
        let place = module as usize;
        if place < self.modules.len() {
            self.modules.at(place).as_str()
        } else {
            "_"
        }
    }

    /// The datatype whose type has this symbol, where the program declares it.
    pub fn datatype(&self, symbol: Sym) -> Option<&KnownType> {
        let number = symbol.number as usize;
        if number >= self.places.len() {
            return self.first_of(symbol);
        }
        let count = self.places[number];
        if count == 0 {
            None
        } else {
            self.types.get(count - 1)
        }
    }

    /// The first datatype whose type has this symbol.
    fn first_of(&self, symbol: Sym) -> Option<&KnownType> {
        for known in self.types.iter() {
            if known.symbol == symbol {
                return Some(known);
            }
        }
        None
    }

    /// The top-level value with a number.
    pub fn top(&self, number: u32) -> Option<Top> {
        self.tops.get(number as usize).copied()
    }

    /// The foreign effect with a number.
    pub fn effect(&self, number: u32) -> Option<&KnownEffect> {
        self.effects.get(number as usize)
    }

    /// Whether a symbol is that of a type of folders.
    pub fn is_folder(&self, symbol: Sym) -> bool {
        self.folders.contains(&symbol.number)
    }

    /// Whether a symbol is a class's, or that of a type of folders: what is looked for at a call.
    pub fn is_sought(&self, symbol: Sym) -> bool {
        symbol == symbols::SHOW
            || symbol == symbols::EQ
            || symbol == symbols::ORD
            || symbol == symbols::NUM
            || symbol == symbols::SQL_INJECTABLE
            || self.is_folder(symbol)
    }
}
