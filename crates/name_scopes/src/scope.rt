//! Scopes.
ghost use Rattle.std.specs.Prelude.{◌≡◌, IfOk};
ghost use Rattle.con_terms.specs.Kinded.{bind as bound};
ghost use Rattle.con_terms.specs.View.{kind_tree};
ghost use Rattle.kind_rules.specs.View.{scope_view};

use crate::fault::ElabFault;
use crate::known::{KnownBuilder, KnownType, KnownValue, ValueName};
use crate::layers::{Entry, Layers};
use crate::tops::Tops;
use con_terms::{Con, Kind, Place, Sym, SymTable, copy_con, copy_kind};
use core_terms::{BasisName, Symbols};
use kind_rules::normal_sides;
use kind_rules::scope::Scope as Kinds;
use plain_tree::{BasisBuilder, Path};
use std::alloc::{AllocError, Global};
use std::rc::Rc;
use table_rows::Text;
use type_faults::flaw_fault;
use type_makers::{
    arrow, basis_type, fold_type, named_kind, named_type, string_type, transaction_of, type_named,
    unit_type, value_named,
};

/// What is in scope.
#[derive(Drop)]
pub struct Scope {
    pub(crate) tops: Rc<Tops>,
    pub(crate) layers: Layers,
    /// The kinds of constructor variables and of basic names, and the guards.
    pub kinds: Kinds,
}

impl Scope {
    /// The scope at the top, after these declarations.
    pub fn new(tops: Rc<Tops>) -> Result<Scope, AllocError> {
        let kinds = tops.kinds().share()?;
        Ok(Scope {
            tops,
            layers: Layers::new(),
            kinds,
        })
    }

    /// What is declared at the top. The scope ends here, and none that it was shared with may stand.
    pub fn into_tops(self) -> Result<Tops, AllocError> {
        let Scope {
            tops,
            layers: _,
            kinds: _,
        } = self;
        match Rc::try_unwrap(tops) {
            Ok(tops) => Ok(tops),
            Err(_) => Err(AllocError),
        }
    }

    /// The same scope once more.
    pub fn share(&self) -> Result<Scope, AllocError>
        ensures kinds { IfOk result (λ new. scope_view new.kinds ≡ scope_view self.now.kinds) }
    {
        Ok(Scope {
            tops: self.tops.clone()?,
            layers: self.layers.share()?,
            kinds: self.kinds.share()?,
        })
    }

    /// The symbols of all texts.
    pub fn names(&self) -> &SymTable {
        &self.tops.names
    }

    /// The symbol of a text of a source. All of them were made before, so one that isn't there counts
    /// as want of memory.
    pub fn symbol(&self, text: &str) -> Result<Sym, AllocError> {
        match self.tops.names.find(text) {
            Some(symbol) => Ok(symbol),
            None => Err(AllocError),
        }
    }

    /// The kinds of constructor variables and of basic names, and the guards.
    pub fn kinds(&self) -> &Kinds {
        &self.kinds
    }

    /// What the constructor variables are called, the innermost first.
    pub fn called(&self, alloc: Global) -> Result<Symbols, AllocError> {
        self.layers.called(alloc)
    }

    /// The value that a name of a source stands for.
    pub fn value(&self, alloc: Global, path: &Path) -> Result<Option<KnownValue>, AllocError> {
        if path.modules.len() == 0 {
            match self.layers.value(alloc, path.name.as_str())? {
                Some(known) => return Ok(Some(known)),
                None => {}
            }
        }
        match self.tops.value_number(path) {
            Some(number) => return self.top(alloc, number),
            None => {}
        }
        if path.modules.len() == 0 {
            basis_value(alloc, path.name.as_str())
        } else {
            self.effect(alloc, path)
        }
    }

    /// A value at the top.
    pub fn top(&self, alloc: Global, number: u32) -> Result<Option<KnownValue>, AllocError> {
        match self.tops.values.get(number as usize) {
            None => Ok(None),
            Some(value) => Ok(Some(KnownValue {
                name: ValueName::Top(number),
                con: copy_con(alloc, &value.con)?,
            })),
        }
    }

    /// A foreign effect, of type `string -> transaction unit`.
    fn effect(&self, alloc: Global, path: &Path) -> Result<Option<KnownValue>, AllocError> {
        match self.tops.effect_number(path) {
            None => Ok(None),
            Some(number) => {
                let gives = transaction_of(alloc, unit_type(alloc)?)?;
                Ok(Some(KnownValue {
                    name: ValueName::Foreign(number),
                    con: arrow(alloc, string_type(), gives)?,
                }))
            }
        }
    }

    /// A value of the basis, which no declaration hides.
    pub fn basis(&self, alloc: Global, name: BasisName) -> Result<KnownValue, AllocError> {
        Ok(KnownValue {
            name: ValueName::Basis(name),
            con: basis_type(alloc, name)?,
        })
    }

    /// The constructor of a datatype that a name of a source stands for.
    pub fn builder(&self, alloc: Global, path: &Path) -> Result<Option<KnownBuilder>, AllocError> {
        copied_builder(alloc, self.tops.builder(path))
    }

    /// A constructor that every program has, which no declaration hides.
    pub fn basis_builder(
        &self,
        alloc: Global,
        builder: BasisBuilder,
    ) -> Result<KnownBuilder, AllocError> {
        let name = match builder {
            BasisBuilder::False => "False",
            BasisBuilder::True => "True",
            BasisBuilder::Nil => "Nil",
            BasisBuilder::Cons => "Cons",
        };
        match copied_builder(alloc, self.tops.basis_builder(name))? {
            Some(known) => Ok(known),
            None => Err(AllocError),
        }
    }

    /// What a name of the type level stands for.
    pub fn type_named(&self, alloc: Global, path: &Path) -> Result<Option<KnownType>, AllocError> {
        if path.modules.len() == 0 {
            match self.layers.variable(alloc, path.name.as_str())? {
                Some((number, kind)) => {
                    return Ok(Some(KnownType::Known(Con::Var(number), kind)));
                }
                None => {}
            }
        }
        match self.tops.declared_type(path) {
            Some(known) => {
                let con = copy_con(alloc, &known.con)?;
                let kind = copy_kind(alloc, &known.kind)?;
                Ok(Some(KnownType::Known(con, kind)))
            }
            None if path.modules.len() == 0 => basis_type_named(alloc, path.name.as_str()),
            None => Ok(None),
        }
    }

    /// The symbol of `folder` for rows whose values have this kind. Where there is none yet the fault
    /// tells that it is wanted.
    pub fn folder(&self, alloc: Global, kind: &Kind) -> Result<Sym, ElabFault> {
        match self.tops.folder(kind) {
            Some(symbol) => Ok(symbol),
            None => Err(ElabFault::WantsFolder(boxed_kind(alloc, kind)?)),
        }
    }

    /// The type of `fold` over rows whose values have this kind.
    pub fn fold(&self, alloc: Global, kind: &Kind) -> Result<Con, ElabFault> {
        let symbol = self.folder(alloc, kind)?;
        Ok(fold_type(alloc, kind, symbol)?)
    }

    /// The scope with one more variable, which is the innermost.
    pub fn with_value(&self, alloc: Global, name: &Text, con: Con) -> Result<Scope, AllocError>
        ensures kinds { IfOk result (λ new. scope_view new.kinds ≡ scope_view self.now.kinds) }
    {
        let entry = Entry::Value(name.copy(alloc)?, con);
        Ok(Scope {
            tops: self.tops.clone()?,
            layers: self.layers.with(alloc, entry)?,
            kinds: self.kinds.share()?,
        })
    }

    /// The scope with one more constructor variable, which is the innermost.
    pub fn with_con(&self, alloc: Global, name: &Text, kind: &Kind) -> Result<Scope, AllocError>
        ensures kinds { IfOk result
            (λ new. scope_view new.kinds ≡ bound (kind_tree kind.now) (scope_view self.now.kinds)) }
    {
        let symbol = self.symbol(name.as_str())?;
        let entry = Entry::Variable(name.copy(alloc)?, symbol, copy_kind(alloc, kind)?);
        Ok(Scope {
            tops: self.tops.clone()?,
            layers: self.layers.with(alloc, entry)?,
            kinds: self.kinds.bind(kind)?,
        })
    }

    /// The scope with one more guard, whose sides are rows of these kinds. Where a side's normal form is
    /// too large, that is told at the place.
    pub fn with_guard(
        &self,
        alloc: Global,
        left: &Con,
        left_kind: &Kind,
        right: &Con,
        right_kind: &Kind,
        at: Place,
    ) -> Result<Scope, ElabFault> {
        match normal_sides(alloc, left, left_kind, right, right_kind)? {
            Err(flaw) => Err(ElabFault::Told(flaw_fault(at, self.called(alloc)?, flaw))),
            Ok(sides) => Ok(Scope {
                tops: self.tops.clone()?,
                layers: self.layers.share()?,
                kinds: self.kinds.assume(&sides.left, &sides.right)?,
            }),
        }
    }
}

/// A copy of a kind on the heap.
fn boxed_kind(alloc: Global, kind: &Kind) -> Result<Box<Kind>, AllocError> {
    Ok(Box::new(alloc, copy_kind(alloc, kind)?)?)
}

/// A copy of what is known of a constructor.
fn copied_builder(
    alloc: Global,
    known: Option<&KnownBuilder>,
) -> Result<Option<KnownBuilder>, AllocError> {
    let Some(known) = known else {
        return Ok(None);
    };
    let holds = match &known.holds {
        None => None,
        Some(held) => Some(copy_con(alloc, held)?),
    };
    Ok(Some(KnownBuilder {
        datatype: known.datatype,
        index: known.index,
        parameters: known.parameters,
        holds,
        con: copy_con(alloc, &known.con)?,
    }))
}

/// A value of the basis by its name.
fn basis_value(alloc: Global, name: &str) -> Result<Option<KnownValue>, AllocError> {
    match value_named(name) {
        Some(value) => Ok(Some(KnownValue {
            name: ValueName::Basis(value),
            con: basis_type(alloc, value)?,
        })),
        None if name == "fold" => Ok(Some(KnownValue {
            name: ValueName::Fold,
            con: Con::UnitCon,
        })),
        None => Ok(None),
    }
}

/// A type of the basis by its name.
fn basis_type_named(alloc: Global, name: &str) -> Result<Option<KnownType>, AllocError> {
    match type_named(name) {
        Some(known) => Ok(Some(KnownType::Known(
            named_type(alloc, known)?,
            named_kind(alloc, known)?,
        ))),
        None => match name {
            "folder" => Ok(Some(KnownType::Folder)),
            "map" => Ok(Some(KnownType::Map)),
            _ => Ok(None),
        },
    }
}
