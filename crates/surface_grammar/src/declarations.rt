//! The rules of declarations.
ghost use Rattle.std.specs.Prelude.{◌≡◌};
ghost use Rattle.surface_grammar.specs.Table.{declarations_body};

use crate::table::{lines, part_of, word_kind};
use crate::{Form, Part};
use surface_tree::Kind;

/// A rule of declarations. Its line below is the whole rule.
#[derive(Clone, Copy)]
pub enum DeclRule {
    DeclVal,
    DeclFun,
    DeclCon,
    DeclType,
    DeclDatatype,
    DeclTable,
    DeclSequence,
    DeclCookie,
    LetVal,
    LetFun,
    ValPlain,
    ValRec,
    RecMore,
    FunMore,
    TypeMark,
    Parameter,
    Constructor,
    ConstructorOf,
    ConstructorMore,
    KeyMark,
    KeyColumn,
    KeyList,
    ColumnList,
    ColumnMore,
    InterfaceItem,
}

/// The parts of a rule, in order.
pub fn body(rule: DeclRule) -> &'static [Part]
    ensures { result.now ≡ declarations_body rule }
{
    lines! { rule, DeclRule:
        DeclVal = ("val" ValRest)
        DeclFun = ("fun" lower Arg {Arg} [TypeMark] "=" Exp {FunMore})
        DeclCon = ("con" lower [KindMark] "=" Con)
        DeclType = ("type" lower "=" Con)
        DeclDatatype = ("datatype" lower {Parameter} "=" Constructor {ConstructorMore})
        DeclTable = ("table" lower ":" Con [KeyMark])
        DeclSequence = ("sequence" lower)
        DeclCookie = ("cookie" lower ":" Con)
        LetVal = ("val" ValRest)
        LetFun = ("fun" lower Arg {Arg} [TypeMark] "=" Exp {FunMore})
        ValPlain = (lower [TypeMark] "=" Exp)
        ValRec = ("rec" lower ":" Con "=" Exp {RecMore})
        RecMore = ("and" lower ":" Con "=" Exp)
        FunMore = ("and" lower Arg {Arg} [TypeMark] "=" Exp)
        TypeMark = (":" Con)
        Parameter = (lower)
        Constructor = (upper [ConstructorOf])
        ConstructorOf = ("of" Con)
        ConstructorMore = ("|" Constructor)
        KeyMark = ("PRIMARY" "KEY" KeyColumns)
        KeyColumn = (upper)
        KeyList = (ColumnList)
        ColumnList = ("(" upper {ColumnMore} ")")
        ColumnMore = ("," upper)
        InterfaceItem = ("val" lower ":" Con)
    }
}
