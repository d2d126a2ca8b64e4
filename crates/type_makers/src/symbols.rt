//! The symbols that every program's table begins with, and their texts.
ghost use Rattle.std.specs.Prelude.{◌≡◌, [], map, IfOk};
ghost use Rattle.core_terms.specs.Names.{basis_texts};
ghost use Rattle.type_makers.specs.Tables.{put_texts};

use con_terms::{Sym, SymTable};
use std::alloc::{AllocError, Global};
use table_rows::{Text, Texts};

/// The texts of the symbols of the basis, in the order of their numbers.
const TEXTS: [&str; 36] = [
    "int",
    "string",
    "url",
    "bool",
    "option",
    "list",
    "transaction",
    "xml",
    "show",
    "eq",
    "ord",
    "num",
    "sql_table",
    "sql_query",
    "sql_exp",
    "dml",
    "sql_sequence",
    "http_cookie",
    "sql_injectable",
    "Html",
    "Body",
    "Head",
    "Table",
    "Tr",
    "Form",
    "1",
    "2",
    "Value",
    "Secure",
    "False",
    "True",
    "None",
    "Some",
    "Nil",
    "Cons",
    "t",
];

/// `int`
pub const INT: Sym = Sym { number: 0 };

/// `string`
pub const STRING: Sym = Sym { number: 1 };

/// `url`
pub const URL: Sym = Sym { number: 2 };

/// `bool`
pub const BOOL: Sym = Sym { number: 3 };

/// `option`
pub const OPTION: Sym = Sym { number: 4 };

/// `list`
pub const LIST: Sym = Sym { number: 5 };

/// `transaction`
pub const TRANSACTION: Sym = Sym { number: 6 };

/// `xml`
pub const XML: Sym = Sym { number: 7 };

/// `show`
pub const SHOW: Sym = Sym { number: 8 };

/// `eq`
pub const EQ: Sym = Sym { number: 9 };

/// `ord`
pub const ORD: Sym = Sym { number: 10 };

/// `num`
pub const NUM: Sym = Sym { number: 11 };

/// `sql_table`
pub const SQL_TABLE: Sym = Sym { number: 12 };

/// `sql_query`
pub const SQL_QUERY: Sym = Sym { number: 13 };

/// `sql_exp`
pub const SQL_EXP: Sym = Sym { number: 14 };

/// `dml`
pub const DML: Sym = Sym { number: 15 };

/// `sql_sequence`
pub const SQL_SEQUENCE: Sym = Sym { number: 16 };

/// `http_cookie`
pub const HTTP_COOKIE: Sym = Sym { number: 17 };

/// `sql_injectable`
pub const SQL_INJECTABLE: Sym = Sym { number: 18 };

/// `Html`
pub const HTML: Sym = Sym { number: 19 };

/// `Body`
pub const BODY: Sym = Sym { number: 20 };

/// `Head`
pub const HEAD: Sym = Sym { number: 21 };

/// `Table`
pub const TABLE: Sym = Sym { number: 22 };

/// `Tr`
pub const TR: Sym = Sym { number: 23 };

/// `Form`
pub const FORM: Sym = Sym { number: 24 };

/// `1`
pub const FIRST: Sym = Sym { number: 25 };

/// `2`
pub const SECOND: Sym = Sym { number: 26 };

/// `Value`
pub const VALUE: Sym = Sym { number: 27 };

/// `Secure`
pub const SECURE: Sym = Sym { number: 28 };

/// `False`
pub const FALSE: Sym = Sym { number: 29 };

/// `True`
pub const TRUE: Sym = Sym { number: 30 };

/// `None`
pub const NONE: Sym = Sym { number: 31 };

/// `Some`
pub const SOME: Sym = Sym { number: 32 };

/// `Nil`
pub const NIL: Sym = Sym { number: 33 };

/// `Cons`
pub const CONS: Sym = Sym { number: 34 };

/// `t`
pub const PARAMETER: Sym = Sym { number: 35 };

/// Texts in order.
fn texts_of(alloc: Global, mut texts: &[&str]) -> Result<Texts, AllocError>
    ensures { IfOk result (λ new. new ≡ map (λ t. t.now) texts.entry.now) }
{
    let mut names = Texts::new(alloc);
    while let [text, rest @ ..] = texts {
        names.push(Text::of(alloc, text)?)?;
        texts = rest;
    }
    Ok(names)
}

/// The texts with which a program's table begins.
pub fn basis_names(alloc: Global) -> Result<Texts, AllocError>
    ensures { IfOk result (λ new. new ≡ basis_texts) }
{
    texts_of(alloc, &TEXTS)
}

/// A table of texts, put in one after another.
fn table_of(alloc: Global, mut texts: &[&str]) -> Result<SymTable, AllocError>
    ensures { IfOk result (λ new. new ≡ put_texts [] (map (λ t. t.now) texts.entry.now)) }
{
    let mut table = SymTable::new(alloc);
    while let [text, rest @ ..] = texts {
        table.intern(text)?;
        texts = rest;
    }
    Ok(table)
}

/// The table of symbols with which a program's reading begins.
pub fn basis_symbols(alloc: Global) -> Result<SymTable, AllocError>
    ensures { IfOk result (λ new. new ≡ basis_texts) }
{
    table_of(alloc, &TEXTS)
}
