//! The rules of queries and changes of tables.
ghost use Rattle.std.specs.Prelude.{◌≡◌};
ghost use Rattle.surface_grammar.specs.Table.{queries_body};

use crate::table::{lines, part_of, word_kind};
use crate::{Form, Part};
use surface_tree::Kind;

/// A rule of queries and changes of tables. Its line below is the whole rule.
#[derive(Clone, Copy)]
pub enum SqlRule {
    SqlSelect,
    SqlInsert,
    SqlUpdate,
    SqlDelete,
    SqlWhere,
    Where,
    OrderBy,
    Limit,
    Offset,
    ValueList,
    ValueMore,
    Assignment,
    AssignmentMore,
    SelectAll,
    SelectItems,
    ItemMore,
    ItemLower,
    ItemUpper,
    ItemOther,
    ItemUpperDot,
    ItemUpperNamed,
    ItemColumn,
    ItemStar,
    ItemBraces,
    ItemBracesRow,
    ItemNamed,
    SourceTable,
    SourceExp,
    SourceMore,
    AsMark,
    RefTable,
    RefExp,
    TableBraces,
    TableBracesExp,
    Order,
    DirectionAsc,
    DirectionDesc,
    OrderMore,
    CountInt,
    CountExp,
    SqlOr,
    SqlOrMore,
    SqlAnd,
    SqlAndMore,
    SqlNegated,
    SqlCompared,
    SqlCompare,
    SqlEqual,
    SqlNotEqual,
    SqlLess,
    SqlLessOrEqual,
    SqlGreater,
    SqlGreaterOrEqual,
    SqlSum,
    SqlPlus,
    SqlMinus,
    SqlProduct,
    SqlTimes,
    SqlDivide,
    SqlModulo,
    SqlNegative,
    SqlInt,
    SqlString,
    SqlTrue,
    SqlFalse,
    SqlField,
    SqlColumn,
    SqlBrace,
    SqlParens,
    SqlSplice,
    SqlExp,
}

/// The parts of a rule, in order.
pub fn body(rule: SqlRule) -> &'static [Part]
    ensures { result.now ≡ queries_body rule }
{
    lines! { rule, SqlRule:
        SqlSelect = ("SELECT" Selection "FROM" Source {SourceMore} [Where] [OrderBy] [Limit] [Offset])
        SqlInsert = ("INSERT" "INTO" TableRef ColumnList "VALUES" ValueList)
        SqlUpdate = ("UPDATE" TableRef "SET" Assignment {AssignmentMore} "WHERE" SqlOr)
        SqlDelete = ("DELETE" "FROM" TableRef "WHERE" SqlOr)
        SqlWhere = ("WHERE" SqlOr)
        Where = ("WHERE" SqlOr)
        OrderBy = ("ORDER" "BY" Order {OrderMore})
        Limit = ("LIMIT" Count)
        Offset = ("OFFSET" Count)
        ValueList = ("(" SqlOr {ValueMore} ")")
        ValueMore = ("," SqlOr)
        Assignment = (upper "=" SqlOr)
        AssignmentMore = ("," Assignment)
        SelectAll = ("*")
        SelectItems = (Item {ItemMore})
        ItemMore = ("," Item)
        ItemLower = (lower "." ItemDot)
        ItemUpper = (upper ItemUpperRest)
        ItemOther = (SqlOr "AS" upper)
        ItemUpperDot = ("." ItemDot)
        ItemUpperNamed = (ItemNamed)
        ItemColumn = (upper [ItemNamed])
        ItemStar = ("*")
        ItemBraces = ("{" ItemBracesRow "}")
        ItemBracesRow = ("{" Con "}")
        ItemNamed = ({SqlProductMore} {SqlSumMore} [SqlCompareMore] {SqlAndMore} {SqlOrMore} "AS" upper)
        SourceTable = (Path [AsMark])
        SourceExp = (TableBraces "AS" upper)
        SourceMore = ("," Source)
        AsMark = ("AS" upper)
        RefTable = (Path)
        RefExp = (TableBraces)
        TableBraces = ("{" TableBracesExp "}")
        TableBracesExp = ("{" Exp "}")
        Order = (SqlOr [Direction])
        DirectionAsc = ("ASC")
        DirectionDesc = ("DESC")
        OrderMore = ("," Order)
        CountInt = (int)
        CountExp = ("{" Exp "}")
        SqlOr = (SqlAnd {SqlOrMore})
        SqlOrMore = ("OR" SqlAnd)
        SqlAnd = (SqlNot {SqlAndMore})
        SqlAndMore = ("AND" SqlNot)
        SqlNegated = ("NOT" SqlNot)
        SqlCompared = (SqlCompare)
        SqlCompare = (SqlSum [SqlCompareMore])
        SqlEqual = ("=" SqlSum)
        SqlNotEqual = ("<>" SqlSum)
        SqlLess = ("<" SqlSum)
        SqlLessOrEqual = ("<=" SqlSum)
        SqlGreater = (">" SqlSum)
        SqlGreaterOrEqual = (">=" SqlSum)
        SqlSum = (SqlProduct {SqlSumMore})
        SqlPlus = ("+" SqlProduct)
        SqlMinus = ("-" SqlProduct)
        SqlProduct = (SqlTerm {SqlProductMore})
        SqlTimes = ("*" SqlTerm)
        SqlDivide = ("/" SqlTerm)
        SqlModulo = ("%" SqlTerm)
        SqlNegative = ("-" SqlTerm)
        SqlInt = (int)
        SqlString = (string)
        SqlTrue = ("TRUE")
        SqlFalse = ("FALSE")
        SqlField = (lower "." upper)
        SqlColumn = (upper [DotUpper])
        SqlBrace = ("{" SqlBraceRest)
        SqlParens = ("(" SqlOr ")")
        SqlSplice = (Splice "}")
        SqlExp = (Exp "}")
    }
}
