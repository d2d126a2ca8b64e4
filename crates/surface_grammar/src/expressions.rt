//! The rules of expressions.
ghost use Rattle.std.specs.Prelude.{◌≡◌};
ghost use Rattle.surface_grammar.specs.Table.{expressions_body};

use crate::table::{lines, part_of, word_kind};
use crate::{Form, Part};
use surface_tree::Kind;

/// A rule of expressions. Its line below is the whole rule.
#[derive(Clone, Copy)]
pub enum ExpRule {
    ExpBind,
    ExpPlain,
    ExpBindRest,
    ExpThen,
    TermLambda,
    TermCase,
    TermIf,
    TermOr,
    CaseBar,
    CaseMore,
    BodyIf,
    BodyOr,
    Or,
    OrMore,
    And,
    AndMore,
    Compare,
    CompareEqual,
    CompareNotEqual,
    CompareLess,
    CompareLessOrEqual,
    CompareGreater,
    CompareGreaterOrEqual,
    Cons,
    ConsMore,
    Join,
    JoinTexts,
    JoinRecords,
    Sum,
    SumPlus,
    SumMinus,
    Product,
    ProductTimes,
    ProductDivide,
    ProductModulo,
    SignMinus,
    SignNone,
    Cut,
    CutField,
    CutRow,
    Apply,
    ArgumentTerm,
    ArgumentBracket,
    ArgumentGuard,
    ArgumentList,
    ArgumentCon,
    AtomTerm,
    AtomList,
    Operand,
    Dot,
    PrimaryInt,
    PrimaryString,
    PrimaryLower,
    PrimaryUpper,
    PrimaryAt,
    PrimaryAtAt,
    PrimaryParens,
    PrimaryRecord,
    PrimaryLet,
    PrimaryXmlEmpty,
    PrimaryXml,
    AnyLower,
    AnyUpper,
    ParenUnit,
    ParenGroup,
    ParenSql,
    ParenClose,
    ParenTyped,
    ParenTuple,
    ExpComma,
    ExpFields,
    ExpFieldMore,
}

/// The parts of a rule, in order.
pub fn body(rule: ExpRule) -> &'static [Part]
    ensures { result.now ≡ expressions_body rule }
{
    lines! { rule, ExpRule:
        ExpBind = (Pat ExpBindRest)
        ExpPlain = (Term [ExpThen])
        ExpBindRest = ("<-" Body ";" Exp)
        ExpThen = (";" Exp)
        TermLambda = ("fn" Arg {Arg} "=>" Exp)
        TermCase = ("case" Exp "of" [CaseBar] Pat "=>" Exp {CaseMore})
        TermIf = ("if" Exp "then" Exp "else" Term)
        TermOr = (Or)
        CaseBar = ("|")
        CaseMore = ("|" Pat "=>" Exp)
        BodyIf = ("if" Exp "then" Exp "else" Body)
        BodyOr = (Or)
        Or = (And {OrMore})
        OrMore = ("||" And)
        And = (Compare {AndMore})
        AndMore = ("&&" Compare)
        Compare = (Cons [CompareMore])
        CompareEqual = ("=" Cons)
        CompareNotEqual = ("<>" Cons)
        CompareLess = ("<" Cons)
        CompareLessOrEqual = ("<=" Cons)
        CompareGreater = (">" Cons)
        CompareGreaterOrEqual = (">=" Cons)
        Cons = (Join [ConsMore])
        ConsMore = ("::" Cons)
        Join = (Sum {JoinMore})
        JoinTexts = ("^" Sum)
        JoinRecords = ("++" Sum)
        Sum = (Product {SumMore})
        SumPlus = ("+" Product)
        SumMinus = ("-" Product)
        Product = (Sign {ProductMore})
        ProductTimes = ("*" Sign)
        ProductDivide = ("/" Sign)
        ProductModulo = ("%" Sign)
        SignMinus = ("-" Sign)
        SignNone = (Cut)
        Cut = (Apply {CutMore})
        CutField = ("--" ConTerm)
        CutRow = ("---" ConTerm)
        Apply = (Atom {Argument})
        ArgumentTerm = (Operand)
        ArgumentBracket = ("[" ArgumentRest)
        ArgumentGuard = ("!")
        ArgumentList = ("]" {Dot})
        ArgumentCon = (Con "]")
        AtomTerm = (Operand)
        AtomList = ("[" "]" {Dot})
        Operand = (Primary {Dot})
        Dot = ("." FieldName)
        PrimaryInt = (int)
        PrimaryString = (string)
        PrimaryLower = (lower)
        PrimaryUpper = (upper)
        PrimaryAt = ("@" AnyName)
        PrimaryAtAt = ("@@" AnyName)
        PrimaryParens = ("(" ParenRest)
        PrimaryRecord = ("{" [ExpFields] "}")
        PrimaryLet = ("let" {LetDecl} "in" Exp "end")
        PrimaryXmlEmpty = ("<xml/>")
        PrimaryXml = ("<xml>" {Node} "</xml>")
        AnyLower = (lower)
        AnyUpper = (upper)
        ParenUnit = (")")
        ParenGroup = (Exp ParenEnd)
        ParenSql = (Sql ")")
        ParenClose = (")")
        ParenTyped = (":" Con ")")
        ParenTuple = ("," Exp {ExpComma} ")")
        ExpComma = ("," Exp)
        ExpFields = (FieldName "=" Exp {ExpFieldMore})
        ExpFieldMore = ("," FieldName "=" Exp)
    }
}
