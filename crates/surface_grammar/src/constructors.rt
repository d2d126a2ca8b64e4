//! The rules of constructors.
ghost use Rattle.std.specs.Prelude.{◌≡◌};
ghost use Rattle.surface_grammar.specs.Table.{constructors_body};

use crate::table::{lines, part_of, word_kind};
use crate::{Form, Part};
use surface_tree::Kind;

/// A rule of constructors. Its line below is the whole rule.
#[derive(Clone, Copy)]
pub enum ConRule {
    ConLambda,
    ConLower,
    ConBracket,
    ConOther,
    ConExplicit,
    ConImplicit,
    ConArrow,
    ConProduct,
    ConTimes,
    ConSum,
    ConConcat,
    ConApply,
    ConRecord,
    ConPlain,
    ConDollar,
    ConPrimary,
    ConIndex,
    ConPath,
    ConWild,
    ConHash,
    ConParens,
    ConFields,
    ConRow,
    HashUpper,
    HashInt,
    ConUnit,
    ConGroup,
    ConClose,
    ConMarked,
    ConTuple,
    ConComma,
    ConFieldTypes,
    ConFieldMore,
    ConRowFields,
    ConFieldValue,
    ConRowMore,
    FieldUpper,
    FieldInt,
    FieldHash,
    FieldLower,
    Path,
    UpperDot,
    BracketOpen,
    BracketEmpty,
    BracketInt,
    BracketLower,
    BracketUpper,
    BracketHash,
    BracketGuard,
    BracketFields,
    BracketNameRow,
    BracketNameGuard,
    BracketUpperRow,
    BracketUpperGuard,
    BracketHashUpper,
    BracketHashInt,
    GuardSides,
    NameSides,
    PathSides,
    IntSides,
}

/// The parts of a rule, in order.
pub fn body(rule: ConRule) -> &'static [Part]
    ensures { result.now ≡ constructors_body rule }
{
    lines! { rule, ConRule:
        ConLambda = ("fn" lower [KindMark] "=>" Con)
        ConLower = (lower [ConForall] {ConIndex} {ConTerm} {ConConcat} {ConTimes} [ConArrow])
        ConBracket = (BracketOpen BracketRest)
        ConOther = (ConProduct [ConArrow])
        ConExplicit = ("::" KindAtom "->" Con)
        ConImplicit = (":::" KindAtom "->" Con)
        ConArrow = ("->" Con)
        ConProduct = (ConSum {ConTimes})
        ConTimes = ("*" ConSum)
        ConSum = (ConApply {ConConcat})
        ConConcat = ("++" ConApply)
        ConApply = (ConTerm {ConTerm})
        ConRecord = ("$" {ConDollar} ConPrimary)
        ConPlain = (ConPrimary)
        ConDollar = ("$")
        ConPrimary = (ConAtom {ConIndex})
        ConIndex = ("." int)
        ConPath = (Path)
        ConWild = ("_")
        ConHash = ("#" HashName)
        ConParens = ("(" ConParenRest)
        ConFields = ("{" [ConFieldTypes] "}")
        ConRow = ("[" [ConRowFields] "]")
        HashUpper = (upper)
        HashInt = (int)
        ConUnit = (")")
        ConGroup = (Con ConParenEnd)
        ConClose = (")")
        ConMarked = ("::" KindTerm ")")
        ConTuple = ("," Con {ConComma} ")")
        ConComma = ("," Con)
        ConFieldTypes = (FieldName ":" Con {ConFieldMore})
        ConFieldMore = ("," FieldName ":" Con)
        ConRowFields = (FieldName [ConFieldValue] {ConRowMore})
        ConFieldValue = ("=" Con)
        ConRowMore = ("," FieldName [ConFieldValue])
        FieldUpper = (upper)
        FieldInt = (int)
        FieldHash = ("#" upper)
        FieldLower = (lower)
        Path = ({UpperDot} lower)
        UpperDot = (upper ".")
        BracketOpen = ("[")
        BracketEmpty = ("]" {ConIndex} {ConTerm} {ConConcat} {ConTimes} [ConArrow])
        BracketInt = (int BracketFields {ConIndex} {ConTerm} {ConConcat} {ConTimes} [ConArrow])
        BracketLower = (lower BracketNameRest)
        BracketUpper = (upper BracketUpperRest)
        BracketHash = ("#" BracketHashRest)
        BracketGuard = (GuardSides "=>" Con)
        BracketFields = ([ConFieldValue] {ConRowMore} "]")
        BracketNameRow = (BracketFields {ConIndex} {ConTerm} {ConConcat} {ConTimes} [ConArrow])
        BracketNameGuard = (NameSides "=>" Con)
        BracketUpperRow = (BracketFields {ConIndex} {ConTerm} {ConConcat} {ConTimes} [ConArrow])
        BracketUpperGuard = (PathSides "=>" Con)
        BracketHashUpper = (upper BracketNameRest)
        BracketHashInt = (IntSides "=>" Con)
        GuardSides = (ConSum "~" ConSum "]")
        NameSides = ({ConIndex} {ConTerm} {ConConcat} "~" ConSum "]")
        PathSides = ("." Path {ConIndex} {ConTerm} {ConConcat} "~" ConSum "]")
        IntSides = (int {ConIndex} {ConTerm} {ConConcat} "~" ConSum "]")
    }
}
