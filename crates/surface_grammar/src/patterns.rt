//! The rules of patterns.
ghost use Rattle.std.specs.Prelude.{◌≡◌};
ghost use Rattle.surface_grammar.specs.Table.{patterns_body};

use crate::table::{lines, part_of, word_kind};
use crate::{Form, Part};
use surface_tree::Kind;

/// A rule of patterns. Its line below is the whole rule.
#[derive(Clone, Copy)]
pub enum PatRule {
    Pat,
    PatCons,
    PatConstructor,
    PatPlain,
    PatWild,
    PatVariable,
    PatInt,
    PatNegative,
    PatString,
    PatName,
    PatList,
    PatParens,
    PatRecord,
    UpperPath,
    DotUpper,
    PatUnit,
    PatGroup,
    PatClose,
    PatTyped,
    PatTuple,
    PatComma,
    PatRecordEmpty,
    PatRecordDots,
    PatRecordFields,
    PatFieldMore,
    PatFieldDots,
    PatFieldNamed,
}

/// The parts of a rule, in order.
pub fn body(rule: PatRule) -> &'static [Part]
    ensures { result.now ≡ patterns_body rule }
{
    lines! { rule, PatRule:
        Pat = (PatTerm [PatCons])
        PatCons = ("::" Pat)
        PatConstructor = (UpperPath [PatAtom])
        PatPlain = (PatAtom)
        PatWild = ("_")
        PatVariable = (lower)
        PatInt = (int)
        PatNegative = ("-" int)
        PatString = (string)
        PatName = (UpperPath)
        PatList = ("[" "]")
        PatParens = ("(" PatParenRest)
        PatRecord = ("{" PatRecordRest)
        UpperPath = (upper {DotUpper})
        DotUpper = ("." upper)
        PatUnit = (")")
        PatGroup = (Pat PatParenEnd)
        PatClose = (")")
        PatTyped = (":" Con ")")
        PatTuple = ("," Pat {PatComma} ")")
        PatComma = ("," Pat)
        PatRecordEmpty = ("}")
        PatRecordDots = ("," "..." "}")
        PatRecordFields = (FieldName "=" Pat [PatFieldMore] "}")
        PatFieldMore = ("," PatFieldNext)
        PatFieldDots = ("...")
        PatFieldNamed = (FieldName "=" Pat [PatFieldMore])
    }
}
