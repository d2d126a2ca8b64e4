//! The rules of kinds.
ghost use Rattle.std.specs.Prelude.{◌≡◌};
ghost use Rattle.surface_grammar.specs.Table.{kinds_body};

use crate::table::{lines, part_of, word_kind};
use crate::{Form, Part};
use surface_tree::Kind;

/// A rule of kinds. Its line below is the whole rule.
#[derive(Clone, Copy)]
pub enum KindRule {
    KindTerm,
    KindArrow,
    KindType,
    KindUnit,
    KindName,
    KindRow,
    KindTuple,
    KindTimes,
    KindMark,
}

/// The parts of a rule, in order.
pub fn body(rule: KindRule) -> &'static [Part]
    ensures { result.now ≡ kinds_body rule }
{
    lines! { rule, KindRule:
        KindTerm = (KindAtom [KindArrow])
        KindArrow = ("->" KindTerm)
        KindType = ("Type")
        KindUnit = ("Unit")
        KindName = ("Name")
        KindRow = ("{" KindTerm "}")
        KindTuple = ("(" KindTerm {KindTimes} ")")
        KindTimes = ("*" KindTerm)
        KindMark = ("::" KindTerm)
    }
}
