//! The rules of parameters of functions.
ghost use Rattle.std.specs.Prelude.{◌≡◌};
ghost use Rattle.surface_grammar.specs.Table.{parameters_body};

use crate::table::{lines, part_of, word_kind};
use crate::{Form, Part};
use surface_tree::Kind;

/// A rule of parameters of functions. Its line below is the whole rule.
#[derive(Clone, Copy)]
pub enum ArgRule {
    ArgPattern,
    ArgBracket,
    ArgList,
    ArgLower,
    ArgGuard,
    ArgType,
    ArgExplicit,
    ArgImplicit,
    ArgLowerGuard,
}

/// The parts of a rule, in order.
pub fn body(rule: ArgRule) -> &'static [Part]
    ensures { result.now ≡ parameters_body rule }
{
    lines! { rule, ArgRule:
        ArgPattern = (PatAtom)
        ArgBracket = ("[" ArgBracketRest)
        ArgList = ("]")
        ArgLower = (lower ArgLowerRest)
        ArgGuard = (ConSum "~" ConSum "]")
        ArgType = ("]")
        ArgExplicit = ("::" KindTerm "]")
        ArgImplicit = (":::" KindTerm "]")
        ArgLowerGuard = ({ConIndex} {ConTerm} {ConConcat} "~" ConSum "]")
    }
}
