//! What a rule asks beside its parts.
ghost use Rattle.std.specs.Prelude.{◌≡◌};
ghost use Rattle.surface_grammar.specs.Sides.{bars_of, is_deep, is_element, is_tag};

use crate::{ArgRule, ConRule, DeclRule, ExpRule, KindRule, MarkupRule, PatRule, Rule, SqlRule};
use surface_tree::Kind;

impl Rule {
    /// Whether everything in a tree of the rule lies one deeper.
    pub fn is_deep(self) -> bool
        ensures { result ≡ is_deep self }
    {
        matches!(
            self,
            Rule::Kind(KindRule::KindArrow | KindRule::KindRow | KindRule::KindTuple)
                | Rule::Con(
                    ConRule::ConLambda
                        | ConRule::ConExplicit
                        | ConRule::ConImplicit
                        | ConRule::ConArrow
                        | ConRule::ConParens
                        | ConRule::ConFields
                        | ConRule::ConRow
                        | ConRule::BracketOpen
                        | ConRule::BracketGuard
                        | ConRule::BracketFields
                        | ConRule::BracketNameGuard
                        | ConRule::BracketUpperGuard
                        | ConRule::BracketHashInt
                        | ConRule::GuardSides
                        | ConRule::NameSides
                        | ConRule::PathSides
                        | ConRule::IntSides
                )
                | Rule::Pat(
                    PatRule::PatCons | PatRule::PatList | PatRule::PatParens | PatRule::PatRecord
                )
                | Rule::Arg(ArgRule::ArgBracket)
                | Rule::Exp(
                    ExpRule::ExpBindRest
                        | ExpRule::ExpThen
                        | ExpRule::TermLambda
                        | ExpRule::TermCase
                        | ExpRule::TermIf
                        | ExpRule::BodyIf
                        | ExpRule::ConsMore
                        | ExpRule::SignMinus
                        | ExpRule::ArgumentBracket
                        | ExpRule::AtomList
                        | ExpRule::PrimaryParens
                        | ExpRule::PrimaryRecord
                        | ExpRule::PrimaryLet
                )
                | Rule::Markup(
                    MarkupRule::NodeBrace
                        | MarkupRule::NodeElement
                        | MarkupRule::Splice
                        | MarkupRule::TagName
                        | MarkupRule::AttributeExp
                )
                | Rule::Decl(DeclRule::ColumnList)
                | Rule::Sql(
                    SqlRule::ValueList
                        | SqlRule::ItemBraces
                        | SqlRule::ItemBracesRow
                        | SqlRule::TableBraces
                        | SqlRule::TableBracesExp
                        | SqlRule::CountExp
                        | SqlRule::SqlNegated
                        | SqlRule::SqlNegative
                        | SqlRule::SqlBrace
                        | SqlRule::SqlParens
                )
        )
    }

    /// Words that the first token of the rule may not stand for: another rule reads them there.
    pub fn bars(self) -> &'static [Kind]
        ensures { result.now ≡ bars_of self }
    {
        match self {
            Rule::Con(ConRule::ConOther) => &[Kind::LowerName, Kind::LeftBracket],
            Rule::Con(ConRule::BracketGuard) => &[Kind::LowerName, Kind::UpperName, Kind::Hash],
            Rule::Pat(PatRule::PatPlain) => &[Kind::UpperName],
            Rule::Arg(ArgRule::ArgPattern) | Rule::Markup(MarkupRule::NodeExp) => &[
                Kind::LeftBracket,
            ],
            Rule::Arg(ArgRule::ArgGuard) => &[Kind::LowerName],
            Rule::Sql(SqlRule::ItemOther) => &[Kind::LowerName, Kind::UpperName],
            _ => &[],
        }
    }

    /// Whether this is an element, whose closing tag has the name of its opening tag.
    pub fn is_element(self) -> bool
        ensures { result ≡ is_element self }
    {
        matches!(self, Rule::Markup(MarkupRule::NodeElement))
    }
}

/// Whether the token of this word has the name of the innermost element.
pub fn is_tag(word: Kind) -> bool
    ensures { result ≡ is_tag word }
{
    matches!(word, Kind::TagOpen | Kind::TagClose)
}
