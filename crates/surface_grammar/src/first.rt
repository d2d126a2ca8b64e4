//! The rules of each form, and the words that begin it.
ghost use Rattle.std.specs.Prelude.{◌≡◌};
ghost use Rattle.surface_grammar.specs.Firsts.{first_of};
ghost use Rattle.surface_grammar.specs.Forms.{rules_of};
ghost use Rattle.surface_grammar.specs.Trees.{begins};

use crate::table::{rules, word_kind, words};
use crate::words::any_accepts;
use crate::{
    ArgRule, ConRule, DeclRule, ExpRule, Form, KindRule, MarkupRule, PatRule, Rule, SqlRule,
};
use surface_tree::Kind;

impl Form {
    /// The rules of the form.
    pub fn rules(self) -> &'static [Rule]
        ensures { result.now ≡ rules_of self }
    {
        let form = self;
        rules! { form,
            // Kinds.
            KindTerm = Kind(KindTerm)
            KindArrow = Kind(KindArrow)
            KindAtom = Kind(KindType KindUnit KindName KindRow KindTuple)
            KindTimes = Kind(KindTimes)
            KindMark = Kind(KindMark)
            // Constructors.
            Con = Con(ConLambda ConLower ConBracket ConOther)
            ConForall = Con(ConExplicit ConImplicit)
            ConArrow = Con(ConArrow)
            ConProduct = Con(ConProduct)
            ConTimes = Con(ConTimes)
            ConSum = Con(ConSum)
            ConConcat = Con(ConConcat)
            ConApply = Con(ConApply)
            ConTerm = Con(ConRecord ConPlain)
            ConDollar = Con(ConDollar)
            ConPrimary = Con(ConPrimary)
            ConIndex = Con(ConIndex)
            ConAtom = Con(ConPath ConWild ConHash ConParens ConFields ConRow)
            HashName = Con(HashUpper HashInt)
            ConParenRest = Con(ConUnit ConGroup)
            ConParenEnd = Con(ConClose ConMarked ConTuple)
            ConComma = Con(ConComma)
            ConFieldTypes = Con(ConFieldTypes)
            ConFieldMore = Con(ConFieldMore)
            ConRowFields = Con(ConRowFields)
            ConFieldValue = Con(ConFieldValue)
            ConRowMore = Con(ConRowMore)
            FieldName = Con(FieldUpper FieldInt FieldHash FieldLower)
            Path = Con(Path)
            UpperDot = Con(UpperDot)
            BracketOpen = Con(BracketOpen)
            BracketRest = Con(BracketEmpty BracketInt BracketLower BracketUpper BracketHash BracketGuard)
            BracketFields = Con(BracketFields)
            BracketNameRest = Con(BracketNameRow BracketNameGuard)
            BracketUpperRest = Con(BracketUpperRow BracketUpperGuard)
            BracketHashRest = Con(BracketHashUpper BracketHashInt)
            GuardSides = Con(GuardSides)
            NameSides = Con(NameSides)
            PathSides = Con(PathSides)
            IntSides = Con(IntSides)
            // Patterns.
            Pat = Pat(Pat)
            PatCons = Pat(PatCons)
            PatTerm = Pat(PatConstructor PatPlain)
            PatAtom = Pat(PatWild PatVariable PatInt PatNegative PatString PatName PatList PatParens
                PatRecord)
            UpperPath = Pat(UpperPath)
            DotUpper = Pat(DotUpper)
            PatParenRest = Pat(PatUnit PatGroup)
            PatParenEnd = Pat(PatClose PatTyped PatTuple)
            PatComma = Pat(PatComma)
            PatRecordRest = Pat(PatRecordEmpty PatRecordDots PatRecordFields)
            PatFieldMore = Pat(PatFieldMore)
            PatFieldNext = Pat(PatFieldDots PatFieldNamed)
            // Parameters.
            Arg = Arg(ArgPattern ArgBracket)
            ArgBracketRest = Arg(ArgList ArgLower ArgGuard)
            ArgLowerRest = Arg(ArgType ArgExplicit ArgImplicit ArgLowerGuard)
            // Expressions.
            Exp = Exp(ExpBind ExpPlain)
            ExpBindRest = Exp(ExpBindRest)
            ExpThen = Exp(ExpThen)
            Term = Exp(TermLambda TermCase TermIf TermOr)
            CaseBar = Exp(CaseBar)
            CaseMore = Exp(CaseMore)
            Body = Exp(BodyIf BodyOr)
            Or = Exp(Or)
            OrMore = Exp(OrMore)
            And = Exp(And)
            AndMore = Exp(AndMore)
            Compare = Exp(Compare)
            CompareMore = Exp(CompareEqual CompareNotEqual CompareLess CompareLessOrEqual CompareGreater
                CompareGreaterOrEqual)
            Cons = Exp(Cons)
            ConsMore = Exp(ConsMore)
            Join = Exp(Join)
            JoinMore = Exp(JoinTexts JoinRecords)
            Sum = Exp(Sum)
            SumMore = Exp(SumPlus SumMinus)
            Product = Exp(Product)
            ProductMore = Exp(ProductTimes ProductDivide ProductModulo)
            Sign = Exp(SignMinus SignNone)
            Cut = Exp(Cut)
            CutMore = Exp(CutField CutRow)
            Apply = Exp(Apply)
            Argument = Exp(ArgumentTerm ArgumentBracket ArgumentGuard)
            ArgumentRest = Exp(ArgumentList ArgumentCon)
            Atom = Exp(AtomTerm AtomList)
            Operand = Exp(Operand)
            Dot = Exp(Dot)
            Primary = Exp(PrimaryInt PrimaryString PrimaryLower PrimaryUpper PrimaryAt PrimaryAtAt
                PrimaryParens PrimaryRecord PrimaryLet PrimaryXmlEmpty PrimaryXml)
            AnyName = Exp(AnyLower AnyUpper)
            ParenRest = Exp(ParenUnit ParenGroup ParenSql)
            ParenEnd = Exp(ParenClose ParenTyped ParenTuple)
            ExpComma = Exp(ExpComma)
            ExpFields = Exp(ExpFields)
            ExpFieldMore = Exp(ExpFieldMore)
            // Markup.
            Node = Markup(NodeText NodeBrace NodeElement)
            NodeBraceRest = Markup(NodeSplice NodeExp)
            Splice = Markup(Splice)
            TagName = Markup(TagName)
            ElementEnd = Markup(ElementEmpty ElementFull)
            Attribute = Markup(Attribute)
            AttributeValue = Markup(AttributeString AttributeInt AttributeExp)
            // Declarations.
            Decl = Decl(DeclVal DeclFun DeclCon DeclType DeclDatatype DeclTable DeclSequence DeclCookie)
            LetDecl = Decl(LetVal LetFun)
            ValRest = Decl(ValPlain ValRec)
            RecMore = Decl(RecMore)
            FunMore = Decl(FunMore)
            TypeMark = Decl(TypeMark)
            Parameter = Decl(Parameter)
            Constructor = Decl(Constructor)
            ConstructorOf = Decl(ConstructorOf)
            ConstructorMore = Decl(ConstructorMore)
            KeyMark = Decl(KeyMark)
            KeyColumns = Decl(KeyColumn KeyList)
            ColumnList = Decl(ColumnList)
            ColumnMore = Decl(ColumnMore)
            InterfaceItem = Decl(InterfaceItem)
            // SQL.
            Sql = Sql(SqlSelect SqlInsert SqlUpdate SqlDelete SqlWhere)
            Where = Sql(Where)
            OrderBy = Sql(OrderBy)
            Limit = Sql(Limit)
            Offset = Sql(Offset)
            ValueList = Sql(ValueList)
            ValueMore = Sql(ValueMore)
            Assignment = Sql(Assignment)
            AssignmentMore = Sql(AssignmentMore)
            Selection = Sql(SelectAll SelectItems)
            ItemMore = Sql(ItemMore)
            Item = Sql(ItemLower ItemUpper ItemOther)
            ItemUpperRest = Sql(ItemUpperDot ItemUpperNamed)
            ItemDot = Sql(ItemColumn ItemStar ItemBraces)
            ItemBracesRow = Sql(ItemBracesRow)
            ItemNamed = Sql(ItemNamed)
            Source = Sql(SourceTable SourceExp)
            SourceMore = Sql(SourceMore)
            AsMark = Sql(AsMark)
            TableRef = Sql(RefTable RefExp)
            TableBraces = Sql(TableBraces)
            TableBracesExp = Sql(TableBracesExp)
            Order = Sql(Order)
            Direction = Sql(DirectionAsc DirectionDesc)
            OrderMore = Sql(OrderMore)
            Count = Sql(CountInt CountExp)
            SqlOr = Sql(SqlOr)
            SqlOrMore = Sql(SqlOrMore)
            SqlAnd = Sql(SqlAnd)
            SqlAndMore = Sql(SqlAndMore)
            SqlNot = Sql(SqlNegated SqlCompared)
            SqlCompare = Sql(SqlCompare)
            SqlCompareMore = Sql(SqlEqual SqlNotEqual SqlLess SqlLessOrEqual SqlGreater SqlGreaterOrEqual)
            SqlSum = Sql(SqlSum)
            SqlSumMore = Sql(SqlPlus SqlMinus)
            SqlProduct = Sql(SqlProduct)
            SqlProductMore = Sql(SqlTimes SqlDivide SqlModulo)
            SqlTerm = Sql(SqlNegative SqlInt SqlString SqlTrue SqlFalse SqlField SqlColumn SqlBrace
                SqlParens)
            SqlBraceRest = Sql(SqlSplice SqlExp)
        }
    }

    /// The words that begin a tree of the form. Those are what its rules give, and stand here so that they needn't be
    /// found again for each token.
    #[tactic(auto, unfolding(crate::specs::Firsts::first_of))]
    fn first(self) -> &'static [Kind]
        ensures { result.now ≡ first_of self }
    {
        let form = self;
        words! { form,
            KindTerm KindAtom = ("Type" "Unit" "Name" "{" "(")
            KindArrow ConArrow = ("->")
            KindTimes ConTimes = ("*")
            KindMark PatCons ConsMore = ("::")
            Con = ("fn" lower "[" "$" upper "_" "#" "(" "{")
            ConForall = ("::" ":::")
            ConProduct ConSum ConApply ConTerm GuardSides = ("$" upper lower "_" "#" "(" "{" "[")
            ConConcat = ("++")
            ConDollar = ("$")
            ConPrimary ConAtom = (upper lower "_" "#" "(" "{" "[")
            ConIndex PathSides DotUpper Dot = (".")
            HashName BracketHashRest = (upper int)
            ConParenRest = (")" "fn" lower "[" "$" upper "_" "#" "(" "{")
            ConParenEnd = (")" "::" ",")
            ConComma ConFieldMore ConRowMore PatComma PatFieldMore ExpComma ExpFieldMore ColumnMore
                ValueMore AssignmentMore ItemMore SourceMore OrderMore = (",")
            ConFieldTypes ConRowFields FieldName ExpFields = (upper int "#" lower)
            ConFieldValue = ("=")
            Path = (upper lower)
            UpperDot UpperPath Constructor Assignment = (upper)
            BracketOpen Splice = ("[")
            BracketRest = ("]" int lower upper "#" "$" "_" "(" "{" "[")
            BracketFields = ("=" "," "]")
            BracketNameRest = ("=" "," "]" "." "$" upper lower "_" "#" "(" "{" "[" "++" "~")
            BracketUpperRest = ("=" "," "]" ".")
            NameSides = ("." "$" upper lower "_" "#" "(" "{" "[" "++" "~")
            IntSides = (int)
            Pat PatTerm = (upper "_" lower int "-" string "[" "(" "{")
            PatAtom = ("_" lower int "-" string upper "[" "(" "{")
            PatParenRest = (")" upper "_" lower int "-" string "[" "(" "{")
            PatParenEnd ParenEnd = (")" ":" ",")
            PatRecordRest = ("}" "," upper int "#" lower)
            PatFieldNext = ("..." upper int "#" lower)
            Arg = ("_" lower int "-" string upper "(" "{" "[")
            ArgBracketRest = ("]" lower "$" upper "_" "#" "(" "{" "[")
            ArgLowerRest = ("]" "::" ":::" "." "$" upper lower "_" "#" "(" "{" "[" "++" "~")
            Exp = (upper "_" lower int "-" string "[" "(" "{" "fn" "case" "if" "@" "@@" "let" "<xml/>"
                "<xml>")
            ExpBindRest = ("<-")
            ExpThen = (";")
            Term = ("fn" "case" "if" "-" int string lower upper "@" "@@" "(" "{" "let" "<xml/>" "<xml>" "[")
            CaseBar CaseMore ConstructorMore = ("|")
            Body = ("if" "-" int string lower upper "@" "@@" "(" "{" "let" "<xml/>" "<xml>" "[")
            Or And Compare Cons Join Sum Product Sign = ("-" int string lower upper "@" "@@" "(" "{" "let"
                "<xml/>" "<xml>" "[")
            OrMore = ("||")
            AndMore = ("&&")
            CompareMore SqlCompareMore = ("=" "<>" "<" "<=" ">" ">=")
            JoinMore = ("^" "++")
            SumMore SqlSumMore = ("+" "-")
            ProductMore SqlProductMore = ("*" "/" "%")
            Cut Apply Atom = (int string lower upper "@" "@@" "(" "{" "let" "<xml/>" "<xml>" "[")
            CutMore = ("--" "---")
            Argument = (int string lower upper "@" "@@" "(" "{" "let" "<xml/>" "<xml>" "[" "!")
            ArgumentRest = ("]" "fn" lower "[" "$" upper "_" "#" "(" "{")
            Operand Primary = (int string lower upper "@" "@@" "(" "{" "let" "<xml/>" "<xml>")
            AnyName = (lower upper)
            ParenRest = (")" upper "_" lower int "-" string "[" "(" "{" "fn" "case" "if" "@" "@@" "let"
                "<xml/>" "<xml>" "SELECT" "INSERT" "UPDATE" "DELETE" "WHERE")
            Node = (text "{" open_tag)
            NodeBraceRest SqlBraceRest = ("[" upper "_" lower int "-" string "(" "{" "fn" "case" "if" "@"
                "@@" "let" "<xml/>" "<xml>")
            TagName ItemBracesRow TableBraces TableBracesExp = ("{")
            ElementEnd = ("/>" ">")
            Attribute = (name)
            AttributeValue = (string int "{")
            Decl = ("val" "fun" "con" "type" "datatype" "table" "sequence" "cookie")
            LetDecl = ("val" "fun")
            ValRest = (lower "rec")
            RecMore FunMore = ("and")
            TypeMark = (":")
            Parameter = (lower)
            ConstructorOf = ("of")
            KeyMark = ("PRIMARY")
            KeyColumns = (upper "(")
            ColumnList ValueList = ("(")
            InterfaceItem = ("val")
            Sql = ("SELECT" "INSERT" "UPDATE" "DELETE" "WHERE")
            Where = ("WHERE")
            OrderBy = ("ORDER")
            Limit = ("LIMIT")
            Offset = ("OFFSET")
            Selection = ("*" lower upper "NOT" "-" int string "TRUE" "FALSE" "{" "(")
            Item = (lower upper "NOT" "-" int string "TRUE" "FALSE" "{" "(")
            ItemUpperRest = ("." "*" "/" "%" "+" "-" "=" "<>" "<" "<=" ">" ">=" "AND" "OR" "AS")
            ItemDot = (upper "*" "{")
            ItemNamed = ("*" "/" "%" "+" "-" "=" "<>" "<" "<=" ">" ">=" "AND" "OR" "AS")
            Source TableRef = (upper lower "{")
            AsMark = ("AS")
            Order SqlOr SqlAnd SqlNot = ("NOT" "-" int string "TRUE" "FALSE" lower upper "{" "(")
            Direction = ("ASC" "DESC")
            Count = (int "{")
            SqlOrMore = ("OR")
            SqlAndMore = ("AND")
            SqlCompare SqlSum SqlProduct SqlTerm = ("-" int string "TRUE" "FALSE" lower upper "{" "(")
        }
    }

    /// Whether a token of this kind begins a tree of the form. Nothing begins one at the end.
    pub fn begins(self, next: Option<Kind>) -> bool
        ensures { result ≡ begins self next }
    {
        match next {
            Some(kind) => any_accepts(self.first(), kind),
            None => false,
        }
    }
}
