//! How the tables of the grammar are written: a rule as its line in the notation of the grammar.
//!
//! A word stands in quotes, `lower`, `upper`, `int`, `string`, `text`, `name`, `open_tag` and `close_tag` are the words
//! that hold something, `{Form}` is any number of trees, and `[Form]` is one or none.
/// The kind of a word, by its spelling.
macro_rules! word_kind {
    ("->") => { Kind::Arrow };
    ("@") => { Kind::AtSign };
    ("|") => { Kind::Bar };
    ("^") => { Kind::Caret };
    (":") => { Kind::Colon };
    (",") => { Kind::Comma };
    ("-") => { Kind::Dash };
    ("$") => { Kind::Dollar };
    (".") => { Kind::Dot };
    ("&&") => { Kind::DoubleAmpersand };
    ("=>") => { Kind::DoubleArrow };
    ("@@") => { Kind::DoubleAtSign };
    ("||") => { Kind::DoubleBar };
    ("::") => { Kind::DoubleColon };
    ("--") => { Kind::DoubleDash };
    ("++") => { Kind::DoublePlus };
    ("...") => { Kind::Ellipsis };
    ("=") => { Kind::EqualSign };
    ("!") => { Kind::Exclamation };
    (">=") => { Kind::GreaterOrEqual };
    (">") => { Kind::GreaterThan };
    ("#") => { Kind::Hash };
    ("and") => { Kind::KeywordAnd };
    ("case") => { Kind::KeywordCase };
    ("con") => { Kind::KeywordCon };
    ("cookie") => { Kind::KeywordCookie };
    ("datatype") => { Kind::KeywordDatatype };
    ("else") => { Kind::KeywordElse };
    ("end") => { Kind::KeywordEnd };
    ("fn") => { Kind::KeywordFn };
    ("fun") => { Kind::KeywordFun };
    ("if") => { Kind::KeywordIf };
    ("in") => { Kind::KeywordIn };
    ("let") => { Kind::KeywordLet };
    ("of") => { Kind::KeywordOf };
    ("rec") => { Kind::KeywordRec };
    ("sequence") => { Kind::KeywordSequence };
    ("table") => { Kind::KeywordTable };
    ("then") => { Kind::KeywordThen };
    ("type") => { Kind::KeywordType };
    ("val") => { Kind::KeywordVal };
    ("<-") => { Kind::LeftArrow };
    ("{") => { Kind::LeftBrace };
    ("[") => { Kind::LeftBracket };
    ("(") => { Kind::LeftParenthesis };
    ("<=") => { Kind::LessOrEqual };
    ("<") => { Kind::LessThan };
    ("Name") => { Kind::NameWord };
    ("<>") => { Kind::NotEqual };
    ("%") => { Kind::Percent };
    ("+") => { Kind::Plus };
    ("}") => { Kind::RightBrace };
    ("]") => { Kind::RightBracket };
    (")") => { Kind::RightParenthesis };
    (";") => { Kind::Semicolon };
    ("/") => { Kind::Slash };
    ("AND") => { Kind::SqlAnd };
    ("AS") => { Kind::SqlAs };
    ("ASC") => { Kind::SqlAsc };
    ("BY") => { Kind::SqlBy };
    ("DELETE") => { Kind::SqlDelete };
    ("DESC") => { Kind::SqlDesc };
    ("FALSE") => { Kind::SqlFalse };
    ("FROM") => { Kind::SqlFrom };
    ("INSERT") => { Kind::SqlInsert };
    ("INTO") => { Kind::SqlInto };
    ("KEY") => { Kind::SqlKey };
    ("LIMIT") => { Kind::SqlLimit };
    ("NOT") => { Kind::SqlNot };
    ("OFFSET") => { Kind::SqlOffset };
    ("OR") => { Kind::SqlOr };
    ("ORDER") => { Kind::SqlOrder };
    ("PRIMARY") => { Kind::SqlPrimary };
    ("SELECT") => { Kind::SqlSelect };
    ("SET") => { Kind::SqlSet };
    ("TRUE") => { Kind::SqlTrue };
    ("UPDATE") => { Kind::SqlUpdate };
    ("VALUES") => { Kind::SqlValues };
    ("WHERE") => { Kind::SqlWhere };
    ("*") => { Kind::Star };
    ("/>") => { Kind::TagSelfClose };
    ("~") => { Kind::Tilde };
    (":::") => { Kind::TripleColon };
    ("---") => { Kind::TripleDash };
    ("Type") => { Kind::TypeWord };
    ("_") => { Kind::Underscore };
    ("Unit") => { Kind::UnitWord };
    ("</xml>") => { Kind::XmlClose };
    ("<xml/>") => { Kind::XmlEmpty };
    ("<xml>") => { Kind::XmlOpen };
    (name) => { Kind::AttributeName };
    (int) => { Kind::Integer };
    (lower) => { Kind::LowerName };
    (string) => { Kind::StringLiteral };
    (close_tag) => { Kind::TagClose };
    (open_tag) => { Kind::TagOpen };
    (text) => { Kind::TextRun };
    (upper) => { Kind::UpperName };
}

pub(crate) use word_kind;

/// A part of a rule.
macro_rules! part_of {
    ({ $form:ident }) => { Part::Many(Form::$form) };
    ([ $form:ident ]) => { Part::Maybe(Form::$form) };
    (name) => { Part::Word(word_kind!(name)) };
    (int) => { Part::Word(word_kind!(int)) };
    (lower) => { Part::Word(word_kind!(lower)) };
    (string) => { Part::Word(word_kind!(string)) };
    (close_tag) => { Part::Word(word_kind!(close_tag)) };
    (open_tag) => { Part::Word(word_kind!(open_tag)) };
    (text) => { Part::Word(word_kind!(text)) };
    (upper) => { Part::Word(word_kind!(upper)) };
    ($form:ident) => { Part::One(Form::$form) };
    ($word:tt) => { Part::Word(word_kind!($word)) };
}

pub(crate) use part_of;

/// The parts of the rule, by the lines of its group.
macro_rules! lines {
    ($given:ident, $group:ident: $($rule:ident = ( $($part:tt)* ))*) => {
        match $given {
            $( $group::$rule => &[$( part_of!($part) ),*], )*
        }
    };
}

pub(crate) use lines;

/// The rules of the form.
macro_rules! rules {
    ($given:ident, $($form:ident = $group:ident ( $($rule:ident)* ))*) => {
        match $given {
            $( Form::$form => rules!(@group $group $($rule)*), )*
        }
    };

    (@group Kind $($rule:ident)*) => { &[$( Rule::Kind(KindRule::$rule) ),*] };
    (@group Con $($rule:ident)*) => { &[$( Rule::Con(ConRule::$rule) ),*] };
    (@group Pat $($rule:ident)*) => { &[$( Rule::Pat(PatRule::$rule) ),*] };
    (@group Arg $($rule:ident)*) => { &[$( Rule::Arg(ArgRule::$rule) ),*] };
    (@group Exp $($rule:ident)*) => { &[$( Rule::Exp(ExpRule::$rule) ),*] };
    (@group Markup $($rule:ident)*) => { &[$( Rule::Markup(MarkupRule::$rule) ),*] };
    (@group Decl $($rule:ident)*) => { &[$( Rule::Decl(DeclRule::$rule) ),*] };
    (@group Sql $($rule:ident)*) => { &[$( Rule::Sql(SqlRule::$rule) ),*] };
}

pub(crate) use rules;

/// The words that begin the form.
macro_rules! words {
    ($given:ident, $($($form:ident)+ = ( $($word:tt)* ))*) => {
        match $given {
            $( $( Form::$form )|+ => &[$( word_kind!($word) ),*], )*
        }
    };
}

pub(crate) use words;
