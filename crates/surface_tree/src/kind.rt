//! The kinds of tokens.

/// What a token is, without what it holds. Keywords begin with `Keyword`, SQL words with `Sql`.
#[derive(Clone, Copy, Debug, PartialEq, Eq)]
pub enum Kind {
    /// `and`.
    KeywordAnd,
    /// `case`.
    KeywordCase,
    /// `con`.
    KeywordCon,
    /// `cookie`.
    KeywordCookie,
    /// `datatype`.
    KeywordDatatype,
    /// `else`.
    KeywordElse,
    /// `end`.
    KeywordEnd,
    /// `fn`.
    KeywordFn,
    /// `fun`.
    KeywordFun,
    /// `functor`.
    KeywordFunctor,
    /// `if`.
    KeywordIf,
    /// `in`.
    KeywordIn,
    /// `let`.
    KeywordLet,
    /// `of`.
    KeywordOf,
    /// `open`.
    KeywordOpen,
    /// `rec`.
    KeywordRec,
    /// `sequence`.
    KeywordSequence,
    /// `sig`.
    KeywordSig,
    /// `signature`.
    KeywordSignature,
    /// `struct`.
    KeywordStruct,
    /// `structure`.
    KeywordStructure,
    /// `table`.
    KeywordTable,
    /// `then`.
    KeywordThen,
    /// `type`.
    KeywordType,
    /// `val`.
    KeywordVal,
    /// `where`.
    KeywordWhere,
    /// `AND`.
    SqlAnd,
    /// `AS`.
    SqlAs,
    /// `ASC`.
    SqlAsc,
    /// `BY`.
    SqlBy,
    /// `CONSTRAINT`.
    SqlConstraint,
    /// `DELETE`.
    SqlDelete,
    /// `DESC`.
    SqlDesc,
    /// `FALSE`.
    SqlFalse,
    /// `FROM`.
    SqlFrom,
    /// `INSERT`.
    SqlInsert,
    /// `INTO`.
    SqlInto,
    /// `IS`.
    SqlIs,
    /// `JOIN`.
    SqlJoin,
    /// `KEY`.
    SqlKey,
    /// `LEFT`.
    SqlLeft,
    /// `LIMIT`.
    SqlLimit,
    /// `NOT`.
    SqlNot,
    /// `NULL`.
    SqlNull,
    /// `OFFSET`.
    SqlOffset,
    /// `ON`.
    SqlOn,
    /// `OR`.
    SqlOr,
    /// `ORDER`.
    SqlOrder,
    /// `PRIMARY`.
    SqlPrimary,
    /// `SELECT`.
    SqlSelect,
    /// `SET`.
    SqlSet,
    /// `TRUE`.
    SqlTrue,
    /// `UNIQUE`.
    SqlUnique,
    /// `UPDATE`.
    SqlUpdate,
    /// `VALUES`.
    SqlValues,
    /// `WHERE`.
    SqlWhere,
    /// The upper-case name `Type`, which stands wherever an upper-case name does.
    TypeWord,
    /// The upper-case name `Unit`, which stands wherever an upper-case name does.
    UnitWord,
    /// The upper-case name `Name`, which stands wherever an upper-case name does.
    NameWord,
    /// `!`.
    Exclamation,
    /// `#`.
    Hash,
    /// `$`.
    Dollar,
    /// `%`.
    Percent,
    /// `&&`.
    DoubleAmpersand,
    /// `(`.
    LeftParenthesis,
    /// `)`.
    RightParenthesis,
    /// `*`.
    Star,
    /// `+`.
    Plus,
    /// `++`.
    DoublePlus,
    /// `,`.
    Comma,
    /// `-`.
    Dash,
    /// `--`.
    DoubleDash,
    /// `---`.
    TripleDash,
    /// `->`.
    Arrow,
    /// `.`.
    Dot,
    /// `...`.
    Ellipsis,
    /// `/`.
    Slash,
    /// `:`.
    Colon,
    /// `::`.
    DoubleColon,
    /// `:::`.
    TripleColon,
    /// `;`.
    Semicolon,
    /// `<`.
    LessThan,
    /// `<-`.
    LeftArrow,
    /// `<=`.
    LessOrEqual,
    /// `<>`.
    NotEqual,
    /// `<xml/>`.
    XmlEmpty,
    /// `<xml>`.
    XmlOpen,
    /// `=`.
    EqualSign,
    /// `=>`.
    DoubleArrow,
    /// `>`.
    GreaterThan,
    /// `>=`.
    GreaterOrEqual,
    /// `@`.
    AtSign,
    /// `@@`.
    DoubleAtSign,
    /// `[`.
    LeftBracket,
    /// `]`.
    RightBracket,
    /// `^`.
    Caret,
    /// `{`.
    LeftBrace,
    /// `|`.
    Bar,
    /// `||`.
    DoubleBar,
    /// `}`.
    RightBrace,
    /// `~`.
    Tilde,
    /// `_` on its own.
    Underscore,
    /// A name that begins with a lower-case letter or `_`, and is no keyword. It holds its spelling.
    LowerName,
    /// A name that begins with an upper-case letter, and has no kind of its own. It holds its spelling.
    UpperName,
    /// A number. It holds its value.
    Integer,
    /// A text between quotes. It holds the characters that it stands for.
    StringLiteral,
    /// A text between tags. It holds the characters that it stands for.
    TextRun,
    /// `<name`, the front of an opening tag. It holds the name.
    TagOpen,
    /// `</name>`, a closing tag. It holds the name.
    TagClose,
    /// `</xml>` where no element is open in the XML literal, so that it closes the literal.
    XmlClose,
    /// The name of an attribute in a tag. It holds the name.
    AttributeName,
    /// `/>`, the end of a tag without content. A tag's `>` and `=` are `GreaterThan` and `EqualSign`.
    TagSelfClose,
}
