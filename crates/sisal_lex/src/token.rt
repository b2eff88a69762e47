//! The tokens of SISAL 1.2.
use flow_value::{Name, Seq, Text};

/// A reserved word, which no name can be.
#[derive(Clone, Copy, Debug, PartialEq, Eq)]
pub enum Word {
    /// `array`
    WArray,
    /// `at`
    WAt,
    /// `boolean`
    WBoolean,
    /// `catenate`
    WCatenate,
    /// `character`
    WCharacter,
    /// `cross`
    WCross,
    /// `define`
    WDefine,
    /// `dot`
    WDot,
    /// `double_real`
    WDoubleReal,
    /// `else`
    WElse,
    /// `elseif`
    WElseif,
    /// `end`
    WEnd,
    /// `error`
    WError,
    /// `false`
    WFalse,
    /// `for`
    WFor,
    /// `forward`
    WForward,
    /// `function`
    WFunction,
    /// `global`
    WGlobal,
    /// `greatest`
    WGreatest,
    /// `if`
    WIf,
    /// `in`
    WIn,
    /// `initial`
    WInitial,
    /// `integer`
    WInteger,
    /// `is`
    WIs,
    /// `least`
    WLeast,
    /// `left`
    WLeft,
    /// `let`
    WLet,
    /// `nil`
    WNil,
    /// `null`
    WNull,
    /// `of`
    WOf,
    /// `old`
    WOld,
    /// `otherwise`
    WOtherwise,
    /// `product`
    WProduct,
    /// `real`
    WReal,
    /// `record`
    WRecord,
    /// `repeat`
    WRepeat,
    /// `replace`
    WReplace,
    /// `returns`
    WReturns,
    /// `right`
    WRight,
    /// `stream`
    WStream,
    /// `sum`
    WSum,
    /// `tag`
    WTag,
    /// `tagcase`
    WTagcase,
    /// `then`
    WThen,
    /// `tree`
    WTree,
    /// `true`
    WTrue,
    /// `type`
    WType,
    /// `union`
    WUnion,
    /// `unless`
    WUnless,
    /// `until`
    WUntil,
    /// `value`
    WValue,
    /// `when`
    WWhen,
    /// `while`
    WWhile,
}

/// A sign.
#[derive(Clone, Copy, Debug, PartialEq, Eq)]
pub enum Sign {
    /// `(`
    SOpenParen,
    /// `)`
    SCloseParen,
    /// `[`
    SOpenBracket,
    /// `]`
    SCloseBracket,
    /// `,`
    SComma,
    /// `;`
    SSemicolon,
    /// `:`
    SColon,
    /// `:=`
    SAssign,
    /// `.`
    SDot,
    /// `+`
    SPlus,
    /// `-`
    SMinus,
    /// `*`
    STimes,
    /// `/`
    SDivide,
    /// `||`
    SCatenate,
    /// `|`
    SOr,
    /// `&`
    SAnd,
    /// `~`
    SNot,
    /// `=`
    SEqual,
    /// `~=`
    SNotEqual,
    /// `<`
    SLess,
    /// `<=`
    SLessEqual,
    /// `>`
    SGreater,
    /// `>=`
    SGreaterEqual,
}

/// What a token is.
#[derive(Drop)]
pub enum Kind {
    /// A reserved word.
    Word(Word),
    /// A sign.
    Sign(Sign),
    /// A name, by its number in the list of the text's names.
    Id(u32),
    /// A number from 0 to 9223372036854775807.
    Number(i64),
    /// A character, by its code from 0 to 127.
    Letter(u8),
    /// A text in quotes, by the codes of its characters.
    Quoted(Text),
}

/// A token and the line on which it begins, from 1.
#[derive(Drop)]
pub struct Token {
    /// What it is.
    pub kind: Kind,
    /// The line, from 1.
    pub line: u32,
}

/// The tokens of a text in order, and its names, folded to small letters, each once and in the
/// order of first use. `Id(k)` is the name at place k.
#[derive(Drop)]
pub struct Tokens {
    /// The tokens.
    pub list: Seq<Token>,
    /// The names.
    pub names: Seq<Name>,
}
