//! The classes of tokens, as the table of the grammar has them.

ghost use Rattle.std.specs.Prelude.{◌≡◌};
ghost use Rattle.sisal_grammar.specs.Classes.{class_of, word_class, sign_class};

use sisal_tree::{Kind, Sign, Word};

/// The class of a token.
pub fn class_of(kind: &Kind) -> u8
    ensures { result ≡ class_of kind.now }
{
    match kind {
        Kind::Word(word) => word_class(*word),
        Kind::Sign(sign) => sign_class(*sign),
        Kind::Id(_) => 2,
        Kind::Number(_) => 42,
        Kind::Letter(_) => 43,
        Kind::Quoted(_) => 44,
    }
}

fn word_class(word: Word) -> u8
    ensures { result ≡ word_class word }
{
    match word {
        Word::WArray => 17,
        Word::WAt => 65,
        Word::WBoolean => 12,
        Word::WCatenate => 78,
        Word::WCharacter => 13,
        Word::WCross => 63,
        Word::WDefine => 1,
        Word::WDot => 64,
        Word::WDoubleReal => 16,
        Word::WElse => 58,
        Word::WElseif => 57,
        Word::WEnd => 10,
        Word::WError => 49,
        Word::WFalse => 46,
        Word::WFor => 56,
        Word::WForward => 7,
        Word::WFunction => 8,
        Word::WGlobal => 9,
        Word::WGreatest => 77,
        Word::WIf => 53,
        Word::WIn => 52,
        Word::WInitial => 62,
        Word::WInteger => 11,
        Word::WIs => 50,
        Word::WLeast => 76,
        Word::WLeft => 71,
        Word::WLet => 51,
        Word::WNil => 47,
        Word::WNull => 14,
        Word::WOf => 69,
        Word::WOld => 48,
        Word::WOtherwise => 61,
        Word::WProduct => 75,
        Word::WReal => 15,
        Word::WRecord => 21,
        Word::WRepeat => 66,
        Word::WReplace => 41,
        Word::WReturns => 25,
        Word::WRight => 72,
        Word::WStream => 20,
        Word::WSum => 74,
        Word::WTag => 60,
        Word::WTagcase => 55,
        Word::WThen => 54,
        Word::WTree => 73,
        Word::WTrue => 45,
        Word::WType => 5,
        Word::WUnion => 22,
        Word::WUnless => 80,
        Word::WUntil => 68,
        Word::WValue => 70,
        Word::WWhen => 79,
        Word::WWhile => 67,
    }
}

fn sign_class(sign: Sign) -> u8
    ensures { result ≡ sign_class sign }
{
    match sign {
        Sign::SOpenParen => 24,
        Sign::SCloseParen => 26,
        Sign::SOpenBracket => 18,
        Sign::SCloseBracket => 19,
        Sign::SComma => 3,
        Sign::SSemicolon => 4,
        Sign::SColon => 23,
        Sign::SAssign => 59,
        Sign::SDot => 40,
        Sign::SPlus => 36,
        Sign::SMinus => 37,
        Sign::STimes => 38,
        Sign::SDivide => 39,
        Sign::SCatenate => 35,
        Sign::SOr => 27,
        Sign::SAnd => 28,
        Sign::SNot => 29,
        Sign::SEqual => 6,
        Sign::SNotEqual => 30,
        Sign::SLess => 31,
        Sign::SLessEqual => 32,
        Sign::SGreater => 33,
        Sign::SGreaterEqual => 34,
    }
}
