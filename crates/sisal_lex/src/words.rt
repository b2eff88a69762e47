//! The reserved words.
ghost use Rattle.std.specs.Prelude.{◌≡◌, map};
ghost use Rattle.sisal_lex.specs.Words.{words, beside, plain_row};

use crate::token::Word;

const WORDS: [(&[u8], Word); 53] = [
    (b"array", Word::WArray),
    (b"at", Word::WAt),
    (b"boolean", Word::WBoolean),
    (b"catenate", Word::WCatenate),
    (b"character", Word::WCharacter),
    (b"cross", Word::WCross),
    (b"define", Word::WDefine),
    (b"dot", Word::WDot),
    (b"double_real", Word::WDoubleReal),
    (b"else", Word::WElse),
    (b"elseif", Word::WElseif),
    (b"end", Word::WEnd),
    (b"error", Word::WError),
    (b"false", Word::WFalse),
    (b"for", Word::WFor),
    (b"forward", Word::WForward),
    (b"function", Word::WFunction),
    (b"global", Word::WGlobal),
    (b"greatest", Word::WGreatest),
    (b"if", Word::WIf),
    (b"in", Word::WIn),
    (b"initial", Word::WInitial),
    (b"integer", Word::WInteger),
    (b"is", Word::WIs),
    (b"least", Word::WLeast),
    (b"left", Word::WLeft),
    (b"let", Word::WLet),
    (b"nil", Word::WNil),
    (b"null", Word::WNull),
    (b"of", Word::WOf),
    (b"old", Word::WOld),
    (b"otherwise", Word::WOtherwise),
    (b"product", Word::WProduct),
    (b"real", Word::WReal),
    (b"record", Word::WRecord),
    (b"repeat", Word::WRepeat),
    (b"replace", Word::WReplace),
    (b"returns", Word::WReturns),
    (b"right", Word::WRight),
    (b"stream", Word::WStream),
    (b"sum", Word::WSum),
    (b"tag", Word::WTag),
    (b"tagcase", Word::WTagcase),
    (b"then", Word::WThen),
    (b"tree", Word::WTree),
    (b"true", Word::WTrue),
    (b"type", Word::WType),
    (b"union", Word::WUnion),
    (b"unless", Word::WUnless),
    (b"until", Word::WUntil),
    (b"value", Word::WValue),
    (b"when", Word::WWhen),
    (b"while", Word::WWhile),
];

/// The reserved word with this spelling, in small letters.
pub fn word_of(spelling: &[u8]) -> Option<Word>
    ensures { result ≡ beside spelling.now words }
{
    word_in(&WORDS, spelling)
}

fn word_in(table: &[(&[u8], Word)], spelling: &[u8]) -> Option<Word>
    ensures { result ≡ beside spelling.now (map plain_row table.now) }
{
    for (row, word) in table {
        if *row == spelling {
            return Some(*word);
        }
    }
    None
}
