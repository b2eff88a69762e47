//! What a token says beyond its class.

ghost use Rattle.std.specs.Prelude.{◌≡◌, ◌<◌};
ghost use Rattle.sisal_grammar.specs.Acts.{binary_of, constant_of, direction_of, gathered_of, is_unless, is_until, name_in, named, prefix_of, reduction_of, scalar_of, span};

use sisal_grammar::Placed;
use sisal_lex::{Kind, Sign, Word};
use sisal_tree::{
    BinaryOperator, ClauseKind, Constant, Direction, Named, PrefixOperator, Reduction, Scalar,
    Written,
};

/// The number of its name, 0 where it is none.
pub fn name_in(token: &Placed) -> u32
    ensures { result ≡ name_in token.now }
{
    match token.kind {
        Kind::Id(name) => name,
        _ => 0,
    }
}

/// Its name, where it stands.
pub fn named(token: &Placed) -> Named
    ensures { result ≡ named token.now }
{
    Named {
        name: name_in(token),
        line: token.line,
    }
}

/// Its constant, `nil` where it is none.
pub fn constant_of(kind: Kind) -> Constant
    ensures { result ≡ constant_of kind }
{
    match kind {
        Kind::Number(number) => Constant::Integer(number),
        Kind::Letter(code) => Constant::Letter(code),
        Kind::Quoted(text) => Constant::Quoted(text),
        Kind::Word(Word::WTrue) => Constant::True,
        Kind::Word(Word::WFalse) => Constant::False,
        _ => Constant::Nil,
    }
}

/// Its operator before an operand, `-` where it is none.
pub fn prefix_of(kind: &Kind) -> PrefixOperator
    ensures { result ≡ prefix_of kind.now }
{
    match kind {
        Kind::Sign(Sign::SNot) => PrefixOperator::Not,
        _ => PrefixOperator::Negate,
    }
}

/// Its operator between two operands, `|` where it is none.
pub fn binary_of(kind: &Kind) -> BinaryOperator
    ensures { result ≡ binary_of kind.now }
{
    match kind {
        Kind::Sign(Sign::SAnd) => BinaryOperator::And,
        Kind::Sign(Sign::SEqual) => BinaryOperator::Equal,
        Kind::Sign(Sign::SNotEqual) => BinaryOperator::NotEqual,
        Kind::Sign(Sign::SLess) => BinaryOperator::Less,
        Kind::Sign(Sign::SLessEqual) => BinaryOperator::LessEqual,
        Kind::Sign(Sign::SGreater) => BinaryOperator::Greater,
        Kind::Sign(Sign::SGreaterEqual) => BinaryOperator::GreaterEqual,
        Kind::Sign(Sign::SCatenate) => BinaryOperator::Catenate,
        Kind::Sign(Sign::SPlus) => BinaryOperator::Plus,
        Kind::Sign(Sign::SMinus) => BinaryOperator::Minus,
        Kind::Sign(Sign::STimes) => BinaryOperator::Times,
        Kind::Sign(Sign::SDivide) => BinaryOperator::Divide,
        _ => BinaryOperator::Or,
    }
}

/// The type that it converts to, `integer` where it is none.
pub fn scalar_of(kind: &Kind) -> Scalar
    ensures { result ≡ scalar_of kind.now }
{
    match kind {
        Kind::Word(Word::WBoolean) => Scalar::Boolean,
        Kind::Word(Word::WCharacter) => Scalar::Character,
        _ => Scalar::Integer,
    }
}

/// Its way to group, `tree` where it is none.
pub fn direction_of(kind: &Kind) -> Direction
    ensures { result ≡ direction_of kind.now }
{
    match kind {
        Kind::Word(Word::WLeft) => Direction::Left,
        Kind::Word(Word::WRight) => Direction::Right,
        _ => Direction::Tree,
    }
}

/// Its reduction, `sum` where it is none.
pub fn reduction_of(kind: &Kind) -> Reduction
    ensures { result ≡ reduction_of kind.now }
{
    match kind {
        Kind::Word(Word::WProduct) => Reduction::Product,
        Kind::Word(Word::WLeast) => Reduction::Least,
        Kind::Word(Word::WGreatest) => Reduction::Greatest,
        Kind::Word(Word::WCatenate) => Reduction::Catenate,
        _ => Reduction::Sum,
    }
}

/// Whether it is `until`.
pub fn is_until(kind: &Kind) -> bool
    ensures { result ≡ is_until kind.now }
{
    matches!(kind, Kind::Word(Word::WUntil))
}

/// Whether it is `unless`.
pub fn is_unless(kind: &Kind) -> bool
    ensures { result ≡ is_unless kind.now }
{
    matches!(kind, Kind::Word(Word::WUnless))
}

/// What is gathered: a stream where it is `stream`.
pub fn gathered_of(kind: &Kind) -> ClauseKind
    ensures { result ≡ gathered_of kind.now }
{
    match kind {
        Kind::Word(Word::WStream) => ClauseKind::Stream,
        _ => ClauseKind::Array,
    }
}

/// The tokens from one to another.
pub fn span(from: &Placed, to: &Placed) -> Written
    requires { to.now.place < 4294967295 }
    ensures { result ≡ span from.now to.now }
{
    Written {
        from: from.place,
        to: to.place + 1,
    }
}
