//! What an action makes of sizes.

ghost use Rattle.std.specs.Prelude.{◌≡◌, ◌+◌, ◌≤◌, ◌<◌, ◌∷◌, List, [], OnOk, IfOk, drop, length, max, take, if◌then◌else◌, nat_lt};
ghost use Rattle.sisal_grammar.specs.Sorts.{args};
ghost use Rattle.sisal_depth.specs.Sizes.{around, at, both, capped, deeper, deeper_line, deepest, flat, followed, growth, grown, link, listed, no_growth, on_line, through};
ghost use Rattle.sisal_depth.specs.declared.sizes.Growth.{Growth};

use crate::sizes::{Growth, Sizes, counted};
use sisal_grammar::Action;

/// How many values an action takes.
pub fn arity(action: Action) -> usize
    ensures { result ≡ length (args action) }
{
    match action {
        Action::NoNames
        | Action::Absent
        | Action::NoItems
        | Action::NoFields
        | Action::NoTypes
        | Action::NoExprs
        | Action::NoTail
        | Action::NoPosts
        | Action::NoValues
        | Action::NoCall
        | Action::NoName
        | Action::NoElements
        | Action::NoExpr
        | Action::NoArms
        | Action::NoGroups
        | Action::NoGens
        | Action::NoDefs
        | Action::NoTargets
        | Action::NoType
        | Action::NoClauses
        | Action::NoFold
        | Action::NoMask => 0,
        Action::Sign
        | Action::Basic
        | Action::SameExprs
        | Action::SameExpr
        | Action::CloseBracket
        | Action::Literal
        | Action::WordName
        | Action::AName
        | Action::OtherSubject
        | Action::SameDefs
        | Action::PlainFold
        | Action::Reduced => 1,
        Action::MoreItems
        | Action::SemiFields
        | Action::MoreFields
        | Action::SemiTags
        | Action::MoreTags
        | Action::TypedTag
        | Action::Exprs
        | Action::Chain
        | Action::Prefix
        | Action::OneTail
        | Action::Posted
        | Action::MorePosts
        | Action::Dot
        | Action::SemiValues
        | Action::MoreValues
        | Action::NameOrCall
        | Action::Old
        | Action::SomeExpr
        | Action::Else
        | Action::NameSubject
        | Action::Bound
        | Action::MoreArms
        | Action::Gens
        | Action::AtName
        | Action::Defs
        | Action::SemiDefs
        | Action::OneTarget
        | Action::SomeType
        | Action::OneTest
        | Action::MoreClauses
        | Action::Directed
        | Action::SomeMask => 2,
        Action::MoreNames
        | Action::Global
        | Action::OneTag
        | Action::MoreTypes
        | Action::MoreExprs
        | Action::MoreTail
        | Action::Bracket
        | Action::ColonBracket
        | Action::OneValue
        | Action::Call
        | Action::Group
        | Action::SomeElements
        | Action::Otherwise
        | Action::MoreGroups
        | Action::MoreGens
        | Action::MoreTargets
        | Action::TestFirst
        | Action::TestLast => 3,
        Action::Forward
        | Action::Listed
        | Action::OneField
        | Action::MoreBracket
        | Action::Convert
        | Action::ErrorOf
        | Action::For
        | Action::OneDef
        | Action::Gathered => 4,
        Action::Whole
        | Action::Alias
        | Action::Fielded
        | Action::Tagged
        | Action::Replaced
        | Action::Is
        | Action::Array
        | Action::Stream
        | Action::ElseIf
        | Action::OneArm
        | Action::OneGen
        | Action::Valued => 5,
        Action::Defined
        | Action::Record
        | Action::Union
        | Action::Let
        | Action::Product
        | Action::Initial => 6,
        Action::OneHeader | Action::If | Action::Case => 7,
        Action::Rest => 8,
    }
}

/// The size of nothing.
fn nothing() -> Growth
    ensures { result ≡ no_growth }
{
    counted(0, 0, 0, 0)
}

/// An operator with its right operand, or a selector with its expression, before others.
fn link(first: Growth, rest: Growth) -> Growth
    ensures { result ≡ link first rest }
{
    let adds = u32::from(rest.adds) + 1;
    let along = (u32::from(first.least) + adds).max(u32::from(rest.along));
    counted(adds, along, 0, 0)
}

/// What follows an operand, before others.
fn both(first: Growth, rest: Growth) -> Growth
    ensures { result ≡ both first rest }
{
    let adds = u32::from(rest.adds);
    let along = (u32::from(first.along) + adds).max(u32::from(rest.along));
    counted(u32::from(first.adds) + adds, along, 0, 0)
}

/// The line of the deeper one, of the first where they are as deep.
fn deeper_line(first: Growth, rest: Growth) -> u32
    ensures { result ≡ deeper_line first rest }
{
    if first.least < rest.least {
        rest.line
    } else {
        first.line
    }
}

/// An expression before others.
fn listed(first: Growth, rest: Growth) -> Growth
    ensures { result ≡ listed first rest }
{
    let adds = u32::from(rest.adds) + 1;
    let along = (u32::from(first.least) + adds).max(u32::from(rest.along));
    let least = first.least.max(rest.least);
    counted(adds, along, u32::from(least), deeper_line(first, rest))
}

/// An item of a unit before others.
fn deeper(first: Growth, rest: Growth) -> Growth
    ensures { result ≡ deeper first rest }
{
    let least = first.least.max(rest.least);
    counted(0, 0, u32::from(least), deeper_line(first, rest))
}

/// An operand with what follows it.
fn followed(first: Growth, rest: Growth) -> Growth
    ensures { result ≡ followed first rest }
{
    let deep = u32::from(first.least) + u32::from(rest.adds);
    counted(0, 0, deep.max(u32::from(rest.along)), first.line)
}

/// An expression whose deepest part is so deep, and which begins on this line.
fn above(deepest: u16, line: u32) -> Growth
    ensures { result ≡ on_line (deepest + 1) line }
{
    counted(0, 0, u32::from(deepest) + 1, line)
}

/// The size of what follows a name at the head of an expression, by so many sizes on top.
fn rest(sizes: &Sizes, count: usize) -> Growth
    ensures { result ≡ grown Action.Rest (take count sizes.now) }
{
    let mut size = above(sizes.part(0, count).least, 0);
    size = followed(size, sizes.part(1, count));
    size = followed(size, sizes.part(2, count));
    size = followed(size, sizes.part(3, count));
    size = followed(size, sizes.part(4, count));
    size = followed(size, sizes.part(5, count));
    size = followed(size, sizes.part(6, count));
    followed(size, sizes.part(7, count))
}

/// The size of what an action gives, by the sizes of what it takes, which lie on top.
pub fn grow(sizes: &Sizes, action: Action) -> Growth
    ensures { result ≡ grown action (take (length (args action)) sizes.now) }
{
    let count = arity(action);
    match action {
        Action::SameExpr | Action::SameExprs => sizes.part(0, count),
        Action::Else => sizes.part(1, count),
        Action::Defined => sizes.part(2, count),
        Action::Whole => sizes.part(4, count),
        Action::Chain | Action::Posted => followed(sizes.part(0, count), sizes.part(1, count)),
        Action::MoreTail | Action::Bracket => link(sizes.part(1, count), sizes.part(2, count)),
        Action::OneTail => link(sizes.part(1, count), nothing()),
        Action::MorePosts => both(sizes.part(0, count), sizes.part(1, count)),
        Action::Exprs => listed(sizes.part(0, count), sizes.part(1, count)),
        Action::MoreExprs | Action::MoreBracket => {
            listed(sizes.part(1, count), sizes.part(2, count))
        }
        Action::MoreItems => deeper(sizes.part(0, count), sizes.part(1, count)),
        Action::ElseIf => {
            let test = above(sizes.deepest(count), sizes.part(0, count).line);
            listed(test, nothing())
        }
        Action::Union => above(sizes.part(4, count).along, sizes.part(0, count).line),
        Action::For => counted(
            0,
            0,
            u32::from(sizes.part(1, count).least),
            sizes.part(0, count).line,
        ),
        Action::Rest => rest(sizes, count),
        Action::Prefix
        | Action::NameOrCall
        | Action::Literal
        | Action::Old
        | Action::Convert
        | Action::Group
        | Action::ErrorOf
        | Action::Is
        | Action::Array
        | Action::Stream
        | Action::Record
        | Action::Let
        | Action::If
        | Action::Case => above(sizes.deepest(count), sizes.part(0, count).line),
        Action::Dot => counted(1, 0, 0, 0),
        Action::Replaced => counted(1, u32::from(sizes.deepest(count)) + 1, 0, 0),
        Action::ColonBracket => counted(0, u32::from(sizes.part(1, count).least) + 1, 0, 0),
        Action::NoExpr => counted(0, 1, 0, 0),
        Action::SomeExpr => {
            let least = u32::from(sizes.part(1, count).least);
            counted(0, least, least, 0)
        }
        Action::Product => {
            let deepest = u32::from(sizes.deepest(count));
            counted(0, 0, deepest + u32::from(sizes.part(1, count).adds) + 1, 0)
        }
        Action::Initial => counted(0, 0, u32::from(sizes.deepest(count)) + 1, 0),
        Action::MoreGroups => {
            let adds = u32::from(sizes.part(2, count).adds) + 1;
            counted(adds, 0, u32::from(sizes.deepest(count)), 0)
        }
        _ => counted(0, 0, u32::from(sizes.deepest(count)), 0),
    }
}
