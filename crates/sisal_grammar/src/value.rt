//! The values of symbols.
use crate::back::Back;
use sisal_tree::{
    Arm, BinaryOperator, Clause, ClauseKind, Def, Elements, Expr, Field, FieldValue, Generator,
    Header, Item, Kind, Loop, Mask, Named, Reduction, Seq, Target, Turn, Written,
};

/// A token and its place in the text.
#[derive(Drop)]
pub struct Placed {
    /// Its place among the tokens, from 0.
    pub place: u32,
    /// What it is.
    pub kind: Kind,
    /// Its line, from 1.
    pub line: u32,
}

/// A unit without its tokens.
#[derive(Drop)]
pub struct Outline {
    /// The names after `define`.
    pub defines: Seq<Named>,
    /// The types and functions in the order of the text.
    pub items: Seq<Item>,
}

/// What follows an operand.
#[derive(Drop)]
pub enum Selector {
    /// `"[" exprs "]"`
    At(Back<Expr>),
    /// `"[" expr ":" expr "]"`
    Change(Expr, Expr),
    /// `"." name`
    Field(u32),
    /// `"replace" "[" fv {";" fv} [";"] "]"`
    Replace(Seq<FieldValue>),
}

/// What follows the first expression in a bracket.
#[derive(Drop)]
pub enum Bracket {
    /// Further expressions.
    Further(Back<Expr>),
    /// `":" expr`
    Colon(Expr),
}

/// The subject of a `tagcase`, and the name of its content where there is one.
#[derive(Drop)]
pub struct Subject {
    /// The name of the content.
    pub name: Option<u32>,
    /// The union.
    pub expr: Expr,
}

/// What follows a name at the head of a `tagcase`.
#[derive(Drop)]
pub enum SubjectRest {
    /// `":=" expr`: the name is that of the content.
    Bound(Expr),
    /// The rest of an expression that begins with the name.
    Rest(ExprRest),
}

/// The rest of an expression that begins with a name.
#[derive(Drop)]
pub struct ExprRest {
    /// The arguments of a call.
    pub call: Option<Back<Expr>>,
    /// What follows the first operand.
    pub posts: Back<Selector>,
    /// `*` and `/`
    pub factors: Back<(BinaryOperator, Expr)>,
    /// `+` and `-`
    pub terms: Back<(BinaryOperator, Expr)>,
    /// `||`
    pub parts: Back<(BinaryOperator, Expr)>,
    /// A comparison.
    pub compared: Back<(BinaryOperator, Expr)>,
    /// `&`
    pub all: Back<(BinaryOperator, Expr)>,
    /// `|`
    pub any: Back<(BinaryOperator, Expr)>,
}

/// The test of a turn.
#[derive(Drop)]
pub struct Test {
    /// Whether its word is `until`.
    pub is_until: bool,
    /// The test.
    pub test: Expr,
}

/// The value of a symbol.
#[derive(Drop)]
pub enum Value {
    /// A token.
    AToken(Placed),
    /// Nothing.
    Nothing,
    /// A unit.
    AnOutline(Outline),
    /// Names.
    Names(Back<Named>),
    /// A type definition or a function.
    AnItem(Item),
    /// Type definitions and functions.
    Items(Back<Item>),
    /// A written type.
    AType(Written),
    /// Written types.
    Types(Back<Written>),
    /// Names with their type.
    AField(Field),
    /// Lists of names, each with a type.
    Fields(Back<Field>),
    /// A header.
    AHeader(Header),
    /// An expression.
    AnExpr(Expr),
    /// Expressions.
    Exprs(Back<Expr>),
    /// An expression, or none.
    MaybeExpr(Option<Expr>),
    /// Expressions, or none.
    MaybeExprs(Option<Back<Expr>>),
    /// Operators, each with its right operand.
    Tail(Back<(BinaryOperator, Expr)>),
    /// What follows an operand.
    APost(Selector),
    /// All that follows an operand.
    Posts(Back<Selector>),
    /// What follows the first expression in a bracket.
    ABracket(Bracket),
    /// A field with its value.
    AValue(FieldValue),
    /// Fields with their values.
    Values(Back<FieldValue>),
    /// A name, or none.
    MaybeName(Option<u32>),
    /// A lower bound with elements, or none.
    MaybeElements(Option<Elements>),
    /// The subject of a `tagcase`.
    ASubject(Subject),
    /// What follows a name at the head of a `tagcase`.
    ARest(SubjectRest),
    /// An arm.
    AnArm(Arm),
    /// Arms.
    Arms(Back<Arm>),
    /// A loop.
    ALoop(Loop),
    /// A generator.
    AGen(Generator),
    /// Generators.
    Gens(Back<Generator>),
    /// Groups of generators.
    Groups(Back<Seq<Generator>>),
    /// A definition.
    ADef(Def),
    /// Definitions.
    Defs(Back<Def>),
    /// A target of a definition.
    ATarget(Target),
    /// Targets of a definition.
    Targets(Back<Target>),
    /// A written type, or none.
    MaybeType(Option<Written>),
    /// A turn with its test.
    ATurn(Turn),
    /// A test.
    ATest(Test),
    /// A clause.
    AClause(Clause),
    /// Clauses.
    Clauses(Back<Clause>),
    /// What a clause makes of its values.
    AKind(ClauseKind),
    /// A reduction.
    AReduction(Reduction),
    /// A mask, or none.
    MaybeMask(Option<Mask>),
}
