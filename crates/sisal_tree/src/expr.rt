//! Expressions.
use crate::unit::{Named, Written};
use sisal_lex::{Held, Seq, Text};

/// An expression and the line on which it begins.
#[cycle(tree)]
pub struct Expr {
    /// The line of its first token, from 1.
    pub line: u32,
    /// What it is.
    pub kind: ExprKind,
}

impl Drop for Expr {
    #[cycle(drop_tree)]
    fn drop(self) {
        let Expr {
            line: _,
            kind: _kind,
        } = self;
    }
}

/// What an expression is.
#[cycle(tree)]
pub enum ExprKind {
    /// A constant.
    Constant(Constant),
    /// A name.
    Name(u32),
    /// `old name`
    Old(u32),
    /// `"(" expr ")"`
    Group(Held<Expr>),
    /// `name "(" [exprs] ")"`
    Call(u32, Seq<Expr>),
    /// `integer(e)`, `boolean(e)` or `character(e)`
    Convert(Scalar, Held<Expr>),
    /// `error[type]`
    ErrorOf(Written),
    /// `is error(e)`
    IsError(Held<Expr>),
    /// `is tag(e)`
    IsTag(u32, Held<Expr>),
    /// An operator before its operand.
    Prefix(PrefixOperator, Held<Expr>),
    /// An operator between two operands.
    Binary(BinaryOperator, Held<Expr>, Held<Expr>),
    /// `a[i]`; `a[i, j]` is `a[i][j]`.
    Select(Held<Expr>, Held<Expr>),
    /// `a[i: v]`
    Update(Held<Expr>, Held<Expr>, Held<Expr>),
    /// `r.name`
    Field(Held<Expr>, u32),
    /// `r replace [name: e; ..]`
    Replace(Held<Expr>, Seq<FieldValue>),
    /// `array name [low: e, ..]`, where the name and what stands in the brackets may be absent.
    Array(Option<u32>, Option<Elements>),
    /// `stream name [e, ..]`, where the name may be absent.
    Stream(Option<u32>, Seq<Expr>),
    /// `record name [field: e; ..]`, where the name may be absent.
    Record(Option<u32>, Seq<FieldValue>),
    /// `union name [tag: e]`; `union name [tag]` is `union name [tag: nil]`.
    Union(u32, u32, Held<Expr>),
    /// `let defs in exprs end let`
    Let(Seq<Def>, Seq<Expr>),
    /// `if test then exprs else exprs end if`; an `elseif` is an `if` in the `else` part.
    If(Held<Expr>, Seq<Expr>, Seq<Expr>),
    /// `tagcase .. end tagcase`
    TagCase(TagCase),
    /// `for .. end for`
    For(Loop),
}

impl Drop for ExprKind {
    #[cycle(drop_tree)]
    fn drop(self) {
        match self {
            ExprKind::Constant(_part) => {}
            ExprKind::Name(_) => {}
            ExprKind::Old(_) => {}
            ExprKind::Group(_part) => {}
            ExprKind::Call(_, _part) => {}
            ExprKind::Convert(_, _part) => {}
            ExprKind::ErrorOf(_) => {}
            ExprKind::IsError(_part) => {}
            ExprKind::IsTag(_, _part) => {}
            ExprKind::Prefix(_, _part) => {}
            ExprKind::Binary(_, _part1, _part2) => {}
            ExprKind::Select(_part0, _part1) => {}
            ExprKind::Update(_part0, _part1, _part2) => {}
            ExprKind::Field(_part, _) => {}
            ExprKind::Replace(_part0, _part1) => {}
            ExprKind::Array(_, _part) => {}
            ExprKind::Stream(_, _part) => {}
            ExprKind::Record(_, _part) => {}
            ExprKind::Union(_, _, _part) => {}
            ExprKind::Let(_part0, _part1) => {}
            ExprKind::If(_part0, _part1, _part2) => {}
            ExprKind::TagCase(_part) => {}
            ExprKind::For(_part) => {}
        }
    }
}

/// A constant.
pub enum Constant {
    /// A number.
    Integer(i64),
    /// A character, by its code.
    Letter(u8),
    /// A text, by the codes of its characters.
    Quoted(Text),
    /// `true`
    True,
    /// `false`
    False,
    /// `nil`
    Nil,
}

impl Drop for Constant {
    fn drop(self) {
        match self {
            Constant::Integer(_) => {}
            Constant::Letter(_) => {}
            Constant::Quoted(_part) => {}
            Constant::True => {}
            Constant::False => {}
            Constant::Nil => {}
        }
    }
}

/// A type that a value is converted to.
#[derive(Clone, Copy)]
pub enum Scalar {
    /// `integer`
    Integer,
    /// `boolean`
    Boolean,
    /// `character`
    Character,
}

/// An operator before its operand.
#[derive(Clone, Copy)]
pub enum PrefixOperator {
    /// `-`
    Negate,
    /// `~`
    Not,
}

/// An operator between two operands.
#[derive(Clone, Copy)]
pub enum BinaryOperator {
    /// `|`
    Or,
    /// `&`
    And,
    /// `=`
    Equal,
    /// `~=`
    NotEqual,
    /// `<`
    Less,
    /// `<=`
    LessEqual,
    /// `>`
    Greater,
    /// `>=`
    GreaterEqual,
    /// `||`
    Catenate,
    /// `+`
    Plus,
    /// `-`
    Minus,
    /// `*`
    Times,
    /// `/`
    Divide,
}

/// `name ":" expr`
#[cycle(tree)]
pub struct FieldValue {
    /// The field, where it stands.
    pub field: Named,
    /// Its value.
    pub value: Expr,
}

impl Drop for FieldValue {
    #[cycle(drop_tree)]
    fn drop(self) {
        let FieldValue {
            field: _,
            value: _value,
        } = self;
    }
}

/// `expr ":" exprs`: the lower bound of an array and its elements.
#[cycle(tree)]
pub struct Elements {
    /// The lower bound.
    pub lower: Held<Expr>,
    /// The elements.
    pub values: Seq<Expr>,
}

impl Drop for Elements {
    #[cycle(drop_tree)]
    fn drop(self) {
        let Elements {
            lower: _lower,
            values: _values,
        } = self;
    }
}

/// `target {"," target} ":=" exprs`
#[cycle(tree)]
pub struct Def {
    /// What is defined.
    pub targets: Seq<Target>,
    /// The values.
    pub values: Seq<Expr>,
}

impl Drop for Def {
    #[cycle(drop_tree)]
    fn drop(self) {
        let Def {
            targets: _targets,
            values: _values,
        } = self;
    }
}

/// `name [":" type]`
#[derive(Clone, Copy)]
pub struct Target {
    /// The name, where it stands.
    pub name: Named,
    /// Its type, where one is declared.
    pub ty: Option<Written>,
}

/// `tagcase [name ":="] expr arm {arm} ["otherwise" ":" exprs] end tagcase`
#[cycle(tree)]
pub struct TagCase {
    /// The name of the content, where there is one.
    pub name: Option<u32>,
    /// The union.
    pub subject: Held<Expr>,
    /// The arms.
    pub arms: Seq<Arm>,
    /// The results of the tags that no arm names.
    pub otherwise: Option<Seq<Expr>>,
}

impl Drop for TagCase {
    #[cycle(drop_tree)]
    fn drop(self) {
        let TagCase {
            name: _,
            subject: _subject,
            arms: _arms,
            otherwise: _otherwise,
        } = self;
    }
}

/// `"tag" name {"," name} ":" exprs`
#[cycle(tree)]
pub struct Arm {
    /// The line of the word `tag`.
    pub line: u32,
    /// The tags.
    pub tags: Seq<Named>,
    /// The results.
    pub results: Seq<Expr>,
}

impl Drop for Arm {
    #[cycle(drop_tree)]
    fn drop(self) {
        let Arm {
            line: _,
            tags: _tags,
            results: _results,
        } = self;
    }
}

/// What stands between `for` and `end for`.
#[cycle(tree)]
pub enum Loop {
    /// `group {"cross" group} [defs] "returns" clause {clause}`: the groups of generators, the
    /// definitions and the clauses.
    Product(Seq<Seq<Generator>>, Seq<Def>, Seq<Clause>),
    /// `"initial" defs turn "returns" clause {clause}`
    Initial(Seq<Def>, Turn, Seq<Clause>),
}

impl Drop for Loop {
    #[cycle(drop_tree)]
    fn drop(self) {
        match self {
            Loop::Product(_part0, _part1, _part2) => {}
            Loop::Initial(_part0, _part1, _part2) => {}
        }
    }
}

/// `name "in" expr ["," expr] ["at" name]`
#[cycle(tree)]
pub struct Generator {
    /// The name, where it stands.
    pub name: Named,
    /// The first number of a range, or the array or stream.
    pub from: Expr,
    /// The last number of a range.
    pub to: Option<Expr>,
    /// The name of the index.
    pub at: Option<u32>,
}

impl Drop for Generator {
    #[cycle(drop_tree)]
    fn drop(self) {
        let Generator {
            name: _,
            from: _from,
            to: _to,
            at: _,
        } = self;
    }
}

/// The turn of a loop with its test.
#[cycle(tree)]
pub struct Turn {
    /// Whether the test stands before the turn.
    pub is_first: bool,
    /// Whether the loop goes on until the test holds, and not while it holds.
    pub is_until: bool,
    /// The test.
    pub test: Held<Expr>,
    /// The definitions of the turn.
    pub defs: Seq<Def>,
}

impl Drop for Turn {
    #[cycle(drop_tree)]
    fn drop(self) {
        let Turn {
            is_first: _,
            is_until: _,
            test: _test,
            defs: _defs,
        } = self;
    }
}

/// A result of a loop.
#[cycle(tree)]
pub struct Clause {
    /// The line of its first word.
    pub line: u32,
    /// What is made of the values.
    pub kind: ClauseKind,
    /// The value of each place.
    pub value: Expr,
    /// Which places are kept, where not all are.
    pub mask: Option<Mask>,
}

impl Drop for Clause {
    #[cycle(drop_tree)]
    fn drop(self) {
        let Clause {
            line: _,
            kind: _,
            value: _value,
            mask: _mask,
        } = self;
    }
}

/// What a clause makes of its values.
#[derive(Clone, Copy)]
pub enum ClauseKind {
    /// `array of`
    Array,
    /// `stream of`
    Stream,
    /// `value of` without a reduction: the last value.
    Last,
    /// `value of` a reduction.
    Reduce(Direction, Reduction),
}

/// How a reduction groups.
#[derive(Clone, Copy)]
pub enum Direction {
    /// Not said.
    Any,
    /// `left`
    Left,
    /// `right`
    Right,
    /// `tree`
    Tree,
}

/// A reduction.
#[derive(Clone, Copy)]
pub enum Reduction {
    /// `sum`
    Sum,
    /// `product`
    Product,
    /// `least`
    Least,
    /// `greatest`
    Greatest,
    /// `catenate`
    Catenate,
}

/// `when e` or `unless e`
#[cycle(tree)]
pub struct Mask {
    /// Whether a place is kept where the test doesn't hold.
    pub is_unless: bool,
    /// The test.
    pub test: Expr,
}

impl Drop for Mask {
    #[cycle(drop_tree)]
    fn drop(self) {
        let Mask {
            is_unless: _,
            test: _test,
        } = self;
    }
}
