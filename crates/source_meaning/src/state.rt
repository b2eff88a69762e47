//! What is left to do.
use crate::slots::{Given, Slot};
use flow_value::{Items, Seq};
use loop_folds::Clause;
use typed_tree::{Case, Product, Turns, TypedExpr};
use value_ops::Operation;

/// The parts of a loop over generators.
#[derive(Clone, Copy)]
pub struct Walked<'a> {
    /// Its generators and clauses.
    pub form: &'a Product,
    /// The definitions of each place.
    pub defs: &'a Seq<Seq<TypedExpr>>,
    /// The values of the clauses.
    pub values: &'a Seq<TypedExpr>,
    /// How many results it has.
    pub results: usize,
}

/// A loop over generators that goes on.
#[derive(Drop)]
pub struct Walk<'a> {
    /// Its parts.
    pub parts: Walked<'a>,
    /// The bounds of its generators.
    pub bounds: Seq<Slot>,
    /// How many names are in force around it.
    pub mark: usize,
    /// How many places it has.
    pub count: usize,
    /// How many of them are left.
    pub left: usize,
    /// The clauses so far.
    pub clauses: Vec<Clause>,
}

/// The parts of a `for initial`.
#[derive(Clone, Copy)]
pub struct Turned<'a> {
    /// Its turns and clauses.
    pub form: &'a Turns,
    /// The test.
    pub test: &'a Seq<TypedExpr>,
    /// The definitions of a turn.
    pub defs: &'a Seq<Seq<TypedExpr>>,
    /// The values of the clauses.
    pub values: &'a Seq<TypedExpr>,
    /// How many results it has.
    pub results: usize,
}

/// A `for initial` that goes on.
#[derive(Drop)]
pub struct Round<'a> {
    /// Its parts.
    pub parts: Turned<'a>,
    /// How many names are in force around it.
    pub mark: usize,
    /// How many names are in force before a turn.
    pub height: usize,
    /// Whether a test comes before the next turn.
    pub is_tested: bool,
    /// The clauses so far.
    pub clauses: Vec<Clause>,
}

/// What is done with the values of a list of expressions.
#[derive(Drop)]
pub enum After<'a> {
    /// They come into force as names, and then those of these definitions.
    Bind(&'a [Seq<TypedExpr>]),
    /// So many names stay in force, and the values are passed on.
    Unbind(usize),
    /// A function is called with them.
    Enter(u32),
    /// These names are in force again, and the values are passed on.
    Leave(Items),
    /// They are a test: one of these arms is evaluated, of so many results.
    Choose(&'a Seq<TypedExpr>, &'a Seq<TypedExpr>, usize),
    /// They are a union: one of these arms is evaluated, of so many results.
    Pick(&'a Case, &'a Seq<Seq<TypedExpr>>, usize),
    /// They are passed on.
    Pass,
    /// They are the values of the clauses at a place.
    Next(Walk<'a>),
    /// The loop names are in force, and a loop begins.
    Start(Round<'a>),
    /// They are the values of the clauses before a turn.
    Kept(Round<'a>),
    /// They are a test before a turn.
    Tested(Round<'a>),
    /// The names of a turn are in force.
    Renew(Round<'a>),
}

/// What is done with operands.
#[derive(Clone, Copy)]
pub enum Work<'a> {
    /// An operation.
    Apply(&'a Operation),
    /// They are the bounds of a loop's generators.
    Span(Walked<'a>),
}

/// A list of expressions that is being evaluated, and what comes after.
#[derive(Drop)]
pub struct Listing<'a> {
    /// What comes after.
    pub after: After<'a>,
    /// The expressions that are left.
    pub left: &'a [TypedExpr],
    /// The values so far.
    pub done: Items,
}

/// Operands that are being evaluated, and what comes after.
#[derive(Drop)]
pub struct Operating<'a> {
    /// What comes after.
    pub work: Work<'a>,
    /// The expressions that are left.
    pub left: &'a [TypedExpr],
    /// The operands so far.
    pub slots: Seq<Slot>,
}

/// One piece of pending work.
#[derive(Drop)]
pub enum Frame<'a> {
    /// Values that are kept.
    Listing(Listing<'a>),
    /// Operands, whose names are only lent.
    Operating(Operating<'a>),
}

/// The pending work, the last piece first to be done; the values of the names in force; the values
/// given last; and the steps so far.
#[derive(Drop)]
pub struct State<'a> {
    /// The pending work.
    pub frames: Vec<Frame<'a>>,
    /// The values of the names.
    pub names: Items,
    /// The values given last.
    pub given: Given,
    /// The steps.
    pub steps: u64,
}

/// Whether the evaluator goes on, or the limit is reached.
#[derive(Clone, Copy, Debug, PartialEq, Eq)]
pub enum Going {
    /// It goes on.
    On,
    /// The limit is reached.
    Limit,
}
