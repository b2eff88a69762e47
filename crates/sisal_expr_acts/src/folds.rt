//! Expressions that are made from the left.

ghost use Rattle.std.specs.Prelude.{◌≡◌, ◌∷◌, fold, IfOk};
ghost use Rattle.sisal_grammar.specs.Acts.{asked, bracketed, called, chained, content, followed, joined, posted, rest_of, selected, subject_of};

use flow_value::{Held, NoMemory, Seq};
use parse_stack::name_in;
use sisal_grammar::{Back, Bracket, ExprRest, Placed, Selector, Subject, SubjectRest};
use sisal_tree::{BinaryOperator, Constant, Expr, ExprKind};
use std::alloc::Global;

/// Two operands with the operator between them.
fn joined(
    alloc: Global,
    left: Expr,
    operator: BinaryOperator,
    right: Expr,
) -> Result<Expr, NoMemory>
    ensures { IfOk result (λ e. e ≡ joined left (operator, right)) }
{
    let line = left.line;
    let left = Held::new(alloc, left)?;
    let right = Held::new(alloc, right)?;
    Ok(Expr {
        line,
        kind: ExprKind::Binary(operator, left, right),
    })
}

/// An operand with those that follow it, grouped to the left.
pub fn chained(
    alloc: Global,
    first: Expr,
    tail: Back<(BinaryOperator, Expr)>,
) -> Result<Expr, NoMemory>
    ensures { IfOk result (λ e. e ≡ chained first tail) }
{
    let mut left = first;
    let mut rest = tail;
    while let Some((operator, right)) = rest.pop() {
        left = joined(alloc, left, operator, right)?;
    }
    Ok(left)
}

/// The element of an array at an index.
fn selected(alloc: Global, array: Expr, index: Expr) -> Result<Expr, NoMemory>
    ensures { IfOk result (λ e. e ≡ selected array index) }
{
    let line = array.line;
    let array = Held::new(alloc, array)?;
    let index = Held::new(alloc, index)?;
    Ok(Expr {
        line,
        kind: ExprKind::Select(array, index),
    })
}

/// The element of an array of arrays at indexes.
fn selected_all(alloc: Global, array: Expr, indexes: Back<Expr>) -> Result<Expr, NoMemory>
    ensures { IfOk result (λ e. e ≡ fold selected array indexes) }
{
    let mut element = array;
    let mut rest = indexes;
    while let Some(index) = rest.pop() {
        element = selected(alloc, element, index)?;
    }
    Ok(element)
}

/// An operand with what follows it.
fn followed(alloc: Global, operand: Expr, selector: Selector) -> Result<Expr, NoMemory>
    ensures { IfOk result (λ e. e ≡ followed operand selector) }
{
    let line = operand.line;
    match selector {
        Selector::At(indexes) => selected_all(alloc, operand, indexes),
        Selector::Change(index, value) => {
            let operand = Held::new(alloc, operand)?;
            let index = Held::new(alloc, index)?;
            let value = Held::new(alloc, value)?;
            Ok(Expr {
                line,
                kind: ExprKind::Update(operand, index, value),
            })
        }
        Selector::Field(name) => Ok(Expr {
            line,
            kind: ExprKind::Field(Held::new(alloc, operand)?, name),
        }),
        Selector::Replace(values) => Ok(Expr {
            line,
            kind: ExprKind::Replace(Held::new(alloc, operand)?, values),
        }),
    }
}

/// An operand with all that follows it.
pub fn posted(alloc: Global, operand: Expr, selectors: Back<Selector>) -> Result<Expr, NoMemory>
    ensures { IfOk result (λ e. e ≡ posted operand selectors) }
{
    let mut operand = operand;
    let mut rest = selectors;
    while let Some(selector) = rest.pop() {
        operand = followed(alloc, operand, selector)?;
    }
    Ok(operand)
}

/// What stands in a bracket.
pub fn bracketed(first: Expr, bracket: Bracket) -> Result<Selector, NoMemory>
    ensures { IfOk result (λ s. s ≡ bracketed first bracket) }
{
    match bracket {
        Bracket::Further(further) => {
            let mut indexes = further;
            indexes.push(first)?;
            Ok(Selector::At(indexes))
        }
        Bracket::Colon(value) => Ok(Selector::Change(first, value)),
    }
}

/// A name, or a call of what it names.
pub fn called(token: &Placed, call: Option<Back<Expr>>) -> Expr
    ensures { result ≡ called token.now call }
{
    let name = name_in(token);
    let kind = match call {
        None => ExprKind::Name(name),
        Some(arguments) => ExprKind::Call(name, arguments.into_seq()),
    };
    Expr {
        line: token.line,
        kind,
    }
}

/// A test for the error value, or for a tag.
pub fn asked(alloc: Global, line: u32, tag: Option<u32>, value: Expr) -> Result<Expr, NoMemory>
    ensures { IfOk result (λ e. e ≡ asked line tag value) }
{
    let value = Held::new(alloc, value)?;
    let kind = match tag {
        None => ExprKind::IsError(value),
        Some(name) => ExprKind::IsTag(name, value),
    };
    Ok(Expr { line, kind })
}

/// The content of a union's tag: `nil` where none is written.
pub fn content(tag: &Placed, written: Option<Expr>) -> Expr
    ensures { result ≡ content tag.now written }
{
    match written {
        None => Expr {
            line: tag.line,
            kind: ExprKind::Constant(Constant::Nil),
        },
        Some(expr) => expr,
    }
}

/// An expression that begins with a name.
fn rest_of(alloc: Global, token: &Placed, rest: ExprRest) -> Result<Expr, NoMemory>
    ensures { IfOk result (λ e. e ≡ rest_of token.now rest) }
{
    let operand = posted(alloc, called(token, rest.call), rest.posts)?;
    let factors = chained(alloc, operand, rest.factors)?;
    let terms = chained(alloc, factors, rest.terms)?;
    let parts = chained(alloc, terms, rest.parts)?;
    let compared = chained(alloc, parts, rest.compared)?;
    let all = chained(alloc, compared, rest.all)?;
    chained(alloc, all, rest.any)
}

/// The subject of a `tagcase` whose first token is a name.
pub fn subject_of(alloc: Global, token: &Placed, rest: SubjectRest) -> Result<Subject, NoMemory>
    ensures { IfOk result (λ s. s ≡ subject_of token.now rest) }
{
    match rest {
        SubjectRest::Bound(expr) => Ok(Subject {
            name: Some(name_in(token)),
            expr,
        }),
        SubjectRest::Rest(rest) => Ok(Subject {
            name: None,
            expr: rest_of(alloc, token, rest)?,
        }),
    }
}

/// The list in its order, where there is one.
pub fn in_order(list: Option<Back<Expr>>) -> Option<Seq<Expr>>
    ensures { result ≡ list }
{
    match list {
        None => None,
        Some(items) => Some(items.into_seq()),
    }
}
