//! Expressions and their parts, each taken off the top of the stack.

ghost use Rattle.std.specs.Prelude.{◌≡◌, ◌∷◌, List, []};
ghost use Rattle.sisal_grammar.specs.Sorts.{Sort, a_bracket, a_post, a_rest, a_subject, a_value, an_arm, an_expr, arms, exprs, maybe_elements, maybe_expr, maybe_exprs, posts, tail, values};
ghost use Rattle.parse_stack.specs.Stack.{Tops};

use crate::stack::Values;
use sisal_grammar::{Back, Bracket, Selector, Subject, SubjectRest, Value};
use sisal_tree::{Arm, BinaryOperator, Elements, Expr, FieldValue};

impl Values {
    /// Takes the expression off the top.
    pub fn take_expr(&mut self) -> Expr
        requires { Tops (an_expr ∷ []) self.old }
        ensures value { self.old ≡ Value.AnExpr result ∷ self.new }
        ensures rest { (ks : List Sort) → Tops (an_expr ∷ ks) self.old → Tops ks self.new }
    {
        match self.pop() {
            Some(Value::AnExpr(value)) => value,
            _ => unreachable!(),
        }
    }

    /// Takes the expressions off the top.
    pub fn take_exprs(&mut self) -> Back<Expr>
        requires { Tops (exprs ∷ []) self.old }
        ensures value { self.old ≡ Value.Exprs result ∷ self.new }
        ensures rest { (ks : List Sort) → Tops (exprs ∷ ks) self.old → Tops ks self.new }
    {
        match self.pop() {
            Some(Value::Exprs(value)) => value,
            _ => unreachable!(),
        }
    }

    /// Takes the expression, or none off the top.
    pub fn take_maybe_expr(&mut self) -> Option<Expr>
        requires { Tops (maybe_expr ∷ []) self.old }
        ensures value { self.old ≡ Value.MaybeExpr result ∷ self.new }
        ensures rest { (ks : List Sort) → Tops (maybe_expr ∷ ks) self.old → Tops ks self.new }
    {
        match self.pop() {
            Some(Value::MaybeExpr(value)) => value,
            _ => unreachable!(),
        }
    }

    /// Takes the expressions, or none off the top.
    pub fn take_maybe_exprs(&mut self) -> Option<Back<Expr>>
        requires { Tops (maybe_exprs ∷ []) self.old }
        ensures value { self.old ≡ Value.MaybeExprs result ∷ self.new }
        ensures rest { (ks : List Sort) → Tops (maybe_exprs ∷ ks) self.old → Tops ks self.new }
    {
        match self.pop() {
            Some(Value::MaybeExprs(value)) => value,
            _ => unreachable!(),
        }
    }

    /// Takes the operators, each with its right operand off the top.
    pub fn take_tail(&mut self) -> Back<(BinaryOperator, Expr)>
        requires { Tops (tail ∷ []) self.old }
        ensures value { self.old ≡ Value.Tail result ∷ self.new }
        ensures rest { (ks : List Sort) → Tops (tail ∷ ks) self.old → Tops ks self.new }
    {
        match self.pop() {
            Some(Value::Tail(value)) => value,
            _ => unreachable!(),
        }
    }

    /// Takes what follows an operand off the top.
    pub fn take_post(&mut self) -> Selector
        requires { Tops (a_post ∷ []) self.old }
        ensures value { self.old ≡ Value.APost result ∷ self.new }
        ensures rest { (ks : List Sort) → Tops (a_post ∷ ks) self.old → Tops ks self.new }
    {
        match self.pop() {
            Some(Value::APost(value)) => value,
            _ => unreachable!(),
        }
    }

    /// Takes all that follows an operand off the top.
    pub fn take_posts(&mut self) -> Back<Selector>
        requires { Tops (posts ∷ []) self.old }
        ensures value { self.old ≡ Value.Posts result ∷ self.new }
        ensures rest { (ks : List Sort) → Tops (posts ∷ ks) self.old → Tops ks self.new }
    {
        match self.pop() {
            Some(Value::Posts(value)) => value,
            _ => unreachable!(),
        }
    }

    /// Takes what follows the first expression in a bracket off the top.
    pub fn take_bracket(&mut self) -> Bracket
        requires { Tops (a_bracket ∷ []) self.old }
        ensures value { self.old ≡ Value.ABracket result ∷ self.new }
        ensures rest { (ks : List Sort) → Tops (a_bracket ∷ ks) self.old → Tops ks self.new }
    {
        match self.pop() {
            Some(Value::ABracket(value)) => value,
            _ => unreachable!(),
        }
    }

    /// Takes the field with its value off the top.
    pub fn take_field_value(&mut self) -> FieldValue
        requires { Tops (a_value ∷ []) self.old }
        ensures value { self.old ≡ Value.AValue result ∷ self.new }
        ensures rest { (ks : List Sort) → Tops (a_value ∷ ks) self.old → Tops ks self.new }
    {
        match self.pop() {
            Some(Value::AValue(value)) => value,
            _ => unreachable!(),
        }
    }

    /// Takes the fields with their values off the top.
    pub fn take_field_values(&mut self) -> Back<FieldValue>
        requires { Tops (values ∷ []) self.old }
        ensures value { self.old ≡ Value.Values result ∷ self.new }
        ensures rest { (ks : List Sort) → Tops (values ∷ ks) self.old → Tops ks self.new }
    {
        match self.pop() {
            Some(Value::Values(value)) => value,
            _ => unreachable!(),
        }
    }

    /// Takes the lower bound with elements, or none off the top.
    pub fn take_maybe_elements(&mut self) -> Option<Elements>
        requires { Tops (maybe_elements ∷ []) self.old }
        ensures value { self.old ≡ Value.MaybeElements result ∷ self.new }
        ensures rest { (ks : List Sort) → Tops (maybe_elements ∷ ks) self.old → Tops ks self.new }
    {
        match self.pop() {
            Some(Value::MaybeElements(value)) => value,
            _ => unreachable!(),
        }
    }

    /// Takes the subject of a `tagcase` off the top.
    pub fn take_subject(&mut self) -> Subject
        requires { Tops (a_subject ∷ []) self.old }
        ensures value { self.old ≡ Value.ASubject result ∷ self.new }
        ensures rest { (ks : List Sort) → Tops (a_subject ∷ ks) self.old → Tops ks self.new }
    {
        match self.pop() {
            Some(Value::ASubject(value)) => value,
            _ => unreachable!(),
        }
    }

    /// Takes what follows a name at the head of a `tagcase` off the top.
    pub fn take_rest(&mut self) -> SubjectRest
        requires { Tops (a_rest ∷ []) self.old }
        ensures value { self.old ≡ Value.ARest result ∷ self.new }
        ensures rest { (ks : List Sort) → Tops (a_rest ∷ ks) self.old → Tops ks self.new }
    {
        match self.pop() {
            Some(Value::ARest(value)) => value,
            _ => unreachable!(),
        }
    }

    /// Takes the arm off the top.
    pub fn take_arm(&mut self) -> Arm
        requires { Tops (an_arm ∷ []) self.old }
        ensures value { self.old ≡ Value.AnArm result ∷ self.new }
        ensures rest { (ks : List Sort) → Tops (an_arm ∷ ks) self.old → Tops ks self.new }
    {
        match self.pop() {
            Some(Value::AnArm(value)) => value,
            _ => unreachable!(),
        }
    }

    /// Takes the arms off the top.
    pub fn take_arms(&mut self) -> Back<Arm>
        requires { Tops (arms ∷ []) self.old }
        ensures value { self.old ≡ Value.Arms result ∷ self.new }
        ensures rest { (ks : List Sort) → Tops (arms ∷ ks) self.old → Tops ks self.new }
    {
        match self.pop() {
            Some(Value::Arms(value)) => value,
            _ => unreachable!(),
        }
    }
}
