//! Loops and their parts, each taken off the top of the stack.

ghost use Rattle.std.specs.Prelude.{◌≡◌, ◌∷◌, List, []};
ghost use Rattle.sisal_grammar.specs.Sorts.{Sort, a_clause, a_gen, a_kind, a_loop, a_reduction, a_test, a_turn, clauses, gens, groups, maybe_mask};
ghost use Rattle.parse_stack.specs.Stack.{Tops};

use crate::stack::Values;
use flow_value::Seq;
use sisal_grammar::{Back, Test, Value};
use sisal_tree::{Clause, ClauseKind, Generator, Loop, Mask, Reduction, Turn};

impl Values {
    /// Takes the loop off the top.
    pub fn take_loop(&mut self) -> Loop
        requires { Tops (a_loop ∷ []) self.old }
        ensures value { self.old ≡ Value.ALoop result ∷ self.new }
        ensures rest { (ks : List Sort) → Tops (a_loop ∷ ks) self.old → Tops ks self.new }
    {
        match self.pop() {
            Some(Value::ALoop(value)) => value,
            _ => unreachable!(),
        }
    }

    /// Takes the generator off the top.
    pub fn take_generator(&mut self) -> Generator
        requires { Tops (a_gen ∷ []) self.old }
        ensures value { self.old ≡ Value.AGen result ∷ self.new }
        ensures rest { (ks : List Sort) → Tops (a_gen ∷ ks) self.old → Tops ks self.new }
    {
        match self.pop() {
            Some(Value::AGen(value)) => value,
            _ => unreachable!(),
        }
    }

    /// Takes the generators off the top.
    pub fn take_generators(&mut self) -> Back<Generator>
        requires { Tops (gens ∷ []) self.old }
        ensures value { self.old ≡ Value.Gens result ∷ self.new }
        ensures rest { (ks : List Sort) → Tops (gens ∷ ks) self.old → Tops ks self.new }
    {
        match self.pop() {
            Some(Value::Gens(value)) => value,
            _ => unreachable!(),
        }
    }

    /// Takes the groups of generators off the top.
    pub fn take_groups(&mut self) -> Back<Seq<Generator>>
        requires { Tops (groups ∷ []) self.old }
        ensures value { self.old ≡ Value.Groups result ∷ self.new }
        ensures rest { (ks : List Sort) → Tops (groups ∷ ks) self.old → Tops ks self.new }
    {
        match self.pop() {
            Some(Value::Groups(value)) => value,
            _ => unreachable!(),
        }
    }

    /// Takes the turn with its test off the top.
    pub fn take_turn(&mut self) -> Turn
        requires { Tops (a_turn ∷ []) self.old }
        ensures value { self.old ≡ Value.ATurn result ∷ self.new }
        ensures rest { (ks : List Sort) → Tops (a_turn ∷ ks) self.old → Tops ks self.new }
    {
        match self.pop() {
            Some(Value::ATurn(value)) => value,
            _ => unreachable!(),
        }
    }

    /// Takes the test off the top.
    pub fn take_test(&mut self) -> Test
        requires { Tops (a_test ∷ []) self.old }
        ensures value { self.old ≡ Value.ATest result ∷ self.new }
        ensures rest { (ks : List Sort) → Tops (a_test ∷ ks) self.old → Tops ks self.new }
    {
        match self.pop() {
            Some(Value::ATest(value)) => value,
            _ => unreachable!(),
        }
    }

    /// Takes the clause off the top.
    pub fn take_clause(&mut self) -> Clause
        requires { Tops (a_clause ∷ []) self.old }
        ensures value { self.old ≡ Value.AClause result ∷ self.new }
        ensures rest { (ks : List Sort) → Tops (a_clause ∷ ks) self.old → Tops ks self.new }
    {
        match self.pop() {
            Some(Value::AClause(value)) => value,
            _ => unreachable!(),
        }
    }

    /// Takes the clauses off the top.
    pub fn take_clauses(&mut self) -> Back<Clause>
        requires { Tops (clauses ∷ []) self.old }
        ensures value { self.old ≡ Value.Clauses result ∷ self.new }
        ensures rest { (ks : List Sort) → Tops (clauses ∷ ks) self.old → Tops ks self.new }
    {
        match self.pop() {
            Some(Value::Clauses(value)) => value,
            _ => unreachable!(),
        }
    }

    /// Takes what a clause makes of its values off the top.
    pub fn take_clause_kind(&mut self) -> ClauseKind
        requires { Tops (a_kind ∷ []) self.old }
        ensures value { self.old ≡ Value.AKind result ∷ self.new }
        ensures rest { (ks : List Sort) → Tops (a_kind ∷ ks) self.old → Tops ks self.new }
    {
        match self.pop() {
            Some(Value::AKind(value)) => value,
            _ => unreachable!(),
        }
    }

    /// Takes the reduction off the top.
    pub fn take_reduction(&mut self) -> Reduction
        requires { Tops (a_reduction ∷ []) self.old }
        ensures value { self.old ≡ Value.AReduction result ∷ self.new }
        ensures rest { (ks : List Sort) → Tops (a_reduction ∷ ks) self.old → Tops ks self.new }
    {
        match self.pop() {
            Some(Value::AReduction(value)) => value,
            _ => unreachable!(),
        }
    }

    /// Takes the mask, or none off the top.
    pub fn take_maybe_mask(&mut self) -> Option<Mask>
        requires { Tops (maybe_mask ∷ []) self.old }
        ensures value { self.old ≡ Value.MaybeMask result ∷ self.new }
        ensures rest { (ks : List Sort) → Tops (maybe_mask ∷ ks) self.old → Tops ks self.new }
    {
        match self.pop() {
            Some(Value::MaybeMask(value)) => value,
            _ => unreachable!(),
        }
    }
}
