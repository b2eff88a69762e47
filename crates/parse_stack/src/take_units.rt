//! Tokens, types, functions and definitions, each taken off the top of the stack.

ghost use Rattle.std.specs.Prelude.{◌≡◌, ◌<◌, ◌∷◌, List, []};
ghost use Rattle.sisal_grammar.specs.Sorts.{Sort, a_def, a_field, a_header, a_target, a_token, a_type, an_item, an_outline, defs, fields, items, maybe_name, maybe_type, names, nothing, targets, types};
ghost use Rattle.parse_stack.specs.Stack.{Tops};

use crate::stack::Values;
use sisal_grammar::{Back, Outline, Placed, Value};
use sisal_tree::{Def, Field, Header, Item, Named, Target, Written};

impl Values {
    /// Takes the token off the top.
    pub fn take_token(&mut self) -> Placed
        requires { Tops (a_token ∷ []) self.old }
        ensures value { self.old ≡ Value.AToken result ∷ self.new }
        ensures place { result.place < 4294967295 }
        ensures rest { (ks : List Sort) → Tops (a_token ∷ ks) self.old → Tops ks self.new }
    {
        match self.pop() {
            Some(Value::AToken(value)) => value,
            _ => unreachable!(),
        }
    }

    /// Takes the value of a symbol that has none off the top.
    pub fn take_nothing(&mut self)
        requires { Tops (nothing ∷ []) self.old }
        ensures value { self.old ≡ Value.Nothing ∷ self.new }
        ensures rest { (ks : List Sort) → Tops (nothing ∷ ks) self.old → Tops ks self.new }
    {
        match self.pop() {
            Some(Value::Nothing) => (),
            _ => unreachable!(),
        }
    }

    /// Takes the unit off the top.
    pub fn take_outline(&mut self) -> Outline
        requires { Tops (an_outline ∷ []) self.old }
        ensures value { self.old ≡ Value.AnOutline result ∷ self.new }
        ensures rest { (ks : List Sort) → Tops (an_outline ∷ ks) self.old → Tops ks self.new }
    {
        match self.pop() {
            Some(Value::AnOutline(value)) => value,
            _ => unreachable!(),
        }
    }

    /// Takes the names off the top.
    pub fn take_names(&mut self) -> Back<Named>
        requires { Tops (names ∷ []) self.old }
        ensures value { self.old ≡ Value.Names result ∷ self.new }
        ensures rest { (ks : List Sort) → Tops (names ∷ ks) self.old → Tops ks self.new }
    {
        match self.pop() {
            Some(Value::Names(value)) => value,
            _ => unreachable!(),
        }
    }

    /// Takes the type definition or a function off the top.
    pub fn take_item(&mut self) -> Item
        requires { Tops (an_item ∷ []) self.old }
        ensures value { self.old ≡ Value.AnItem result ∷ self.new }
        ensures rest { (ks : List Sort) → Tops (an_item ∷ ks) self.old → Tops ks self.new }
    {
        match self.pop() {
            Some(Value::AnItem(value)) => value,
            _ => unreachable!(),
        }
    }

    /// Takes the type definitions and functions off the top.
    pub fn take_items(&mut self) -> Back<Item>
        requires { Tops (items ∷ []) self.old }
        ensures value { self.old ≡ Value.Items result ∷ self.new }
        ensures rest { (ks : List Sort) → Tops (items ∷ ks) self.old → Tops ks self.new }
    {
        match self.pop() {
            Some(Value::Items(value)) => value,
            _ => unreachable!(),
        }
    }

    /// Takes the written type off the top.
    pub fn take_written(&mut self) -> Written
        requires { Tops (a_type ∷ []) self.old }
        ensures value { self.old ≡ Value.AType result ∷ self.new }
        ensures rest { (ks : List Sort) → Tops (a_type ∷ ks) self.old → Tops ks self.new }
    {
        match self.pop() {
            Some(Value::AType(value)) => value,
            _ => unreachable!(),
        }
    }

    /// Takes the written types off the top.
    pub fn take_types(&mut self) -> Back<Written>
        requires { Tops (types ∷ []) self.old }
        ensures value { self.old ≡ Value.Types result ∷ self.new }
        ensures rest { (ks : List Sort) → Tops (types ∷ ks) self.old → Tops ks self.new }
    {
        match self.pop() {
            Some(Value::Types(value)) => value,
            _ => unreachable!(),
        }
    }

    /// Takes the names with their type off the top.
    pub fn take_field(&mut self) -> Field
        requires { Tops (a_field ∷ []) self.old }
        ensures value { self.old ≡ Value.AField result ∷ self.new }
        ensures rest { (ks : List Sort) → Tops (a_field ∷ ks) self.old → Tops ks self.new }
    {
        match self.pop() {
            Some(Value::AField(value)) => value,
            _ => unreachable!(),
        }
    }

    /// Takes the lists of names, each with a type off the top.
    pub fn take_fields(&mut self) -> Back<Field>
        requires { Tops (fields ∷ []) self.old }
        ensures value { self.old ≡ Value.Fields result ∷ self.new }
        ensures rest { (ks : List Sort) → Tops (fields ∷ ks) self.old → Tops ks self.new }
    {
        match self.pop() {
            Some(Value::Fields(value)) => value,
            _ => unreachable!(),
        }
    }

    /// Takes the header off the top.
    pub fn take_header(&mut self) -> Header
        requires { Tops (a_header ∷ []) self.old }
        ensures value { self.old ≡ Value.AHeader result ∷ self.new }
        ensures rest { (ks : List Sort) → Tops (a_header ∷ ks) self.old → Tops ks self.new }
    {
        match self.pop() {
            Some(Value::AHeader(value)) => value,
            _ => unreachable!(),
        }
    }

    /// Takes the name, or none off the top.
    pub fn take_maybe_name(&mut self) -> Option<u32>
        requires { Tops (maybe_name ∷ []) self.old }
        ensures value { self.old ≡ Value.MaybeName result ∷ self.new }
        ensures rest { (ks : List Sort) → Tops (maybe_name ∷ ks) self.old → Tops ks self.new }
    {
        match self.pop() {
            Some(Value::MaybeName(value)) => value,
            _ => unreachable!(),
        }
    }

    /// Takes the definition off the top.
    pub fn take_def(&mut self) -> Def
        requires { Tops (a_def ∷ []) self.old }
        ensures value { self.old ≡ Value.ADef result ∷ self.new }
        ensures rest { (ks : List Sort) → Tops (a_def ∷ ks) self.old → Tops ks self.new }
    {
        match self.pop() {
            Some(Value::ADef(value)) => value,
            _ => unreachable!(),
        }
    }

    /// Takes the definitions off the top.
    pub fn take_defs(&mut self) -> Back<Def>
        requires { Tops (defs ∷ []) self.old }
        ensures value { self.old ≡ Value.Defs result ∷ self.new }
        ensures rest { (ks : List Sort) → Tops (defs ∷ ks) self.old → Tops ks self.new }
    {
        match self.pop() {
            Some(Value::Defs(value)) => value,
            _ => unreachable!(),
        }
    }

    /// Takes the target of a definition off the top.
    pub fn take_target(&mut self) -> Target
        requires { Tops (a_target ∷ []) self.old }
        ensures value { self.old ≡ Value.ATarget result ∷ self.new }
        ensures rest { (ks : List Sort) → Tops (a_target ∷ ks) self.old → Tops ks self.new }
    {
        match self.pop() {
            Some(Value::ATarget(value)) => value,
            _ => unreachable!(),
        }
    }

    /// Takes the targets of a definition off the top.
    pub fn take_targets(&mut self) -> Back<Target>
        requires { Tops (targets ∷ []) self.old }
        ensures value { self.old ≡ Value.Targets result ∷ self.new }
        ensures rest { (ks : List Sort) → Tops (targets ∷ ks) self.old → Tops ks self.new }
    {
        match self.pop() {
            Some(Value::Targets(value)) => value,
            _ => unreachable!(),
        }
    }

    /// Takes the written type, or none off the top.
    pub fn take_maybe_type(&mut self) -> Option<Written>
        requires { Tops (maybe_type ∷ []) self.old }
        ensures value { self.old ≡ Value.MaybeType result ∷ self.new }
        ensures rest { (ks : List Sort) → Tops (maybe_type ∷ ks) self.old → Tops ks self.new }
    {
        match self.pop() {
            Some(Value::MaybeType(value)) => value,
            _ => unreachable!(),
        }
    }
}
