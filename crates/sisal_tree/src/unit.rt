//! Units, types and functions.
use crate::expr::Expr;
use sisal_lex::{Seq, Tokens};

/// A name where it stands.
#[derive(Clone, Copy)]
pub struct Named {
    /// The number of the name.
    pub name: u32,
    /// The line, from 1.
    pub line: u32,
}

/// A type as it is written: the tokens from the place `from` up to and without `to`, from 0.
#[derive(Clone, Copy)]
pub struct Written {
    /// The place of the first token.
    pub from: u32,
    /// The place after the last token.
    pub to: u32,
}

/// `name {"," name} ":" type`: names of one type, the parameters of a header.
pub struct Field {
    /// The names in order.
    pub names: Seq<Named>,
    /// Their type.
    pub ty: Written,
}

impl Drop for Field {
    fn drop(self) {
        let Field {
            names: _names,
            ty: _,
        } = self;
    }
}

/// `"type" name "=" type`
pub struct TypeDef {
    /// The line of the word `type`.
    pub line: u32,
    /// The name that is defined.
    pub name: u32,
    /// What it names.
    pub ty: Written,
}

impl Drop for TypeDef {
    fn drop(self) {
        let TypeDef {
            line: _,
            name: _,
            ty: _,
        } = self;
    }
}

/// `name "(" .. "returns" type {"," type} ")"`
pub struct Header {
    /// The function's name.
    pub name: Named,
    /// Its parameters.
    pub params: Seq<Field>,
    /// The types of its results.
    pub results: Seq<Written>,
}

impl Drop for Header {
    fn drop(self) {
        let Header {
            name: _,
            params: _params,
            results: _results,
        } = self;
    }
}

/// How a function is given.
pub enum FunKind {
    /// `forward function`: by its header, and its definition stands elsewhere in the text.
    Forward,
    /// `global`: by its header, and its definition stands in another text.
    Global,
    /// By its header and the expressions of its results.
    Defined(Seq<Expr>),
}

impl Drop for FunKind {
    fn drop(self) {
        match self {
            FunKind::Forward => {}
            FunKind::Global => {}
            FunKind::Defined(_part) => {}
        }
    }
}

/// A function.
pub struct FunDef {
    /// The line of its first word.
    pub line: u32,
    /// Its name, parameters and results.
    pub header: Header,
    /// How it is given.
    pub kind: FunKind,
}

impl Drop for FunDef {
    fn drop(self) {
        let FunDef {
            line: _,
            header: _header,
            kind: _kind,
        } = self;
    }
}

/// What a unit is made of.
pub enum Item {
    /// A type definition.
    Alias(TypeDef),
    /// A function.
    Function(FunDef),
}

impl Drop for Item {
    fn drop(self) {
        match self {
            Item::Alias(_part) => {}
            Item::Function(_part) => {}
        }
    }
}

/// A unit: a whole text.
#[derive(Drop)]
pub struct Unit {
    /// The tokens of the text, with its names.
    pub tokens: Tokens,
    /// The names after `define`.
    pub defines: Seq<Named>,
    /// The types and functions in the order of the text.
    pub items: Seq<Item>,
}
