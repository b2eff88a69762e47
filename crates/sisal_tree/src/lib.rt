//! The tree of a SISAL text: one variant a production of the grammar (SISAL Language Reference
//! Manual 1.2, syntax), its parts as fields, and the line on which it begins.
//!
//! A name stands by its number among the names of the text. A written type stands by the places of
//! its tokens: types nest without limit, and so no tree is made of them.
#![tactic(auto)]

mod expr;
mod unit;

pub use expr::{
    Arm, BinaryOperator, Clause, ClauseKind, Constant, Def, Direction, Elements, Expr, ExprKind,
    FieldValue, Generator, Loop, Mask, PrefixOperator, Reduction, Scalar, TagCase, Target, Turn,
};
pub use sisal_lex::{Kind, NoMemory, Seq, Sign, Word};
pub use unit::{Field, FunDef, FunKind, Header, Item, Named, TypeDef, Unit, Written};
