//! Lowering: which dataflow graphs a typed program becomes (IF1 manual M-170; SISAL Language
//! Reference Manual 1.2). Types, definitions and examples; `docs/TRANSLATION.md` tells them with
//! pictures.
#![tactic(auto)]

mod feed;
mod graph;

pub use feed::{Carried, Feed, Wire};
pub use graph::{Action, Lowered, LoweredGraph, LoweredNode};
