//! Cells.
use crate::boxed::Boxed;
use flow_value::{Cause, Seq, Text, Val};

/// A cell of a block, of 16 bytes. Scalars and unions of integers stand in it, and what else has parts
/// is in a box.
#[derive(Drop)]
pub enum Cell {
    /// Nothing, or what was taken.
    Empty,
    /// An error value.
    Error(Cause),
    /// An integer.
    Int(i64),
    /// A boolean.
    Bool(bool),
    /// A character, by its code.
    Char(u8),
    /// The value `nil`.
    Null,
    /// A value in a box.
    Owned(Boxed<Val>),
    /// The multiple of so many integers, rising from the first.
    Range(u32, i64),
    /// A union with this tag, of an integer.
    UnionInt(u32, i64),
    /// A multiple, as the stream of its elements.
    Many(Boxed<Val>),
    /// A multiple that is an error.
    Spoiled(Cause),
    /// A name.
    Name(Boxed<Text>),
    /// What a port has that no edge fills.
    Unfilled,
    /// What the cell of this number owns, which is one of another block.
    Lent(usize),
    /// A part of what such a cell owns.
    LentPart(Boxed<Lent>),
}

/// A part of what a cell owns.
#[derive(Drop)]
pub struct Lent {
    /// The cell.
    pub owner: usize,
    /// The way from what it owns to the part.
    pub parts: Parts,
}

/// A way to a part of a value, from the outermost on.
pub type Parts = Seq<Part>;

/// One step of such a way.
#[derive(Clone, Copy, Debug, PartialEq, Eq)]
pub enum Part {
    /// The multiple of the elements of an array or stream.
    Elements,
    /// The content of a union.
    Content,
    /// The element of a multiple at a place, counted from 0.
    Place(usize),
}
