//! Where the reader of a written type stands.
use crate::name_set::NameSet;
use flow_value::Seq;
use sisal_tree::Named;
use type_table::Member;

/// What opens a bracket.
#[derive(Clone, Copy)]
pub enum Opener {
    /// `array`
    Array,
    /// `stream`
    Stream,
    /// `record`
    Record,
    /// `union`
    Union,
}

/// The word that begins a type.
#[derive(Clone, Copy)]
pub enum First {
    /// `boolean`
    Boolean,
    /// `character`
    Character,
    /// `integer`
    Integer,
    /// `null`
    Null,
    /// `real`
    Real,
    /// `double_real`
    DoubleReal,
    /// A word behind which a bracket stands.
    Opens(Opener),
}

/// An array or a stream whose bracket is open.
#[derive(Clone, Copy)]
pub struct Sequence {
    /// The line of its word.
    pub line: u32,
    /// Whether it is a stream.
    pub is_stream: bool,
}

/// A record or a union whose bracket is open.
#[derive(Drop)]
pub struct Members {
    /// The line of its word.
    pub line: u32,
    /// Whether it is a union.
    pub is_union: bool,
    /// The members so far.
    pub members: Seq<Member>,
    /// Their names.
    pub names: NameSet,
    /// The names whose type comes next, where they stand.
    pub group: Seq<Named>,
}

/// What is open.
#[derive(Drop)]
pub enum Open {
    /// An array or a stream.
    Sequence(Sequence),
    /// A record or a union.
    Members(Members),
}

/// What comes next.
#[derive(Clone, Copy)]
pub enum Next {
    /// A type.
    Type,
    /// The bracket behind a word, which stands on this line.
    Bracket(Opener, u32),
    /// A name of a member.
    Name,
    /// What stands behind a name of a member.
    AfterName,
    /// What stands behind a type of this number.
    After(usize),
    /// What stands behind a semicolon: a name of a member, or the closing bracket.
    AfterSemicolon,
}
