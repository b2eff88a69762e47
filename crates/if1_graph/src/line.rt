//! Lines.
ghost use Rattle.std.specs.Prelude.{◌≡◌};
ghost use Rattle.if1_graph.specs.Entries.{entry_form};

use flow_value::{Name, Numbers, Text};

/// A line of IF1 text, as far as the text says something: comments and pragmas of other keys than
/// `na`, `tk` and `bf` are left out, and so is what a pragma says where its line has no place for it.
/// Labels, ports and opcodes are numbers of 32 bits; node 0 is the boundary of the graph.
/// (IF1 Reference Manual 1.0, M-170, text form.)
#[derive(Drop)]
pub enum Line {
    /// An empty line or a comment, which begins with `C`.
    Blank,
    /// `T label code first second`: a row of the table of types. What a code has no number for is 0.
    Entry {
        label: u32,
        code: u32,
        first: u32,
        second: u32,
        name: Name,
    },
    /// `N label op`: a simple node, and the labels of the nodes that come before it (`%bf`), each
    /// once and rising.
    Node {
        label: u32,
        op: u32,
        before: Numbers,
        name: Name,
    },
    /// `E from out node port ty`: an edge from output port `out` of node `from` to input port `port`
    /// of `node`, with the label of its type; it takes what it carries where `%tk=1` says so.
    Edge {
        from: u32,
        out: u32,
        node: u32,
        port: u32,
        ty: u32,
        takes: bool,
        name: Name,
    },
    /// `L node port ty "text"`: a literal at an input port, by the bytes between its quotes.
    Literal {
        node: u32,
        port: u32,
        ty: u32,
        text: Text,
        name: Name,
    },
    /// `X fun "name"` or `G fun "name"`: the graph of a function of type `fun`, exported or not.
    Function {
        exported: bool,
        fun: u32,
        name: Name,
    },
    /// `G 0`: a subgraph of a compound node.
    Subgraph {
        name: Name,
    },
    /// `I ty "name"`: a function of another unit.
    Import {
        ty: u32,
        name: Name,
    },
    /// `{`: a compound node begins. The bytes behind the brace say nothing.
    Open {
        rest: Text,
    },
    /// `} label op count assoc ..`: a compound node ends, with the number of its subgraphs and its
    /// association list; `before` as at a simple node.
    Close {
        label: u32,
        op: u32,
        count: u32,
        assoc: Numbers,
        before: Numbers,
        name: Name,
    },
}

/// What numbers a row of the table of types has behind its code.
#[derive(Clone, Copy, Debug, PartialEq, Eq)]
pub enum EntryForm {
    /// An array, a multiple, a stream: its element type. A record, a union: its first field or tag.
    OneLabel,
    /// A basic type: the code of it, from 0 to 6.
    Basic,
    /// A field, a tag, a tuple: its type and the label of the next one, 0 at the end.
    Member,
    /// A function: the tuple of its arguments, or 0, and that of its results.
    Function,
}

/// The form of a row by its code: 0 array, 1 basic, 2 field, 3 function, 4 multiple, 5 record,
/// 6 stream, 7 tag, 8 tuple, 9 union (M-170, type table).
pub fn entry_form(code: u32) -> Option<EntryForm>
    ensures { result ≡ entry_form code }
{
    match code {
        0 | 4 | 5 | 6 | 9 => Some(EntryForm::OneLabel),
        1 => Some(EntryForm::Basic),
        2 | 7 | 8 => Some(EntryForm::Member),
        3 => Some(EntryForm::Function),
        _ => None,
    }
}
