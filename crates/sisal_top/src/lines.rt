//! The line of a status.
ghost use Rattle.std.specs.Prelude.{◌≡◌, ◌++◌, ◌∷◌, [], ℕ, take, codes, decimal, OnOk, OnErr};
ghost use Rattle.flow_io.specs.Bytes.{AddsOn};
ghost use Rattle.flow_io.specs.Count.{HasRisen};
ghost use Rattle.sisal_top.specs.Lines.{Takes, argument_line, if1_line, line_of, marks_line, node_line, numbered_line, placed_line, plain_line, syntax_line, usage_line, value_line};

use crate::status::{CallFault, Status, SyntaxFault, TextFault, UnitFault, UsageFault};
use flow_io::{Failed, Sink, write_all};
use itoa::Buffer;

/// Writes words.
fn write_words<E: Sink>(err: &mut E, words: &[u8]) -> Result<(), Failed>
    ensures takes { Takes result (E.taken err.old) words.now (E.taken err.new) }
    ensures fault { OnErr result (HasRisen (E.faults err.old) (E.faults err.new)) }
    ensures no_fault { OnOk result (E.faults err.new ≡ E.faults err.old) }
{
    write_all(err, words)
}

/// Writes a number in decimal.
fn write_digits<E: Sink>(err: &mut E, number: u64) -> Result<(), Failed>
    ensures takes { Takes result (E.taken err.old) (decimal number) (E.taken err.new) }
    ensures fault { OnErr result (HasRisen (E.faults err.old) (E.faults err.new)) }
    ensures no_fault { OnOk result (E.faults err.new ≡ E.faults err.old) }
{
    let mut buffer = Buffer::new();
    write_words(err, buffer.format(number).as_bytes())
}

/// Writes a number in decimal and a line feed.
fn write_number<E: Sink>(err: &mut E, number: u64) -> Result<(), Failed>
    ensures takes { Takes result (E.taken err.old) (decimal number ++ 10 ∷ []) (E.taken err.new) }
    ensures fault { OnErr result (HasRisen (E.faults err.old) (E.faults err.new)) }
    ensures no_fault { OnOk result (E.faults err.new ≡ E.faults err.old) }
{
    write_digits(err, number)?;
    write_words(err, b"\n")
}

/// Writes words, a number and a line feed.
fn write_numbered<E: Sink>(err: &mut E, words: &[u8], number: u64) -> Result<(), Failed>
    ensures takes { Takes result (E.taken err.old) (words.now ++ (decimal number ++ 10 ∷ [])) (E.taken err.new) }
    ensures fault { OnErr result (HasRisen (E.faults err.old) (E.faults err.new)) }
    ensures no_fault { OnOk result (E.faults err.new ≡ E.faults err.old) }
{
    write_words(err, words)?;
    write_number(err, number)
}

/// Writes a number, words, a second number and a line feed.
fn write_place<E: Sink>(err: &mut E, number: u64, between: &[u8], place: u64) -> Result<(), Failed>
    ensures takes { Takes result (E.taken err.old) (decimal number ++ numbered_line between.now place) (E.taken err.new) }
    ensures fault { OnErr result (HasRisen (E.faults err.old) (E.faults err.new)) }
    ensures no_fault { OnOk result (E.faults err.new ≡ E.faults err.old) }
{
    write_digits(err, number)?;
    write_numbered(err, between, place)
}

/// Writes words and a number twice, and a line feed.
fn write_placed<E: Sink>(
    err: &mut E,
    words: &[u8],
    number: u64,
    between: &[u8],
    place: u64,
) -> Result<(), Failed>
    ensures takes { Takes result (E.taken err.old) (placed_line words.now number between.now place) (E.taken err.new) }
    ensures fault { OnErr result (HasRisen (E.faults err.old) (E.faults err.new)) }
    ensures no_fault { OnOk result (E.faults err.new ≡ E.faults err.old) }
{
    write_words(err, words)?;
    write_place(err, number, between, place)
}

/// Writes a name and a line feed.
fn write_name<E: Sink>(err: &mut E, name: &[u8]) -> Result<(), Failed>
    ensures takes { Takes result (E.taken err.old) (plain_line name.now) (E.taken err.new) }
    ensures fault { OnErr result (HasRisen (E.faults err.old) (E.faults err.new)) }
    ensures no_fault { OnOk result (E.faults err.new ≡ E.faults err.old) }
{
    write_words(err, name)?;
    write_words(err, b"\n")
}

/// Writes the line of a function that stands in another text.
fn write_unlinked<E: Sink>(err: &mut E, name: &[u8]) -> Result<(), Failed>
    ensures takes { Takes result (E.taken err.old) (codes "sisal: unlinked " ++ plain_line name.now) (E.taken err.new) }
    ensures fault { OnErr result (HasRisen (E.faults err.old) (E.faults err.new)) }
    ensures no_fault { OnOk result (E.faults err.new ≡ E.faults err.old) }
{
    write_words(err, b"sisal: unlinked ")?;
    write_name(err, name)
}

/// Writes words and a number.
fn write_pair<E: Sink>(err: &mut E, words: &[u8], number: u64) -> Result<(), Failed>
    ensures takes { Takes result (E.taken err.old) (words.now ++ decimal number) (E.taken err.new) }
    ensures fault { OnErr result (HasRisen (E.faults err.old) (E.faults err.new)) }
    ensures no_fault { OnOk result (E.faults err.new ≡ E.faults err.old) }
{
    write_words(err, words)?;
    write_digits(err, number)
}

/// Writes a node, its port and the node that reads what the port takes.
fn write_taker<E: Sink>(err: &mut E, node: u32, port: u32, reader: u32) -> Result<(), Failed>
    ensures takes { Takes result (E.taken err.old) (node_line node port reader) (E.taken err.new) }
    ensures fault { OnErr result (HasRisen (E.faults err.old) (E.faults err.new)) }
    ensures no_fault { OnOk result (E.faults err.new ≡ E.faults err.old) }
{
    write_pair(err, b" node ", u64::from(node))?;
    write_placed(
        err,
        b" port ",
        u64::from(port),
        b" reader ",
        u64::from(reader),
    )
}

/// Writes the line of a mark that is not sound.
fn write_marks<E: Sink>(
    err: &mut E,
    graph: u32,
    node: u32,
    port: u32,
    reader: u32,
) -> Result<(), Failed>
    ensures takes { Takes result (E.taken err.old) (marks_line graph node port reader) (E.taken err.new) }
    ensures fault { OnErr result (HasRisen (E.faults err.old) (E.faults err.new)) }
    ensures no_fault { OnOk result (E.faults err.new ≡ E.faults err.old) }
{
    write_pair(err, b"sisal: if1 8 graph ", u64::from(graph))?;
    write_taker(err, node, port, reader)
}

/// Writes the line of a fault of a node.
fn write_node<E: Sink>(err: &mut E, words: &[u8], graph: u32, node: u32) -> Result<(), Failed>
    ensures takes { Takes result (E.taken err.old) (placed_line words.now graph (codes " node ") node) (E.taken err.new) }
    ensures fault { OnErr result (HasRisen (E.faults err.old) (E.faults err.new)) }
    ensures no_fault { OnOk result (E.faults err.new ≡ E.faults err.old) }
{
    write_placed(err, words, u64::from(graph), b" node ", u64::from(node))
}

/// Writes the line of a fault of an IF1 text or its unit.
fn write_if1<E: Sink>(err: &mut E, fault: UnitFault) -> Result<(), Failed>
    ensures takes { Takes result (E.taken err.old) (if1_line fault) (E.taken err.new) }
    ensures fault { OnErr result (HasRisen (E.faults err.old) (E.faults err.new)) }
    ensures no_fault { OnOk result (E.faults err.new ≡ E.faults err.old) }
{
    match fault {
        UnitFault::BadLine(line) => write_numbered(err, b"sisal: if1 1 line ", u64::from(line)),
        UnitFault::Unknown(line) => write_numbered(err, b"sisal: if1 2 line ", u64::from(line)),
        UnitFault::Real(line) => write_numbered(err, b"sisal: if1 3 line ", u64::from(line)),
        UnitFault::Unclosed => write_words(err, b"sisal: if1 4\n"),
        UnitFault::Cycle { graph, node } => write_node(err, b"sisal: if1 5 graph ", graph, node),
        UnitFault::Ports { graph, node } => write_node(err, b"sisal: if1 6 graph ", graph, node),
        UnitFault::TypeOf { graph, node } => write_node(err, b"sisal: if1 7 graph ", graph, node),
        UnitFault::Marks {
            graph,
            node,
            port,
            reader,
        } => write_marks(err, graph, node, port, reader),
        UnitFault::TooMany(line) => write_numbered(err, b"sisal: if1 9 line ", u64::from(line)),
    }
}

/// Writes the line of a rule of typing.
fn write_typing<E: Sink>(err: &mut E, rule: u8, line: u32) -> Result<(), Failed>
    ensures takes { Takes result (E.taken err.old) (placed_line (codes "sisal: type rule ") rule (codes " line ") line) (E.taken err.new) }
    ensures fault { OnErr result (HasRisen (E.faults err.old) (E.faults err.new)) }
    ensures no_fault { OnOk result (E.faults err.new ≡ E.faults err.old) }
{
    write_placed(
        err,
        b"sisal: type rule ",
        u64::from(rule),
        b" line ",
        u64::from(line),
    )
}

/// Writes the line of an argument that is no value of its parameter's type.
fn write_value<E: Sink>(err: &mut E, argument: usize, fault: TextFault) -> Result<(), Failed>
    ensures takes { Takes result (E.taken err.old) (value_line argument fault) (E.taken err.new) }
    ensures fault { OnErr result (HasRisen (E.faults err.old) (E.faults err.new)) }
    ensures no_fault { OnOk result (E.faults err.new ≡ E.faults err.old) }
{
    let words = b"sisal: argument ";
    match fault {
        TextFault::BadSpelling(byte) => {
            write_placed(err, words, argument as u64, b" value 1 byte ", byte as u64)
        }
        TextFault::WrongShape(byte) => {
            write_placed(err, words, argument as u64, b" value 2 byte ", byte as u64)
        }
        TextFault::TooLarge => write_placed(err, words, argument as u64, b" value ", 3),
    }
}

/// Writes the line of a fault of the entry or an argument.
fn write_argument<E: Sink>(err: &mut E, fault: CallFault) -> Result<(), Failed>
    ensures takes { Takes result (E.taken err.old) (argument_line fault) (E.taken err.new) }
    ensures fault { OnErr result (HasRisen (E.faults err.old) (E.faults err.new)) }
    ensures no_fault { OnOk result (E.faults err.new ≡ E.faults err.old) }
{
    match fault {
        CallFault::Entry => write_words(err, b"sisal: argument entry\n"),
        CallFault::Count { wanted, given } => {
            let words = b"sisal: argument count wanted ";
            write_placed(err, words, wanted as u64, b" given ", given as u64)
        }
        CallFault::Value { argument, fault } => write_value(err, argument, fault),
    }
}

/// Writes the line of a fault of the words.
fn write_usage<E: Sink>(err: &mut E, fault: UsageFault) -> Result<(), Failed>
    ensures takes { Takes result (E.taken err.old) (usage_line fault) (E.taken err.new) }
    ensures fault { OnErr result (HasRisen (E.faults err.old) (E.faults err.new)) }
    ensures no_fault { OnOk result (E.faults err.new ≡ E.faults err.old) }
{
    match fault {
        UsageFault::Unknown(word) => write_numbered(err, b"sisal: usage 2 word ", word as u64),
        UsageFault::Repeated(word) => write_numbered(err, b"sisal: usage 3 word ", word as u64),
        UsageFault::NotANumber(word) => write_numbered(err, b"sisal: usage 4 word ", word as u64),
        UsageFault::OutOfRange(word) => write_numbered(err, b"sisal: usage 5 word ", word as u64),
        UsageFault::Missing => write_words(err, b"sisal: usage 1\n"),
    }
}

/// Writes the line of a fault of syntax.
fn write_syntax<E: Sink>(err: &mut E, fault: SyntaxFault) -> Result<(), Failed>
    ensures takes { Takes result (E.taken err.old) (syntax_line fault) (E.taken err.new) }
    ensures fault { OnErr result (HasRisen (E.faults err.old) (E.faults err.new)) }
    ensures no_fault { OnOk result (E.faults err.new ≡ E.faults err.old) }
{
    match fault {
        SyntaxFault::BadByte(line) => {
            write_numbered(err, b"sisal: syntax lex 1 line ", u64::from(line))
        }
        SyntaxFault::NumberTooWide(line) => {
            write_numbered(err, b"sisal: syntax lex 2 line ", u64::from(line))
        }
        SyntaxFault::OpenText(line) => {
            write_numbered(err, b"sisal: syntax lex 3 line ", u64::from(line))
        }
        SyntaxFault::Token { token, line } => {
            let words = b"sisal: syntax token ";
            write_placed(err, words, u64::from(token), b" line ", u64::from(line))
        }
        SyntaxFault::TooDeep(line) => {
            write_numbered(err, b"sisal: syntax depth line ", u64::from(line))
        }
    }
}

/// Writes the line of a status.
fn write_line<E: Sink>(err: &mut E, status: &Status) -> Result<(), Failed>
    ensures takes { Takes result (E.taken err.old) (line_of status.now) (E.taken err.new) }
    ensures fault { OnErr result (HasRisen (E.faults err.old) (E.faults err.new)) }
    ensures no_fault { OnOk result (E.faults err.new ≡ E.faults err.old) }
{
    match status {
        Status::Usage(fault) => write_usage(err, *fault),
        Status::Syntax(fault) => write_syntax(err, *fault),
        Status::Typing { rule, line } => write_typing(err, *rule, *line),
        Status::If1(fault) => write_if1(err, *fault),
        Status::Argument(fault) => write_argument(err, *fault),
        Status::Unlinked(name) => write_unlinked(err, name.as_slice()),
        Status::ReadFault => write_words(err, b"sisal: read fault\n"),
        Status::WriteFault => write_words(err, b"sisal: write fault\n"),
        Status::NoMemory => write_words(err, b"sisal: no memory\n"),
        Status::TurnLimit => write_words(err, b"sisal: turn limit\n"),
        Status::TooLong => write_words(err, b"sisal: text too long\n"),
        Status::Later => write_words(err, b"sisal: not built yet\n"),
        Status::Done => write_words(err, b""),
    }
}

/// Writes the line of a status to the sink of errors, and gives the status back, whether the line
/// was taken or not. Takes no memory.
pub fn report<E: Sink>(status: Status, err: &mut E) -> Status
    ensures same { result ≡ status }
    ensures line { ¬ HasRisen (E.faults err.old) (E.faults err.new) → AddsOn (E.taken err.old) (line_of status) (E.taken err.new) }
    ensures prefix { (n : ℕ) × AddsOn (E.taken err.old) (take n (line_of status)) (E.taken err.new) }
{
    let _ = write_line(err, &status);
    status
}
