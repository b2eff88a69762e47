//! Faults of lines, of which the first is named.
ghost use Rattle.std.specs.Prelude.{◌≡◌, None, Some};
ghost use Rattle.if1_read.specs.Faults.{rank};
ghost use Rattle.if1_read.specs.Least.{is_before, earlier, found, refusal_of};

use if1_graph::If1Fault;

/// What is wrong with a line.
#[derive(Clone, Copy, Debug, PartialEq, Eq)]
pub enum Kind {
    /// It has another form, a label twice, or a literal that its type does not have.
    Bad,
    /// It names an opcode, a type, a function or a reduction that is not known.
    Unknown,
    /// Its type holds reals.
    Real,
    /// It passes a limit.
    TooMany,
}

/// A fault of a line, which counts from 1.
#[derive(Clone, Copy, Debug, PartialEq, Eq)]
pub struct Fault {
    pub line: u32,
    pub kind: Kind,
}

fn rank(kind: Kind) -> u32
    ensures { result ≡ rank kind }
{
    match kind {
        Kind::Bad => 1,
        Kind::Unknown => 2,
        Kind::Real => 3,
        Kind::TooMany => 9,
    }
}

fn is_sooner(a: Fault, b: Fault) -> bool
    ensures { result ≡ is_before a b }
{
    a.line < b.line || (a.line == b.line && rank(a.kind) < rank(b.kind))
}

/// The fault that is named when one more is found: that of the first line, and of two on one line
/// that of the least number.
pub fn sooner(first: Option<Fault>, line: u32, kind: Kind) -> Option<Fault>
    ensures some { ¬ (result ≡ None) }
    ensures found { result ≡ earlier first (Some (record { line = line; kind = kind })) }
{
    let fault = Fault { line, kind };
    match first {
        Some(other) if !is_sooner(fault, other) => Some(other),
        _ => Some(fault),
    }
}

/// The fault that is named when a line was looked at.
pub fn after(first: Option<Fault>, line: u32, kind: Option<Kind>) -> Option<Fault>
    ensures clean { result ≡ None → first ≡ None }
    ensures none { result ≡ None → kind ≡ None }
    ensures found { result ≡ earlier first (found line kind) }
{
    match kind {
        Some(kind) => sooner(first, line, kind),
        None => first,
    }
}

/// The refusal for a fault.
pub fn refusal(fault: Fault) -> If1Fault
    ensures { result ≡ refusal_of fault }
{
    match fault.kind {
        Kind::Bad => If1Fault::BadLine(fault.line),
        Kind::Unknown => If1Fault::Unknown(fault.line),
        Kind::Real => If1Fault::Real(fault.line),
        Kind::TooMany => If1Fault::TooMany(fault.line),
    }
}
