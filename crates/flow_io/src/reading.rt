//! Reading a source to its end.
ghost use Rattle.std.specs.Prelude.{◌≡◌, ◌≢◌, ◌<◌, ◌≤◌, ◌+◌, [], List, ℕ, length, IfOk, OnOk, Err};
ghost use Rattle.flow_io.specs.Bytes.{TakesOff, IsAtEnd};
ghost use Rattle.flow_io.specs.Count.{HasRisen};

use crate::source::Source;
use flow_value::{NoMemory, Seq, Text};
use std::alloc::Global;
use std::error::Error;
use std::fmt;

/// Why a source was not read to its end.
#[derive(Clone, Copy, Debug, PartialEq, Eq)]
pub enum ReadFail {
    /// A read failed.
    ReadFault,
    /// There are more bytes than the limit.
    TooLong,
    /// Want of memory.
    NoMemory,
}

impl fmt::Display for ReadFail {
    fn fmt<W: fmt::Write>(&self, f: &mut fmt::Formatter<W>) -> fmt::Result {
        match self {
            ReadFail::ReadFault => write!(f, "a read failed"),
            ReadFail::TooLong => write!(f, "more bytes than the limit"),
            ReadFail::NoMemory => write!(f, "no memory"),
        }
    }
}

impl Error for ReadFail {}

impl From<NoMemory> for ReadFail {
    ghost use Rattle.flow_io.specs.declared.reading.ReadFail.TheVariants as fail;

    ghost from_gives = { λ _ e. e ≡ fail.NoMemory };

    fn from(_: NoMemory) -> ReadFail {
        ReadFail::NoMemory
    }
}

/// How many bytes are asked for at once.
const PIECE: usize = 4096;

/// Reads all bytes to the end of the source, at most `limit` of them. At most one byte more than
/// the limit is taken.
pub fn read_all<S: Source>(alloc: Global, from: &mut S, limit: usize) -> Result<Text, ReadFail>
    requires { limit < usize.MAX }
    ensures all { IfOk result (λ text. TakesOff (S.left from.old) text (S.left from.new)) }
    ensures to_the_end { OnOk result (IsAtEnd (S.left from.new)) }
    ensures few { IfOk result (λ text. length text ≤ limit) }
    ensures too_long { result ≡ Err ReadFail.TooLong → ((bytes : List ℕ) × (length bytes ≡ limit + 1) × TakesOff (S.left from.old) bytes (S.left from.new)) }
    ensures no_memory { result ≡ Err ReadFail.NoMemory → ((bytes : List ℕ) × (length bytes ≤ limit) × TakesOff (S.left from.old) bytes (S.left from.new)) }
    ensures few_at_a_fault { result ≡ Err ReadFail.ReadFault → ((bytes : List ℕ) × (length bytes ≤ limit) × TakesOff (S.left from.old) bytes (S.left from.new)) }
    ensures fault { result ≡ Err ReadFail.ReadFault → HasRisen (S.faults from.old) (S.faults from.new) }
    ensures no_fault { result ≢ Err ReadFail.ReadFault → S.faults from.new ≡ S.faults from.old }
{
    let mut text = Seq::new(alloc);
    let mut buffer = [0u8; PIECE];
    loop {
        let room = PIECE.min(limit + 1 - text.len());
        let Ok(n) = from.read(&mut buffer[..room]) else {
            return Err(ReadFail::ReadFault);
        };
        if n == 0 {
            return Ok(text);
        }
        if n > limit - text.len() {
            return Err(ReadFail::TooLong);
        }
        text.extend(&buffer[..n])?;
    }
}
