//! Writing all bytes to a sink.
ghost use Rattle.std.specs.Prelude.{◌≡◌, ◌≤◌, ℕ, length, take, OnOk, OnErr};
ghost use Rattle.flow_io.specs.Bytes.{AddsOn};
ghost use Rattle.flow_io.specs.Count.{HasRisen};

use crate::failed::Failed;
use crate::sink::Sink;

/// Writes all bytes to the sink; takes no memory. After a failed write the sink has taken a prefix
/// of them.
pub fn write_all<O: Sink>(to: &mut O, bytes: &[u8]) -> Result<(), Failed>
    ensures all { OnOk result (AddsOn (O.taken to.old) bytes.now (O.taken to.new)) }
    ensures prefix { OnErr result ((n : ℕ) × (n ≤ length bytes.now) × AddsOn (O.taken to.old) (take n bytes.now) (O.taken to.new)) }
    ensures fault { OnErr result (HasRisen (O.faults to.old) (O.faults to.new)) }
    ensures no_fault { OnOk result (O.faults to.new ≡ O.faults to.old) }
{
    let mut from = 0;
    while from < bytes.len() {
        from += to.write(&bytes[from..])?;
    }
    Ok(())
}
