//! The unit of an IF1 text.
ghost use Rattle.std.specs.Prelude.{◌<◌, ◌^◌, length};

use if1_graph::If1Fault;
use if1_read::read_if1;
use if1_valid::{Ready, valid};
use std::alloc::Global;

/// The unit that a text gives, checked.
pub fn ready_of(alloc: Global, text: &[u8]) -> Result<Ready, If1Fault>
    requires { length text.now < 2 ^ 32 }
{
    let unit = read_if1(alloc, text)?;
    valid(alloc, unit)
}
