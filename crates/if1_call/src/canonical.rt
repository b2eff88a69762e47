//! The canonical text of an IF1 text.
ghost use Rattle.std.specs.Prelude.{◌≡◌, ◌<◌, ◌^◌, length, IfOk, IfErr};
ghost use Rattle.if1_call.specs.Calls.{IsCanonicalOf, IsRefusedFor};

use flow_value::Text;
use if1_graph::If1Fault;
use if1_read::read_if1;
use if1_valid::valid;
use if1_write::write_if1;
use mark_check::check_marks;
use std::alloc::Global;

/// The canonical text of the unit that an IF1 text gives, with its marks as they are, if the unit is
/// valid and its marks are sound. Else the first fault of the text, of its unit or of its marks (IF1
/// manual M-170).
pub fn canonical_text(alloc: Global, text: &[u8]) -> Result<Text, If1Fault>
    requires { length text.now < 2 ^ 32 }
    ensures printed { IfOk result (IsCanonicalOf text.now) }
    ensures refused { IfErr result (IsRefusedFor text.now) }
{
    let unit = read_if1(alloc, text)?;
    let ready = valid(alloc, unit)?;
    let sound = check_marks(alloc, ready)?;
    let canonical = write_if1(alloc, sound.unit())?;
    Ok(canonical)
}
