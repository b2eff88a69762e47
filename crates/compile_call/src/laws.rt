//! What is so of compiled texts.
ghost use Rattle.compile_call.specs.Laws.{AreRead, IsOneText};

use if1_write::written_is_read;
use lowered_units::a_program_is_one_unit;

/// A program has at most one text.
pub fn a_program_has_one_text()
    ensures { IsOneText }
{
    a_program_is_one_unit();
}

/// The text of a program gives the program's marked unit, which is ready, with sound marks; so it is the
/// canonical text of what is read of it.
pub fn compiled_texts_are_read()
    ensures { AreRead }
{
    written_is_read();
}
