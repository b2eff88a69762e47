//! What is written is read again.
ghost use Rattle.if1_write.specs.Laws.{WrittenIsRead};

/// The canonical text of a valid unit in normal order gives that unit.
pub fn written_is_read()
    ensures { WrittenIsRead }
{}
