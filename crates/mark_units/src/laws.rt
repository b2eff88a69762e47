//! What the marks that are made leave as it was.
ghost use Rattle.mark_units.specs.Laws.{AreMarksReady};

/// A ready unit in normal order is ready and in normal order with the marks that are made.
pub fn marks_made_keep_units_ready()
    ensures { AreMarksReady }
{}
