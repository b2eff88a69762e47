//! The law.
ghost use Rattle.lowered_ready.specs.TypeLaws.{HaveTypedUnits};

/// Where the lowered graphs of a fitting program keep the rules, each edge and literal of its unit has
/// a type that its port wants and its source gives.
pub fn right_programs_have_typed_units()
    ensures { HaveTypedUnits }
{}
