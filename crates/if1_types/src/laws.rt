//! Laws on numbers.
ghost use Rattle.if1_types.specs.Forms.{AreOne};
ghost use Rattle.if1_types.specs.Shapes.{Key};
ghost use Rattle.std.specs.Prelude.{List};

/// A number stands for one type, one list of types and one sort at most.
pub fn a_number_stands_for_one_thing()
    ensures { (ks : List Key) → AreOne ks }
{}
