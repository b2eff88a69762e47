//! What the two units are, and what their functions give, cost, copy and write.
ghost use Rattle.worked_units.specs.WorkedUnits.{IsChosenWorked, IsChosenAnswered, IsChangedWorked, IsChangedAnswered};

/// The unit of the choice is ready and normal, its marks, of which there are none, are sound, and this is its
/// canonical text.
pub fn the_choice_is_right()
    ensures { IsChosenWorked }
{}

/// Its function gives 4 on 0 and 5 on 1, in one firing, and copies and writes nothing.
pub fn the_choice_is_worked_out()
    ensures { IsChosenAnswered }
{}

/// The unit of the change is ready and normal, its marks are sound, and this is its canonical text.
pub fn the_change_is_right()
    ensures { IsChangedWorked }
{}

/// Its function gives the old element and the changed array in three firings, copies nothing, and writes the
/// three elements that fill the array.
pub fn the_change_is_worked_out()
    ensures { IsChangedAnswered }
{}
