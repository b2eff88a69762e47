//! The laws of the storage rules.
ghost use Rattle.if1_marks.specs.Alike.{AreAlikeFormed, AreAlikeReady, AreAlikeNormal, AreUnmarkedAsBefore};
ghost use Rattle.if1_marks.specs.Laws.{IsGivenByEdge, IsConsumedWhereGiven, AreLent, AreWaysFound, IsOrderKnown, IsTakenOnce, IsTakerLast, IsTakenAlone, IsSoundInOrder, IsReadyInOrder, IsUnmarkedSound, AreSoundFaultless, AreFaultlessSound, AreMarksNotLookedAt, AreUnmarkedWithout};

/// An input of a graph is given exactly where a consuming edge that leads to no Call leaves it.
pub fn given_inputs_have_a_consuming_edge()
    ensures { IsGivenByEdge }
{}

/// A Select consumes what is given in an alternative, a TagCase what is given in an arm, a loop what is
/// given in its initialization and used nowhere else, and a ForAll nothing.
pub fn compound_nodes_consume_what_is_given()
    ensures { IsConsumedWhereGiven }
{}

/// What is lent is not owned.
pub fn what_is_lent_is_not_owned()
    ensures { AreLent }
{}

/// A way along links is found by the numbers to which links lead.
pub fn ways_are_found()
    ensures { AreWaysFound }
{}

/// Of each two nodes of a graph it is known whether the one comes before the other.
pub fn the_order_is_known()
    ensures { IsOrderKnown }
{}

/// In sound marks no two edges take from one port.
pub fn no_port_is_taken_twice()
    ensures { IsTakenOnce }
{}

/// In sound marks the nodes of all other edges from the port come before the taker, and not after it.
pub fn the_taker_is_last()
    ensures { IsTakerLast }
{}

/// In sound marks no other edge from the port leads to the taker.
pub fn the_taker_has_one_edge()
    ensures { IsTakenAlone }
{}

/// Where marks are sound, no node comes before itself.
pub fn sound_marks_close_no_cycle()
    ensures { IsSoundInOrder }
{}

/// In a ready unit without ordering lists the order of nodes is right.
pub fn ready_units_without_lists_are_in_order()
    ensures { IsReadyInOrder }
{}

/// A ready unit without marks is sound.
pub fn no_marks_are_sound()
    ensures { IsUnmarkedSound }
{}

/// In sound marks of a ready unit no label on an ordering list is wrong, and of no taking edge a node is
/// to blame.
pub fn sound_marks_have_no_fault()
    ensures { AreSoundFaultless }
{}

/// Marks of a ready unit are sound where no label on an ordering list is wrong and of no taking edge a node
/// is to blame.
pub fn marks_without_fault_are_sound()
    ensures { AreFaultlessSound }
{}

/// What is consumed and what is owned is the same without the marks.
pub fn the_rules_look_at_no_marks()
    ensures { AreMarksNotLookedAt }
{}

/// A unit without its marks has the same graphs at the same places, and no marks.
pub fn unmarked_units_have_no_marks()
    ensures { AreUnmarkedWithout }
{}

/// A formed unit with other marks is formed, where these marks can be spelled.
pub fn alike_units_are_formed()
    ensures { AreAlikeFormed }
{}

/// A ready unit with other marks is ready.
pub fn alike_units_are_ready()
    ensures { AreAlikeReady }
{}

/// A normal unit with other marks is normal, where the labels of each ordering list rise.
pub fn alike_units_are_normal()
    ensures { AreAlikeNormal }
{}

/// A unit without its marks is formed, ready and normal where it was.
pub fn units_without_marks_are_as_before()
    ensures { AreUnmarkedAsBefore }
{}
