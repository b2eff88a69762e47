//! The laws of what a returns collects.
ghost use Rattle.run_code.specs.Collecting.{IsMadeOfColumns, NodesGiveTheSame, CopiesArePut, ClausesStand};

/// What is put row by row is made of the columns of all rows.
pub fn collections_are_of_columns()
    ensures { IsMadeOfColumns }
{}

/// The nodes of a returns that read multiples give the same on what is collected.
pub fn nodes_give_the_same_on_collections()
    ensures { NodesGiveTheSame }
{}

/// What they copy by the definition of record is the sum of what the rows put.
pub fn copies_are_what_is_put()
    ensures { CopiesArePut }
{}

/// A clause of a loop, to which values are put, stands for a collection, and its value is the fold.
pub fn clauses_stand_for_collections()
    ensures { ClausesStand }
{}
