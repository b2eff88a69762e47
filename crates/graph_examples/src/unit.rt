//! A unit that is ready, and what its function gives and costs.
ghost use Rattle.graph_examples.specs.ExampleUnit.{IsUnitRight, IsMainRight, HasMainOneEnd};

/// The unit of `greater` is ready and normal, and its nodes are in order.
pub fn the_example_is_ready()
    ensures { IsUnitRight }
{}

/// Its function gives the greater of two integers, and their sum where they are equal, in four firings.
pub fn the_example_gives_the_greater()
    ensures { IsMainRight }
{}

/// Its function ends alike in each order of its firings, and is never stuck.
pub fn the_example_has_one_end()
    ensures { HasMainOneEnd }
{}
