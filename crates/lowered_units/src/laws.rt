//! The laws of translated units.
ghost use Rattle.lowered_units.specs.Laws.{
  AreFormed,
  AreLowered,
  AreNormal,
  ArePortsSmall,
  AreTablesFormed,
  IsOneUnit,
};

/// A program has at most one unit.
pub fn a_program_is_one_unit()
    ensures { IsOneUnit }
{}

/// The types of a translated unit within the limits are formed: each has a label of its own, its parts
/// are types of the unit, and there are at most 65,535.
pub fn tables_of_translated_units_are_formed()
    ensures { AreTablesFormed }
{}

/// A translated unit is normal: its nodes and edges stand in the order of the canonical text, and its
/// literals are spelled canonically.
pub fn translated_units_are_normal()
    ensures { AreNormal }
{}

/// The ports of a program within the limits, and the labels of the nodes that they are of, fit 32 bits.
pub fn ports_within_the_limits_are_small()
    ensures { ArePortsSmall }
{}

/// A translated unit within the limits is formed and normal; its graphs nest no deeper than the
/// expressions of the program, which are at most 200 deep.
pub fn translated_units_are_formed()
    ensures { AreFormed }
{}

/// Each graph of a translated unit runs as the lowered graph of its number: its nodes are the lowered
/// nodes, with what fills their ports, and a call enters the graph of its function.
pub fn translated_units_run_as_lowered()
    ensures { AreLowered }
{}
