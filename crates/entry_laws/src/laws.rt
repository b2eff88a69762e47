//! The laws.
ghost use Rattle.entry_laws.specs.Laws.{AreHeadersOfEntries, AreProgramsEntries, AreUnitsEntries, DoesUnitLackAlike};

/// What a word names in the unit of a text, with the marks that are made, it names in the text's program,
/// and the types of the arguments are those of the parameters, names of fields and tags among them.
pub fn entries_of_units_are_those_of_programs()
    ensures { AreUnitsEntries }
{}

/// What a word names in the program it names in the unit, with the same types.
pub fn entries_of_programs_are_those_of_units()
    ensures { AreProgramsEntries }
{}

/// No function of the unit stands in another unit exactly where no body stands in another text.
pub fn units_lack_what_programs_lack()
    ensures { DoesUnitLackAlike }
{}

/// The types of the entry's parameters are those of its header, by which the program fits.
pub fn headers_have_the_types_of_entries()
    ensures { AreHeadersOfEntries }
{}
