//! What the types and headers of a unit break.
ghost use Rattle.std.specs.Prelude.{◌≡◌};
ghost use Rattle.unit_types.specs.Faults.{IsUnitRule, fault_of};
ghost use Rattle.unit_types.specs.declared.fault.UnitFault.TheVariants as fault;

use flow_value::NoMemory;
use type_rules::TypeFault;

/// What the types and headers of a unit break, with the line.
#[derive(Clone, Copy, Debug, PartialEq, Eq)]
pub enum UnitFault {
    /// Two types have one name.
    TwoTypes(u32),
    /// A name of a type is not known.
    UnknownType(u32),
    /// A type is real.
    RealType(u32),
    /// A type is deeper than 64.
    DeepType(u32),
    /// A field or tag stands twice in a type.
    MemberTwice(u32),
    /// A function has a name that is taken, or another header than the one that was announced.
    OtherFunction(u32),
    /// A function that is named after `define`, or announced, is not given.
    NoFunction(u32),
    /// A parameter stands twice.
    ParameterTwice(u32),
    /// Want of memory.
    NoMemory,
}

impl From<NoMemory> for UnitFault {
    ghost from_gives = { λ _ e. e ≡ fault.NoMemory };

    fn from(_e: NoMemory) -> UnitFault {
        UnitFault::NoMemory
    }
}

/// The fault with the number of its rule.
pub fn numbered(fault: UnitFault) -> TypeFault
    ensures rule { IsUnitRule result }
    ensures is { result ≡ fault_of fault }
{
    match fault {
        UnitFault::TwoTypes(line) => TypeFault::Rule { rule: 1, line },
        UnitFault::UnknownType(line) => TypeFault::Rule { rule: 2, line },
        UnitFault::RealType(line) => TypeFault::Rule { rule: 3, line },
        UnitFault::DeepType(line) => TypeFault::Rule { rule: 4, line },
        UnitFault::MemberTwice(line) => TypeFault::Rule { rule: 5, line },
        UnitFault::OtherFunction(line) => TypeFault::Rule { rule: 6, line },
        UnitFault::NoFunction(line) => TypeFault::Rule { rule: 7, line },
        UnitFault::ParameterTwice(line) => TypeFault::Rule { rule: 8, line },
        UnitFault::NoMemory => TypeFault::NoMemory,
    }
}
