//! Why a text has no typed program.
ghost use Rattle.std.specs.Prelude.{◌≡◌};
ghost use Rattle.type_rules.specs.Faults.{fault_at};
ghost use Rattle.type_rules.specs.declared.fault.TypeFault.{TypeFault};
ghost use Rattle.type_rules.specs.declared.fault.Refused.{Refused};
ghost use Rattle.type_rules.specs.declared.fault.TypeFault.TheVariants as fault;
ghost use Rattle.type_rules.specs.declared.fault.Refused.TheVariants as refused;

use flow_value::NoMemory;

/// Why a text has no typed program.
#[derive(Clone, Copy, Debug, PartialEq, Eq)]
pub enum TypeFault {
    /// A phrase breaks a typing rule.
    Rule {
        /// The number of the rule, from 1 to 23.
        rule: u8,
        /// The line of the phrase, from 1.
        line: u32,
    },
    /// Want of memory.
    NoMemory,
}

impl From<NoMemory> for TypeFault {
    ghost from_gives = { λ _ e. e ≡ fault.NoMemory };

    fn from(_e: NoMemory) -> TypeFault {
        TypeFault::NoMemory
    }
}

/// Why a form is not typed over operands of some types.
#[derive(Clone, Copy, Debug, PartialEq, Eq)]
pub enum Refused {
    /// It breaks the typing rule of this number.
    Rule(u8),
    /// Want of memory.
    NoMemory,
}

impl From<NoMemory> for Refused {
    ghost from_gives = { λ _ e. e ≡ refused.NoMemory };

    fn from(_e: NoMemory) -> Refused {
        Refused::NoMemory
    }
}

impl Refused {
    /// The fault of a form that stands on a line.
    pub fn at(self, line: u32) -> TypeFault
        ensures { result ≡ fault_at line self }
    {
        match self {
            Refused::Rule(rule) => TypeFault::Rule { rule, line },
            Refused::NoMemory => TypeFault::NoMemory,
        }
    }
}
