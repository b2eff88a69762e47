//! Units.
ghost use Rattle.std.specs.Prelude.{IfErr, IfOk};
ghost use Rattle.sisal_check.specs.Texts.{IsText};
ghost use Rattle.type_rules.specs.Faults.{IsRule};
ghost use Rattle.type_table.specs.Tables.{IsTable};
ghost use Rattle.typed_tree.specs.Faults.{BreaksUnit};
ghost use Rattle.typed_tree.specs.Units.{IsTyped};
ghost use Rattle.unit_types.specs.Rests.{AreStanding};

use crate::bodies::functions;
use crate::state::{Given, Walk};
use sisal_tree::Unit;
use std::alloc::Global;
use type_rules::TypeFault;
use typed_tree::Program;
use unit_types::{Declared, declare};
use value_names::InForce;

/// The typed program of a unit, or the first rule that it breaks with the line: SISAL Language
/// Reference Manual 1.2, types, scope and programs.
pub fn check(alloc: Global, unit: Unit) -> Result<Program, TypeFault>
    requires text { IsText unit }
    ensures typed { IfOk result (λ p. IsText unit → IsTyped unit p) }
    ensures types { IfOk result (λ p. IsTable p.types) }
    ensures standing { IfOk result (λ p. IsText unit → AreStanding unit.tokens.names p.types) }
    ensures breaks { IfErr result (IsRule (λ rule line. IsText unit → BreaksUnit unit rule line)) }
{
    let Declared {
        types,
        named,
        functions: headers,
        numbers,
        defines,
    } = declare(alloc, &unit)?;
    let Unit { tokens, items, .. } = unit;
    let mut walk = Walk {
        types,
        names: InForce::new(alloc),
    };
    let given = Given {
        alloc,
        tokens: tokens.list.as_slice(),
        spellings: tokens.names.as_slice(),
        named: &named,
        functions: headers.as_slice(),
        numbers: &numbers,
        known: 0,
    };
    let functions = functions(items.as_slice(), &given, &mut walk)?;
    walk.types.holds();
    Ok(Program {
        names: tokens.names,
        types: walk.types,
        functions,
        defines,
    })
}
