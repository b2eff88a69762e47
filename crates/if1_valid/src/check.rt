//! Whether a unit is valid, and units that are known to be.
ghost use Rattle.std.specs.Prelude.{◌≡◌, IfOk, IfErr};
ghost use Rattle.if1_graph.specs.Formed.{IsFormed};
ghost use Rattle.if1_graph.specs.Normal.{IsNormal};
ghost use Rattle.if1_graph.specs.Ready.{IsReady};
ghost use Rattle.if1_valid.specs.Refused.{IsRefused};

use crate::ready::Ready;
use flow_value::NoMemory;
use if1_graph::{If1Fault, Unit1};
use if1_order::wrong_order;
use if1_ports::wrong_ports;
use if1_types::sorts_of;
use if1_typing::{known_of, wrong_type};
use std::alloc::Global;

/// The unit, if it is valid. Else a node or the boundary of a graph whose ports are not filled as the
/// table of nodes says (fault 6); where the ports of the whole unit are right, one into which something
/// of a wrong type leads (fault 7); where types are right too, a node that reaches itself (fault 5); or
/// want of memory (IF1 manual M-170, simple and compound nodes).
pub fn valid(alloc: Global, unit: Unit1) -> Result<Ready, If1Fault>
    requires formed { IsFormed unit }
    requires normal { IsNormal unit }
    ensures valid { IfOk result (λ r. (r ≡ unit) × IsReady unit) }
    ensures refused { IfErr result (IsRefused unit) }
{
    let sorts = sorts_of(alloc, unit.types.as_slice())?;
    if let Some((graph, node)) = wrong_ports(alloc, &sorts, &unit)? {
        return Err(If1Fault::Ports { graph, node });
    }
    let known = known_of(alloc, sorts, unit.types.as_slice(), unit.graphs.as_slice())?;
    if let Some((graph, node)) = wrong_type(alloc, &known, &unit)? {
        return Err(If1Fault::TypeOf { graph, node });
    }
    if let Some((graph, node)) = wrong_order(alloc, &unit)? {
        return Err(If1Fault::Cycle { graph, node });
    }
    Ok(Ready::of(unit, known.sorts))
}

/// A unit that is ready by what is known of it, with the numbers of its types: nothing is checked.
pub fn numbered(alloc: Global, unit: Unit1) -> Result<Ready, NoMemory>
    requires ready { IsReady unit }
    requires normal { IsNormal unit }
    ensures { IfOk result (λ r. r ≡ unit) }
{
    let sorts = sorts_of(alloc, unit.types.as_slice())?;
    Ok(Ready::of(unit, sorts))
}
