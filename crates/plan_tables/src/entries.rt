//! Where functions begin.
ghost use Rattle.std.specs.Prelude.{◌≡◌, ℕ, ◌<◌, length, IfOk};
ghost use Rattle.graph_meaning.specs.Entered.{IsIn};
ghost use Rattle.plan_data.specs.declared.plan.PlanData.{PlanData};
ghost use Rattle.plan_data.specs.Parts.{table_of};
ghost use Rattle.plan_tables.specs.Above.{entry_at};

use crate::sizes::{arms_total, zeros};
use flow_value::{NoMemory, Numbers};
use plan_data::{PlanGraph, number_at};
use std::alloc::Global;

/// At which place each of these functions begins, by the number of its graph, where they stand
/// behind one another with one more step behind each.
pub fn entries_of(
    alloc: Global,
    graphs: &[PlanGraph],
    sizes: &[u32],
    functions: &[u32],
) -> Result<Numbers, NoMemory>
    requires { (f : ℕ) → IsIn f functions.now → f < length graphs.now }
    ensures { IfOk result (λ es. (D : PlanData) → D.sizes ≡ sizes.now → (f : ℕ) → IsIn f functions.now → table_of es f ≡ entry_at D functions.now 0 f) }
{
    let mut entries = zeros(alloc, graphs.len())?;
    let mut begin = arms_total(graphs, sizes, functions)?;
    let mut place = functions.len();
    while place > 0 {
        place -= 1;
        let function = functions[place];
        begin -= number_at(sizes, function) + 1;
        entries.set(function as usize, begin);
    }
    Ok(entries)
}
