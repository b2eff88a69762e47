//! The unit of a program.
ghost use Rattle.std.specs.Prelude.{ℕ, ◌≡◌, ◌<◌, ◌+◌, ◌^◌, ◌∷◌, [], ◌++◌, true, false, nat_eq, map, length, get_or, slice_get, slice_set, Some, None, IfOk, OnOk};
ghost use Rattle.std.specs.List.{list_any};
ghost use Rattle.lowering.specs.Graphs.{closed, size};
ghost use Rattle.lowering.specs.Programs.{functions_lowered};
ghost use Rattle.lowering.specs.TooMany.{too_many};
ghost use Rattle.lowered_units.specs.Fitting.{IsFitting};
ghost use Rattle.lowered_units.specs.Listed.{listing};
ghost use Rattle.lowered_units.specs.Units.{function_listings, import_if, imports_of, IsTranslated};
ghost use Rattle.unit_build.specs.Labels.{AreLabelsOf};
ghost use Rattle.unit_build.specs.Readiness.{IsReadyFunction, AreReady};

use crate::maker::Maker;
use flow_value::{NoMemory, Seq};
use if1_graph::{GraphList, Imports, Unit1};
use line_labels::Labels;
use lowering::Lowered;
use std::alloc::Global;
use typed_tree::{Function, Program};

/// Marks a place, if there is such a one.
fn mark(marks: &mut Vec<bool>, place: u32)
    ensures { marks.new.items ≡ slice_set marks.old.items place true }
{
    let place = place as usize;
    if place < marks.len() {
        marks[place] = true;
    }
}

/// For each function, whether it is exported.
fn exports(alloc: Global, functions: usize, defines: &[u32]) -> Result<Vec<bool>, NoMemory>
    ensures count { IfOk result (λ marks. length marks.items ≡ functions) }
    ensures marks { IfOk result (λ marks. (k : ℕ) → k < functions → get_or marks.items k false ≡ list_any (nat_eq k) defines.now) }
{
    let mut marks = vec![in alloc; false; functions]?;
    for place in defines {
        mark(&mut marks, *place);
    }
    Ok(marks)
}

impl Maker<'_> {
    /// Adds the function of a place, where another text has it.
    fn put_import(
        &self,
        place: u32,
        function: &Function,
        imports: &mut Imports,
    ) -> Result<(), NoMemory>
        requires { slice_get self.now.program.now.functions place ≡ Some function.now }
        ensures { OnOk result (imports.new ≡ imports.old ++ import_if self.now.program.now function.now function.now.body) }
    {
        match &function.body {
            Some(_) => Ok(()),
            None => {
                let name = self.name_of(function)?;
                imports.add((self.header_label(place, function), name))
            }
        }
    }

    /// The functions that another text has.
    fn imports(&self) -> Result<Imports, NoMemory>
        requires { length self.now.program.now.functions < 2 ^ 32 }
        ensures { IfOk result (λ imports. imports ≡ imports_of self.now.program.now self.now.program.now.functions) }
    {
        let functions = self.program.functions.as_slice();
        let mut imports = Imports::new(self.alloc);
        for place in 0..functions.len() {
            self.put_import(place as u32, &functions[place], &mut imports)?;
        }
        Ok(imports)
    }

    /// Adds the function of a place, whose graph has this number; the number behind its graphs.
    fn put_function(
        &self,
        place: u32,
        function: &Function,
        exported: bool,
        number: u32,
        lowered: Lowered,
        graphs: &mut GraphList,
    ) -> Result<u32, NoMemory>
        requires there { slice_get self.now.program.now.functions place ≡ Some function.now }
        requires exported { exported ≡ list_any (nat_eq place) self.now.program.now.defines }
        requires ready { IsReadyFunction self.now.program.now number lowered }
        ensures graph { OnOk result (map listing graphs.new ≡ map listing graphs.old ++ function_listings self.now.program.now place number (function.now ∷ []) (lowered ∷ [])) }
        ensures next { IfOk result (λ next. next ≡ number + size lowered) }
    {
        let inside = lowered.graphs.len() as u32;
        let graph = self.function_graph(place, function, exported, number, lowered)?;
        graphs.add(graph)?;
        Ok(number + inside + 1)
    }

    /// The graphs of the functions.
    fn graphs_of(&self, lowered: Seq<Lowered>, exports: &[bool]) -> Result<GraphList, NoMemory>
        requires few { length self.now.program.now.functions < 2 ^ 32 }
        requires count { length exports.now ≡ length self.now.program.now.functions }
        requires exported { (k : ℕ) → k < length exports.now → get_or exports.now k false ≡ list_any (nat_eq k) self.now.program.now.defines }
        requires ready { AreReady self.now.program.now 1 lowered }
        ensures { IfOk result (λ graphs. map listing graphs ≡ function_listings self.now.program.now 0 1 self.now.program.now.functions lowered) }
    {
        let functions = self.program.functions.as_slice();
        let mut graphs = GraphList::with_room(self.alloc, functions.len())?;
        let mut left = lowered.into_vec().into_iter();
        let mut number = 1;
        for place in 0..functions.len() {
            let Some(lowered) = left.next() else {
                return Ok(graphs);
            };
            number = self.put_function(
                place as u32,
                &functions[place],
                exports[place],
                number,
                lowered,
                &mut graphs,
            )?;
        }
        Ok(graphs)
    }
}

/// The unit of a program within the limits, of its lowered functions and its labels.
pub fn unit_of(
    alloc: Global,
    program: &Program,
    lowered: Seq<Lowered>,
    labels: &Labels,
) -> Result<Unit1, NoMemory>
    requires fits { IsFitting program.now }
    requires within { too_many program.now ≡ None }
    requires functions { lowered ≡ functions_lowered program.now }
    requires labels { AreLabelsOf program.now labels.now }
    ensures { IfOk result (λ unit. IsTranslated program.now unit) }
{
    let maker = Maker {
        alloc,
        program,
        labels,
    };
    let exports = exports(alloc, program.functions.len(), program.defines.as_slice())?;
    let types = labels.table.lines()?;
    let imports = maker.imports()?;
    let graphs = maker.graphs_of(lowered, exports.as_slice())?;
    Ok(Unit1 {
        types,
        imports,
        graphs,
    })
}
