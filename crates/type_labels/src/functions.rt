//! The labels of the types of functions, and of what edges carry.
ghost use Rattle.std.specs.Prelude.{◌≡◌, ◌<◌, length, [], IfOk, IfErr, OnOk};
ghost use Rattle.lowering.specs.Types.{
  enter,
  entry,
  labelled,
  label_within,
  function_label,
  callee_label,
  carried_label,
};
ghost use Rattle.lowering.specs.TooMany.{most_types};
ghost use Rattle.type_labels.specs.Keys.{before};
ghost use Rattle.type_labels.specs.Known.{AreKnown};
ghost use Rattle.type_labels.specs.Functions.{tuple_by, function_by};

use crate::known::Known;
use crate::table::{LabelFault, Table};
use crate::types::DEEPEST;
use flow_value::{Name, item_at};
use lowering::Carried;
use type_table::Types;
use typed_tree::Function;

impl Table {
    /// The label of the type of a function.
    pub fn function_label(
        &mut self,
        types: &Types,
        names: &[Name],
        known: &mut Known,
        function: &Function,
    ) -> Result<u32, LabelFault>
        requires { AreKnown types.now names.now known.old self.old }
        ensures ok { IfOk result (λ label. function_label types.now names.now function.now self.old ≡ labelled label self.new) }
        ensures too_many { IfErr result (λ e. e ≡ LabelFault.TooMany → most_types < length (function_label types.now names.now function.now self.old).table) }
        ensures known { OnOk result (AreKnown types.now names.now known.new self.new) }
    {
        let params = function.params.as_slice();
        let results = function.results.as_slice();
        self.function_within(types, names, known, DEEPEST, params, results)
    }

    /// The label of what an edge carries.
    pub fn carried_label(
        &mut self,
        types: &Types,
        names: &[Name],
        known: &mut Known,
        functions: &[Function],
        carried: Carried,
    ) -> Result<u32, LabelFault>
        requires { AreKnown types.now names.now known.old self.old }
        ensures ok { IfOk result (λ label. carried_label types.now names.now functions.now carried self.old ≡ labelled label self.new) }
        ensures too_many { IfErr result (λ e. e ≡ LabelFault.TooMany → most_types < length (carried_label types.now names.now functions.now carried self.old).table) }
        ensures known { OnOk result (AreKnown types.now names.now known.new self.new) }
    {
        match carried {
            Carried::One(ty) => self.type_label(types, names, known, ty),
            Carried::Many(ty) => self.sequence_label(types, names, known, DEEPEST, 4, ty),
            Carried::Callee(place) => {
                match item_at(functions, place as usize) {
                    Some(function) => self.function_label(types, names, known, function),
                    None => Ok(0),
                }
            }
        }
    }

    /// The label of the type of a function, where types are at most so deep.
    fn function_within(
        &mut self,
        types: &Types,
        names: &[Name],
        known: &mut Known,
        depth: u32,
        params: &[usize],
        results: &[usize],
    ) -> Result<u32, LabelFault>
        requires { AreKnown types.now names.now known.old self.old }
        ensures ok { IfOk result (λ label. function_by (label_within types.now names.now depth) params.now results.now self.old ≡ labelled label self.new) }
        ensures too_many { IfErr result (λ e. e ≡ LabelFault.TooMany → most_types < length (function_by (label_within types.now names.now depth) params.now results.now self.old).table) }
        ensures known { OnOk result (AreKnown types.now names.now known.new self.new) }
    {
        let arguments = match self.tuple_label(types, names, known, depth, params) {
            Ok(label) => label,
            Err(fault) => return Err(fault),
        };
        let given = self.tuple_label(types, names, known, depth, results)?;
        let name = Vec::new(self.allocator());
        self.enter((3, arguments, given, name))
    }

    /// The label of the first of the members of a tuple, 0 where there is none. They are entered from
    /// the last on.
    fn tuple_label(
        &mut self,
        types: &Types,
        names: &[Name],
        known: &mut Known,
        depth: u32,
        tys: &[usize],
    ) -> Result<u32, LabelFault>
        requires { AreKnown types.now names.now known.old self.old }
        ensures ok { IfOk result (λ label. tuple_by (label_within types.now names.now depth) tys.now self.old ≡ labelled label self.new) }
        ensures too_many { IfErr result (λ e. e ≡ LabelFault.TooMany → most_types < length (tuple_by (label_within types.now names.now depth) tys.now self.old).table) }
        ensures known { OnOk result (AreKnown types.now names.now known.new self.new) }
    {
        let mut rest = 0;
        let mut at = tys.len();
        while at > 0 {
            at -= 1;
            match self.place_label(types, names, known, depth, tys[at], rest) {
                Ok(label) => rest = label,
                Err(fault) => return Err(fault),
            }
        }
        Ok(rest)
    }

    /// The label of a member of a tuple, before the members with the label `rest`.
    fn place_label(
        &mut self,
        types: &Types,
        names: &[Name],
        known: &mut Known,
        depth: u32,
        ty: usize,
        rest: u32,
    ) -> Result<u32, LabelFault>
        requires { AreKnown types.now names.now known.old self.old }
        ensures ok { IfOk result (λ label. before (label_within types.now names.now depth) 8 [] ty (labelled rest self.old) ≡ labelled label self.new) }
        ensures too_many { IfErr result (λ e. e ≡ LabelFault.TooMany → most_types < length (before (label_within types.now names.now depth) 8 [] ty (labelled rest self.old)).table) }
        ensures known { OnOk result (AreKnown types.now names.now known.new self.new) }
    {
        let label = self.label_within(types, names, known, depth, ty)?;
        let name = Vec::new(self.allocator());
        self.enter((8, label, rest, name))
    }
}
