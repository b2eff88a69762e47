//! Units that are known to be valid.
ghost use Rattle.std.specs.Prelude.{◌≡◌, IfOk, IsSome, Some};
ghost use Rattle.if1_graph.specs.Normal.{IsNormal};
ghost use Rattle.if1_graph.specs.Ready.{IsReady};
ghost use Rattle.if1_types.specs.Numbering.{IsNumbering};
ghost use Rattle.if1_valid.specs.Params.{function_of, params_of};

use crate::params::function_params;
use flow_value::{NoMemory, Types};
use if1_graph::Unit1;
use if1_types::Sorts;
use std::alloc::Global;
use std::marker::Model;

/// A valid unit in normal order, with the numbers of its types.
#[derive(Drop)]
pub struct Ready {
    unit: Unit1,
    sorts: Sorts,
}

impl Model for Ready {
    ghost use Rattle.std.specs.Coded.{codes};
    ghost use Rattle.if1_graph.specs.contracts.graph.Graph as graph;
    ghost use Rattle.if1_graph.specs.declared.graph.Unit1.{Unit1};
    ghost use Rattle.if1_graph.specs.Normal.{IsNormal};
    ghost use Rattle.if1_graph.specs.Ready.{IsReady};
    ghost use Rattle.if1_types.specs.Numbering.{IsNumbering};

    ghost Value = { Unit1 };

    ghost coded = { Prim.hlevel (codes, graph.the_row.coded) };

    ghost view = { λ r. r.unit };

    ghost invariant = { λ r. IsReady r.unit × IsNormal r.unit × IsNumbering r.unit.types r.sorts };
}

impl Ready {
    /// A unit that is valid and in normal order, with the numbers of its types.
    pub fn of(unit: Unit1, sorts: Sorts) -> Ready
        requires ready { IsReady unit }
        requires normal { IsNormal unit }
        requires numbers { IsNumbering unit.types sorts }
        ensures { result ≡ unit }
    {
        Ready { unit, sorts }
    }

    /// The unit.
    pub fn unit(&self) -> &Unit1
        ensures unit { result.now ≡ self.now }
        ensures ready { IsReady self.now }
        ensures normal { IsNormal self.now }
    {
        &self.unit
    }

    /// What the labels of its types stand for, by number.
    pub fn sorts(&self) -> &Sorts
        ensures { IsNumbering self.now.types result.now }
    {
        &self.sorts
    }

    /// The unit and the numbers of its types, of which the unit need not stay valid.
    pub fn into_parts(self) -> (Unit1, Sorts)
        ensures unit { result.0 ≡ self }
        ensures ready { IsReady self }
        ensures normal { IsNormal self }
        ensures numbers { IsNumbering self.types result.1 }
    {
        (self.unit, self.sorts)
    }

    /// The unit, which need not stay valid.
    pub fn into_unit(self) -> Unit1
        ensures unit { result ≡ self }
        ensures ready { IsReady self }
        ensures normal { IsNormal self }
    {
        self.unit
    }

    /// The types of the arguments of the function of a number, in order, with the names of fields and
    /// tags. They are written out, so types that share their parts may want much memory.
    pub fn params(&self, alloc: Global, graph: u32) -> Result<Types, NoMemory>
        requires { IsSome (function_of self.now graph) }
        ensures { IfOk result (λ types. params_of self.now graph ≡ Some types) }
    {
        let types = self.unit.types.as_slice();
        match function_params(alloc, types, self.unit.graphs.as_slice(), graph)? {
            Some(types) => Ok(types),
            None => unreachable!(),
        }
    }
}
