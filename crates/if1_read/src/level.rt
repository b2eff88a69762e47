//! The unit, or an open compound node: its graphs so far, and the one whose lines are read.
ghost use Rattle.std.specs.Prelude.{◌≡◌, ◌<◌, None, length, IfOk};
ghost use Rattle.if1_graph.specs.Formed.{most, IsOpcode};
ghost use Rattle.if1_read.specs.Known.{IsTableSound};
ghost use Rattle.if1_read.specs.Stands.{GainsNode, GainsEdge, LevelEnds};
ghost use Rattle.if1_read.specs.Least.{earlier, least};
ghost use Rattle.if1_read.specs.Pages.{sheet_faults, wrong_node};
ghost use Rattle.if1_read.specs.Rulings.{rules_of};
ghost use Rattle.if1_read.specs.Sheets.{sheet_of, marks_of, lit_of, sheet_with_node, node_wrong, sheet_with_edge, edge_wrong};

use crate::fault::{Fault, Kind};
use crate::judge::Known;
use crate::part::{Part, ended};
use crate::table::MOST;
use flow_value::{NoMemory, Seq};
use if1_graph::{Edge, Graph, GraphList, Node, compound_of, simple_of};
use std::alloc::Global;

#[derive(Drop)]
pub struct Level {
    pub graphs: GraphList,
    pub part: Option<Part>,
}

/// What is wrong with the opcode or the number of a node that is added behind so many.
pub fn wrong_node(op: u32, before: usize) -> Option<Kind>
    ensures op { result ≡ None → IsOpcode op }
    ensures room { result ≡ None → before < most }
    ensures is { result ≡ wrong_node op before }
{
    if simple_of(op).is_none() && compound_of(op).is_none() {
        Some(Kind::Unknown)
    } else if before >= MOST {
        Some(Kind::TooMany)
    } else {
        None
    }
}

/// Adds a node to the graph whose lines are read.
pub fn with_node(level: Level, line: u32, node: Node) -> Result<(Level, Option<Kind>), NoMemory>
    ensures gains { IfOk result (λ r. r.1 ≡ None → GainsNode level r.0 node) }
    ensures sheet { IfOk result (λ r. sheet_of r.0 ≡ sheet_with_node line (marks_of node) (sheet_of level)) }
    ensures wrong { IfOk result (λ r. r.1 ≡ node_wrong (marks_of node).1 (sheet_of level)) }
{
    let Level { graphs, part } = level;
    let Some(mut part) = part else {
        return Ok((Level { graphs, part: None }, Some(Kind::Bad)));
    };
    let wrong = wrong_node(node.op, part.nodes.len());
    part.nodes.push((line, node))?;
    Ok((
        Level {
            graphs,
            part: Some(part),
        },
        wrong,
    ))
}

/// Adds an edge or literal to the graph whose lines are read.
pub fn with_edge(
    known: &Known,
    level: Level,
    line: u32,
    edge: Edge,
) -> Result<(Level, Option<Kind>), NoMemory>
    ensures gains { IfOk result (λ r. r.1 ≡ None → IsTableSound known.now.table → GainsEdge known.now level r.0 edge) }
    ensures sheet { IfOk result (λ r. sheet_of r.0 ≡ sheet_with_edge line (lit_of edge) (sheet_of level)) }
    ensures wrong { IfOk result (λ r. IsTableSound known.now.table → r.1 ≡ edge_wrong (rules_of known.now) edge.ty (sheet_of level)) }
{
    let Level { graphs, part } = level;
    let Some(mut part) = part else {
        return Ok((Level { graphs, part: None }, Some(Kind::Bad)));
    };
    let wrong = known.table.wrong(edge.ty);
    part.edges.push((line, edge))?;
    Ok((
        Level {
            graphs,
            part: Some(part),
        },
        wrong,
    ))
}

/// The graphs of a level whose last one ends, and the fault that is named.
pub fn graphs_of(
    alloc: Global,
    known: &Known,
    level: Level,
    first: Option<Fault>,
) -> Result<(GraphList, Option<Fault>), NoMemory>
    ensures clean { IfOk result (λ r. r.1 ≡ None → first ≡ None) }
    ensures ends { IfOk result (λ r. r.1 ≡ None → IsTableSound known.now.table → LevelEnds known.now level.graphs level.part r.0) }
    ensures begun { IfOk result (λ r. length r.0 ≡ (sheet_of level).1) }
    ensures found { IfOk result (λ r. IsTableSound known.now.table → r.1 ≡ earlier first (least (sheet_faults (rules_of known.now) (sheet_of level)))) }
{
    let Level { mut graphs, part } = level;
    match part {
        None => Ok((graphs, first)),
        Some(part) => {
            let (graph, first) = ended(alloc, known, part, first)?;
            graphs.add(graph)?;
            Ok((graphs, first))
        }
    }
}
