//! The lines of graphs, one after another.
ghost use Rattle.std.specs.Prelude.{◌≡◌, ◌≢◌, ℕ, suc, List, [], ◌∷◌, ◌++◌, None, Some, IfOk, All};
ghost use Rattle.std.specs.List.{flat_map};
ghost use Rattle.if1_graph.specs.declared.line.Line.TheVariants.{Function, Subgraph, Import, Open, Close};
ghost use Rattle.if1_graph.specs.Lines.{edge_line};
ghost use Rattle.if1_read.specs.declared.fault.Kind.TheVariants.{Bad};
ghost use Rattle.if1_read.specs.declared.judge.Known.{Known};
ghost use Rattle.if1_read.specs.Known.{IsTableSound};
ghost use Rattle.if1_read.specs.Stands.{IsNewPart, IsRead, GoesOn, Runs, lines_of};
ghost use Rattle.if1_read.specs.Least.{earlier, least, found, noted};
ghost use Rattle.if1_read.specs.Pages.{no_lines, sheet_faults, wrong_count, too_deep, run_faults, sheets_after};
ghost use Rattle.if1_read.specs.Rulings.{rules_of};
ghost use Rattle.if1_read.specs.Sheets.{page_of, sheet_of, sheets_around, sheets_of, marks_of, node_says, Turns};
ghost use Rattle.if1_read.specs.Effects.{AddsNode, AddsEdge, BeginsPart, BeginsFunction, BeginsSubgraph, Imports, Opens, Closes};

use crate::fault::{Fault, Kind, after};
use crate::judge::Known;
use crate::level::{Level, graphs_of, with_edge, with_node};
use crate::part::Part;
use flow_value::{Name, NoMemory, Seq};
use if1_graph::{Edge, GraphList, Imports, Line, Node, Origin};
use std::alloc::Global;

/// What the lines so far have given.
#[derive(Drop)]
pub struct Machine {
    /// The functions of other units.
    pub imports: Imports,
    /// The unit and the open compound nodes around the innermost one.
    pub outer: Vec<Level>,
    /// The innermost open compound node, or the unit.
    pub level: Level,
    /// The fault that is named.
    pub first: Option<Fault>,
}

/// At most so many compound nodes may be open.
const MOST_LEVELS: usize = 200;

pub fn begun(alloc: Global, first: Option<Fault>) -> Machine
    ensures first { result.first ≡ first }
    ensures runs { (k : Known) → Runs k [] result }
    ensures sheets { sheets_of result ≡ (None, 0) ∷ [] }
{
    Machine {
        imports: Seq::new(alloc),
        outer: Vec::new(alloc),
        level: Level {
            graphs: Seq::new(alloc),
            part: None,
        },
        first,
    }
}

fn bad(machine: Machine, line: u32) -> Machine
    ensures some { ¬ (result.first ≡ None) }
    ensures found { result.first ≡ earlier machine.first (found line (Some Bad)) }
    ensures sheets { sheets_of result ≡ sheets_of machine }
{
    let Machine {
        imports,
        outer,
        level,
        first,
    } = machine;
    Machine {
        imports,
        outer,
        level,
        first: after(first, line, Some(Kind::Bad)),
    }
}

fn node_line(machine: Machine, line: u32, node: Node) -> Result<Machine, NoMemory>
    ensures clean { IfOk result (λ m. m.first ≡ None → machine.first ≡ None) }
    ensures adds { IfOk result (λ m. m.first ≡ None → AddsNode machine m node) }
    ensures turns { IfOk result (λ m. (k : Known) (before name : List ℕ) → Turns k machine line (node_says (marks_of node) before name) m) }
{
    let Machine {
        imports,
        outer,
        level,
        first,
    } = machine;
    let (level, wrong) = with_node(level, line, node)?;
    Ok(Machine {
        imports,
        outer,
        level,
        first: after(first, line, wrong),
    })
}

fn edge_line(known: &Known, machine: Machine, line: u32, edge: Edge) -> Result<Machine, NoMemory>
    ensures clean { IfOk result (λ m. m.first ≡ None → machine.first ≡ None) }
    ensures adds { IfOk result (λ m. m.first ≡ None → IsTableSound known.now.table → AddsEdge known.now machine m edge) }
    ensures turns { IfOk result (λ m. IsTableSound known.now.table → Turns known.now machine line (edge_line edge) m) }
{
    let Machine {
        imports,
        outer,
        level,
        first,
    } = machine;
    let (level, wrong) = with_edge(known, level, line, edge)?;
    Ok(Machine {
        imports,
        outer,
        level,
        first: after(first, line, wrong),
    })
}

fn new_part(alloc: Global, exported: bool, fun: u32, name: Name) -> Part
    ensures fresh { IsNewPart exported fun name result }
    ensures page { page_of result ≡ no_lines }
{
    Part {
        exported,
        fun,
        name,
        nodes: Vec::new(alloc),
        edges: Vec::new(alloc),
    }
}

/// A graph begins, and the one before it ends.
fn part_line(
    alloc: Global,
    known: &Known,
    machine: Machine,
    line: u32,
    part: Part,
    wrong: Option<Kind>,
) -> Result<Machine, NoMemory>
    ensures clean { IfOk result (λ m. m.first ≡ None → machine.first ≡ None) }
    ensures right { IfOk result (λ m. m.first ≡ None → wrong ≡ None) }
    ensures begins { IfOk result (λ m. m.first ≡ None → IsTableSound known.now.table → BeginsPart known.now machine m part) }
    ensures sheets { IfOk result (λ m. sheets_of m ≡ (Some (page_of part), suc (sheet_of machine.level).1) ∷ sheets_around machine.outer.items) }
    ensures found { IfOk result (λ m. IsTableSound known.now.table → m.first ≡ earlier machine.first (least (sheet_faults (rules_of known.now) (sheet_of machine.level) ++ noted line wrong))) }
{
    let Machine {
        imports,
        outer,
        level,
        first,
    } = machine;
    let (graphs, first) = graphs_of(alloc, known, level, first)?;
    Ok(Machine {
        imports,
        outer,
        level: Level {
            graphs,
            part: Some(part),
        },
        first: after(first, line, wrong),
    })
}

fn function_line(
    alloc: Global,
    known: &Known,
    machine: Machine,
    line: u32,
    exported: bool,
    fun: u32,
    name: Name,
) -> Result<Machine, NoMemory>
    ensures clean { IfOk result (λ m. m.first ≡ None → machine.first ≡ None) }
    ensures begins { IfOk result (λ m. m.first ≡ None → IsTableSound known.now.table → BeginsFunction known.now machine m exported fun name) }
    ensures turns { IfOk result (λ m. IsTableSound known.now.table → Turns known.now machine line (Function exported fun name) m) }
{
    if !machine.outer.is_empty() {
        return Ok(bad(machine, line));
    }
    let wrong = known.table.wrong(fun);
    part_line(
        alloc,
        known,
        machine,
        line,
        new_part(alloc, exported, fun, name),
        wrong,
    )
}

fn subgraph_line(
    alloc: Global,
    known: &Known,
    machine: Machine,
    line: u32,
    name: Name,
) -> Result<Machine, NoMemory>
    ensures clean { IfOk result (λ m. m.first ≡ None → machine.first ≡ None) }
    ensures begins { IfOk result (λ m. m.first ≡ None → IsTableSound known.now.table → BeginsSubgraph known.now machine m name) }
    ensures turns { IfOk result (λ m. IsTableSound known.now.table → Turns known.now machine line (Subgraph name) m) }
{
    if machine.outer.is_empty() {
        return Ok(bad(machine, line));
    }
    part_line(
        alloc,
        known,
        machine,
        line,
        new_part(alloc, false, 0, name),
        None,
    )
}

fn import_line(
    alloc: Global,
    known: &Known,
    machine: Machine,
    line: u32,
    ty: u32,
    name: Name,
) -> Result<Machine, NoMemory>
    ensures clean { IfOk result (λ m. m.first ≡ None → machine.first ≡ None) }
    ensures imports { IfOk result (λ m. m.first ≡ None → IsTableSound known.now.table → Imports known.now machine m ty name) }
    ensures turns { IfOk result (λ m. IsTableSound known.now.table → Turns known.now machine line (Import ty name) m) }
{
    if !machine.outer.is_empty() {
        return Ok(bad(machine, line));
    }
    let Machine {
        mut imports,
        outer,
        level,
        first,
    } = machine;
    let (graphs, first) = graphs_of(alloc, known, level, first)?;
    imports.add((ty, name))?;
    Ok(Machine {
        imports,
        outer,
        level: Level { graphs, part: None },
        first: after(first, line, known.table.absent(ty)),
    })
}

fn too_deep(levels: usize) -> Option<Kind>
    ensures none { result ≡ None → ¬ (levels ≡ 201) }
    ensures is { result ≡ too_deep levels }
{
    if levels > MOST_LEVELS {
        Some(Kind::TooMany)
    } else {
        None
    }
}

fn open_line(alloc: Global, machine: Machine, line: u32) -> Result<Machine, NoMemory>
    ensures clean { IfOk result (λ m. m.first ≡ None → machine.first ≡ None) }
    ensures opens { IfOk result (λ m. m.first ≡ None → Opens machine m) }
    ensures turns { IfOk result (λ m. (k : Known) (rest : List ℕ) → Turns k machine line (Open rest) m) }
{
    if machine.level.part.is_none() {
        return Ok(bad(machine, line));
    }
    let Machine {
        imports,
        mut outer,
        level,
        first,
    } = machine;
    outer.push(level)?;
    let wrong = too_deep(outer.len());
    Ok(Machine {
        imports,
        outer,
        level: Level {
            graphs: Seq::new(alloc),
            part: None,
        },
        first: after(first, line, wrong),
    })
}

fn wrong_count(count: u32, graphs: usize) -> Option<Kind>
    ensures none { result ≡ None → count ≡ graphs }
    ensures is { result ≡ wrong_count count graphs }
{
    if count as usize == graphs {
        None
    } else {
        Some(Kind::Bad)
    }
}

/// The graphs of a node; none where a fault is named, so that no graph nests deeper than graphs may:
/// what was read goes, and would go level by level.
fn unless_wrong(alloc: Global, first: Option<Fault>, graphs: GraphList) -> GraphList
    ensures kept { first ≡ None → result ≡ graphs }
    ensures none { first ≢ None → result ≡ [] }
{
    if first.is_some() {
        Seq::new(alloc)
    } else {
        graphs
    }
}

fn close_line(
    alloc: Global,
    known: &Known,
    machine: Machine,
    line: u32,
    count: u32,
    node: Node,
) -> Result<Machine, NoMemory>
    ensures clean { IfOk result (λ m. m.first ≡ None → machine.first ≡ None) }
    ensures closes { IfOk result (λ m. m.first ≡ None → IsTableSound known.now.table → Closes known.now machine m count node) }
    ensures turns { IfOk result (λ m. IsTableSound known.now.table → (assoc before name : List ℕ) → Turns known.now machine line (Close (marks_of node).0 (marks_of node).1 count assoc before name) m) }
{
    let Machine {
        imports,
        mut outer,
        level,
        first,
    } = machine;
    let Some(around) = outer.pop() else {
        return Ok(bad(
            Machine {
                imports,
                outer,
                level,
                first,
            },
            line,
        ));
    };
    let (graphs, first) = graphs_of(alloc, known, level, first)?;
    let first = after(first, line, wrong_count(count, graphs.len()));
    let mut node = node;
    node.subs = unless_wrong(alloc, first, graphs);
    let (level, wrong) = with_node(around, line, node)?;
    Ok(Machine {
        imports,
        outer,
        level,
        first: after(first, line, wrong),
    })
}

/// One more line.
pub fn step(
    alloc: Global,
    known: &Known,
    machine: Machine,
    line: u32,
    says: Line,
) -> Result<Machine, NoMemory>
    ensures clean { IfOk result (λ m. m.first ≡ None → machine.first ≡ None) }
    ensures goes { IfOk result (λ m. IsTableSound known.now.table → IsRead says → GoesOn known.now machine says m) }
    ensures turns { IfOk result (λ m. IsTableSound known.now.table → Turns known.now machine line says m) }
{
    match says {
        Line::Blank => Ok(machine),
        Line::Entry { .. } => Ok(machine),
        Line::Node {
            label,
            op,
            before,
            name,
        } => node_line(
            machine,
            line,
            Node {
                label,
                op,
                subs: Seq::new(alloc),
                assoc: Seq::new(alloc),
                before,
                name,
            },
        ),
        Line::Edge {
            from,
            out,
            node,
            port,
            ty,
            takes,
            name,
        } => edge_line(
            known,
            machine,
            line,
            Edge {
                from: Origin::Port(from, out),
                node,
                port,
                ty,
                takes,
                name,
            },
        ),
        Line::Literal {
            node,
            port,
            ty,
            text,
            name,
        } => edge_line(
            known,
            machine,
            line,
            Edge {
                from: Origin::Lit(text),
                node,
                port,
                ty,
                takes: false,
                name,
            },
        ),
        Line::Function {
            exported,
            fun,
            name,
        } => function_line(alloc, known, machine, line, exported, fun, name),
        Line::Subgraph { name } => subgraph_line(alloc, known, machine, line, name),
        Line::Import { ty, name } => import_line(alloc, known, machine, line, ty, name),
        Line::Open { rest: _ } => open_line(alloc, machine, line),
        Line::Close {
            label,
            op,
            count,
            assoc,
            before,
            name,
        } => close_line(
            alloc,
            known,
            machine,
            line,
            count,
            Node {
                label,
                op,
                subs: Seq::new(alloc),
                assoc,
                before,
                name,
            },
        ),
    }
}

/// All lines.
pub fn run(
    alloc: Global,
    known: &Known,
    lines: Vec<(u32, Line)>,
    first: Option<Fault>,
) -> Result<Machine, NoMemory>
    ensures clean { IfOk result (λ m. m.first ≡ None → first ≡ None) }
    ensures runs { IfOk result (λ m. m.first ≡ None → IsTableSound known.now.table → All IsRead (lines_of lines.items) → Runs known.now (lines_of lines.items) m) }
    ensures sheets { IfOk result (λ m. IsTableSound known.now.table → sheets_of m ≡ sheets_after ((None, 0) ∷ []) lines.items) }
    ensures found { IfOk result (λ m. IsTableSound known.now.table → earlier m.first (least (flat_map (sheet_faults (rules_of known.now)) (sheets_of m))) ≡ earlier first (least (run_faults (rules_of known.now) ((None, 0) ∷ []) lines.items))) }
{
    let mut machine = begun(alloc, first);
    for (line, says) in lines {
        machine = step(alloc, known, machine, line, says)?;
    }
    Ok(machine)
}
