//! Which edges of a graph come from owned ports.
ghost use Rattle.std.specs.Prelude.{◌≡◌, ◌&&◌, Bool, [], length, map, IfOk, if◌then◌else◌};
ghost use Rattle.if1_graph.specs.declared.graph.Edge.{Edge};
ghost use Rattle.if1_graph.specs.declared.graph.Graph.TheViews.{out-Graph};
ghost use Rattle.if1_marks.specs.Owned.{users};
ghost use Rattle.may_take.specs.Looked.{IsLaid, does_ask, is_asked};
ghost use Rattle.may_take.specs.Owned.{stand_of, is_owned_at, reads_users};

use crate::owned::{Site, is_owned_at, reads_users};
use flow_value::{NoMemory, Seq};
use if1_graph::{Edge, Graph};
use if1_reach::{port_users, users_of};
use std::alloc::Global;

/// A flag for each edge of a graph.
pub type Flags = Seq<bool>;

/// Of which edges it is asked whether they come from owned ports.
#[derive(Clone, Copy)]
pub enum Asked {
    /// Of none.
    Nothing,
    /// Of those that consume.
    Consuming,
    /// Of all.
    All,
}

/// Whether it is asked of any.
pub fn does_ask(asked: Asked) -> bool
    ensures { result ≡ does_ask asked }
{
    !matches!(asked, Asked::Nothing)
}

fn is_flagged(asked: Asked, consuming: bool, owned: bool) -> bool
    ensures { result ≡ (is_asked asked consuming && owned) }
{
    match asked {
        Asked::Nothing => false,
        Asked::Consuming => consuming && owned,
        Asked::All => owned,
    }
}

// the edges by which it goes which ports are owned
fn edges_read<'a>(site: Site, edges: &'a [Edge]) -> &'a [Edge]
    ensures { result.now ≡ (if reads_users (stand_of site.entry) then edges.now else []) }
{
    if reads_users(site) {
        return edges;
    }
    &[]
}

/// Of each edge of a graph that stands here, whether it is one of those that are asked for and comes from
/// an owned port.
pub fn flags_of(
    alloc: Global,
    asked: Asked,
    site: Site,
    graph: &Graph,
    consuming: &[bool],
) -> Result<Flags, NoMemory>
    requires laid { IsLaid graph.now }
    requires fit { length consuming.now ≡ length (out-Graph graph.now).edges }
    ensures { IfOk
        result
        (λ r. (c : Edge → Bool) → consuming.now ≡ map c (out-Graph graph.now).edges → r ≡ map (λ e. is_asked asked (c e) && is_owned_at (stand_of site.entry) graph.now (users graph.now e.from) e.from) (out-Graph graph.now).edges) }
{
    let edges = graph.edges.as_slice();
    let users = port_users(alloc, edges_read(site, edges))?;
    let mut flags = Seq::with_room(alloc, edges.len())?;
    for (index, edge) in edges.iter().enumerate() {
        let owned = is_owned_at(site, graph, users_of(&users, &edge.from), &edge.from);
        flags.add(is_flagged(asked, consuming[index], owned))?;
    }
    Ok(flags)
}
