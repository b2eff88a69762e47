//! The nodes that use a port.
ghost use Rattle.std.specs.Prelude.{◌≡◌, ◌∷◌, ◌++◌, ◌==◌, ◌&&◌, ◌<◌, [], ℕ, List, Some, length, slice_index_or, if◌then◌else◌, IfOk, OnOk};
ghost use Rattle.if1_graph.specs.declared.graph.Edge.{Edge};
ghost use Rattle.if1_reach.specs.Users.{group_at, users_at, users_in, AreGrouped, HasUsers};

use flow_value::{NoMemory, Numbers, Seq};
use if1_graph::{Edge, Origin};
use indexmap::IndexMap;
use std::alloc::Global;

/// The nodes to which edges lead from each port, in the order of the edges.
#[derive(Drop)]
pub struct PortUsers {
    /// The place of a port's list, by the node and the output port; node 0 stands for the graph's inputs.
    pub groups: IndexMap<(u32, u32), usize>,
    /// The lists.
    pub lists: Vec<Numbers>,
}

// the place of the list of a port, which is begun where there is none
fn group_of(alloc: Global, users: &mut PortUsers, node: u32, port: u32) -> Result<usize, NoMemory>
    requires { AreGrouped users.old }
    ensures { IfOk
        result
        (λ k. AreGrouped users.new × (group_at users.new node port ≡ Some k) × (k < length users.new.lists.items) × ((l p : ℕ) → users_at users.new l p ≡ users_at users.old l p)) }
{
    if let Some(group) = users.groups.get(&(node, port)) {
        return Ok(*group);
    }
    let group = users.lists.as_slice().len();
    users.lists.push(Seq::new(alloc))?;
    users.groups.insert((node, port), group)?;
    Ok(group)
}

fn note(alloc: Global, users: &mut PortUsers, node: u32, port: u32, to: u32) -> Result<(), NoMemory>
    requires { AreGrouped users.old }
    ensures { OnOk
        result
        (AreGrouped users.new × ((l p : ℕ) → users_at users.new l p ≡ users_at users.old l p ++ (if (node == l) && (port == p) then to ∷ [] else []))) }
{
    let group = group_of(alloc, users, node, port)?;
    users.lists[group].add(to)?;
    Ok(())
}

/// Notes the node to which an edge leads as one that uses the port from which it comes.
pub fn note_edge(alloc: Global, users: &mut PortUsers, edge: &Edge) -> Result<(), NoMemory>
    requires { AreGrouped users.old }
    ensures { OnOk
        result
        (AreGrouped users.new × ((es : List Edge) → HasUsers es users.old → HasUsers (es ++ edge.now ∷ []) users.new)) }
{
    match &edge.from {
        Origin::Port(node, port) => note(alloc, users, *node, *port, edge.node),
        Origin::Lit(_) => Ok(()),
    }
}

/// The nodes that use each port. Linear in the edges.
pub fn port_users(alloc: Global, edges: &[Edge]) -> Result<PortUsers, NoMemory>
    ensures { IfOk result (HasUsers edges.now) }
{
    let mut users = PortUsers {
        groups: IndexMap::new(alloc),
        lists: Vec::new(alloc),
    };
    for edge in edges {
        note_edge(alloc, &mut users, edge)?;
    }
    Ok(users)
}

fn list_at(lists: &[Numbers], group: usize) -> &[u32]
    requires { group < length lists.now }
    ensures { result.now ≡ slice_index_or lists.now group [] }
{
    lists[group].as_slice()
}

/// The nodes to which edges lead from where this one comes from; none for a literal.
pub fn users_of<'a>(users: &'a PortUsers, from: &Origin) -> &'a [u32]
    requires { AreGrouped users.now }
    ensures { (es : List Edge) → HasUsers es users.now → result.now ≡ users_in es from.now }
{
    match from {
        Origin::Port(node, port) => match users.groups.get(&(*node, *port)) {
            Some(group) => list_at(users.lists.as_slice(), *group),
            None => &[],
        },
        Origin::Lit(_) => &[],
    }
}
