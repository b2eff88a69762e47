//! Whether edges lead from lower labels to higher ones, so that no node reaches itself.
ghost use Rattle.std.specs.Prelude.{IsTrue};
ghost use Rattle.if1_order.specs.Rising.{AllLeadOn, LeadsOn};

use if1_graph::{Edge, Origin};

fn leads_on(edge: &Edge) -> bool
    ensures { IsTrue result → LeadsOn edge.now }
{
    match &edge.from {
        Origin::Port(from, _) => edge.node == 0 || *from < edge.node,
        Origin::Lit(_) => true,
    }
}

/// Whether each edge between nodes leads to one with a greater label.
pub fn all_lead_on(edges: &[Edge]) -> bool
    ensures { IsTrue result → AllLeadOn edges.now }
{
    for edge in edges {
        if !leads_on(edge) {
            return false;
        }
    }
    true
}
