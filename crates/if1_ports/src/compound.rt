//! The ports of compound nodes.
ghost use Rattle.std.specs.Prelude.{◌≡◌, ◌&&◌, nat_lt, length};
ghost use Rattle.std.specs.List.{list_all};
ghost use Rattle.if1_graph.specs.Ports.{least_width};
ghost use Rattle.if1_ports.specs.Counts.{are_counted};
ghost use Rattle.if1_ports.specs.Compound as spec;

use crate::fed::Fed;
use crate::outline::tags_in;
use crate::simple::has_at_least;
use if1_graph::{Compound, has_parts};

fn least_width(compound: Compound) -> usize
    ensures { result ≡ least_width compound }
{
    match compound {
        Compound::TagCase => 1,
        _ => 0,
    }
}

fn are_below(list: &[u32], bound: usize) -> bool
    ensures { result ≡ list_all (λ arm. nat_lt arm bound) list.now }
{
    for arm in list {
        if *arm as usize >= bound {
            return false;
        }
    }
    true
}

/// Whether the numbers are 0, 1, .., one after another.
fn are_counted(list: &[u32]) -> bool
    ensures { result ≡ are_counted 0 list.now }
{
    let mut count: usize = 0;
    for arm in list {
        if *arm as usize != count {
            return false;
        }
        count += 1;
    }
    true
}

fn fits_tags(tags: Option<u32>, list: &[u32]) -> bool
    ensures { result ≡ spec.fits_tags tags list.now }
{
    match tags {
        Some(count) => list.len() == count as usize,
        None => true,
    }
}

fn is_associated(compound: Compound, tags: Option<u32>, graphs: usize, list: &[u32]) -> bool
    ensures { result ≡ spec.is_associated compound tags graphs list.now }
{
    match compound {
        Compound::TagCase => are_below(list, graphs) && fits_tags(tags, list),
        _ => are_counted(list) && list.len() == graphs,
    }
}

/// Whether a compound node has as many graphs as it must, its ports are filled from 1 on, and its
/// association list gives the arm of each tag (IF1 manual M-170, compound nodes).
#[tactic(auto, using(crate::proofs::CompoundNodes::parts_as))]
pub fn is_compound_filled(fed: Fed, compound: Compound, graphs: usize, list: &[u32]) -> bool
    ensures { result ≡ spec.is_compound_filled fed compound graphs list.now }
{
    has_parts(compound, graphs)
        && has_at_least(fed, least_width(compound))
        && is_associated(compound, tags_in(fed.carries), graphs, list)
}
