//! The ports of simple nodes.
ghost use Rattle.std.specs.Prelude.{◌≡◌, ◌+◌, ◌&&◌};
ghost use Rattle.std.specs.List.{list_all};
ghost use Rattle.if1_graph.specs.Rows.{operand_of};
ghost use Rattle.if1_ports.specs.Outlines.{types_in};
ghost use Rattle.if1_ports.specs.Simple as spec;

use crate::fed::Fed;
use crate::outline::{Outline, arguments_in, fields_in, is_stream};
use crate::rows::Outlines;
use if1_graph::{Rest, Simple, Use, Want, operand_of, operands_of, rest_of};

/// Whether two answers are both yes.
pub fn both(one: bool, other: bool) -> bool
    ensures { result ≡ (one && other) }
{
    one && other
}

/// Whether the ports are 1 to this one, one edge into each.
pub fn has_exactly(fed: Fed, most: usize) -> bool
    ensures { result ≡ spec.exactly fed most }
{
    fed.counted && fed.count == most
}

/// Whether the ports are 1 to the sum of two numbers, one edge into each.
fn has_sum(fed: Fed, some: usize, more: usize) -> bool
    ensures { result ≡ spec.exactly fed (some + more) }
{
    fed.counted && fed.count >= some && fed.count - some == more
}

/// Whether there are at least so many ports, from 1 on.
pub fn has_at_least(fed: Fed, least: usize) -> bool
    ensures { result ≡ spec.at_least fed least }
{
    fed.counted && fed.count >= least
}

fn fits_arguments(fed: Fed, operands: usize, arguments: Option<u32>) -> bool
    ensures { result ≡ spec.fits_arguments fed operands arguments }
{
    match arguments {
        Some(count) => has_sum(fed, operands, count as usize),
        None => has_at_least(fed, operands),
    }
}

fn fits_parts(fed: Fed, outline: Outline) -> bool
    ensures { result ≡ spec.fits_parts fed outline }
{
    match outline {
        Outline::Record(fields) => has_exactly(fed, fields as usize),
        Outline::Union(tags) => fed.count == 1 && fed.greatest <= tags,
        _ => true,
    }
}

fn all_fit_parts(types: &Outlines, fed: Fed, leaving: &[u32]) -> bool
    ensures { result ≡ list_all (λ t. spec.fits_parts fed (types_in types.now t)) leaving.now }
{
    for label in leaving {
        if !fits_parts(fed, types.outline(*label)) {
            return false;
        }
    }
    true
}

fn is_built(types: &Outlines, fed: Fed, leaving: &[u32]) -> bool
    ensures { result ≡ spec.is_built (types_in types.now) fed leaving.now }
{
    (has_at_least(fed, 1) || fed.count == 1) && all_fit_parts(types, fed, leaving)
}

fn fits_fields(fed: Fed, fields: Option<u32>) -> bool
    ensures { result ≡ spec.fits_fields fed fields }
{
    match fields {
        Some(count) => u64::from(fed.greatest) <= u64::from(count) + 1,
        None => true,
    }
}

fn is_changed(fed: Fed) -> bool
    ensures { result ≡ spec.is_changed fed }
{
    fed.has_first && fed.rising && fits_fields(fed, fields_in(fed.carries))
}

fn is_filled(types: &Outlines, fed: Fed, leaving: &[u32], operands: usize, rest: Rest) -> bool
    ensures { result ≡ spec.is_filled (types_in types.now) fed leaving.now operands rest }
{
    match rest {
        Rest::Nothing => has_exactly(fed, operands),
        Rest::Mask => has_exactly(fed, operands) || has_sum(fed, operands, 1),
        Rest::More(_, _) => has_at_least(fed, operands),
        Rest::Arguments => fits_arguments(fed, operands, arguments_in(fed.callee)),
        Rest::Fields => is_built(types, fed, leaving),
        Rest::NewFields => is_changed(fed),
    }
}

fn is_named(fed: Fed, operand: Option<(Use, Want)>) -> bool
    ensures { result ≡ spec.is_named fed operand }
{
    match operand {
        Some((_, Want::Function)) | Some((_, Want::Reduction)) => fed.is_literal,
        _ => true,
    }
}

fn has_bound(types: &Outlines, fed: Fed, leaving: &[u32]) -> bool
    ensures { result ≡ spec.has_bound (types_in types.now) fed leaving.now }
{
    for label in leaving {
        if is_stream(types.outline(*label)) && !fed.is_one {
            return false;
        }
    }
    true
}

fn is_bounded(types: &Outlines, fed: Fed, leaving: &[u32], op: Simple) -> bool
    ensures { result ≡ spec.is_bounded (types_in types.now) fed leaving.now op }
{
    match op {
        Simple::ABuild | Simple::AGather => has_bound(types, fed, leaving),
        _ => true,
    }
}

/// Whether the ports of a simple node are filled as the table says (IF1 manual M-170, simple nodes), by
/// what is fed to it and by the types of the edges that leave its port 1. It has so many graphs, and so
/// many numbers in an association list, which must be none.
pub fn is_simple_filled(
    types: &Outlines,
    fed: Fed,
    leaving: &[u32],
    op: Simple,
    graphs: usize,
    numbers: usize,
) -> bool
    ensures { result ≡ spec.is_simple_filled (types_in types.now) fed leaving.now op graphs numbers }
{
    let ports = is_filled(types, fed, leaving, operands_of(op).len(), rest_of(op));
    let name = is_named(fed, operand_of(op, 1));
    let bound = is_bounded(types, fed, leaving, op);
    let row = both(ports, name);
    let node = both(row, bound);
    let simple = both(node, graphs == 0);
    both(simple, numbers == 0)
}
