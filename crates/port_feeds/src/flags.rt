//! Flags by the number of a graph and the place of an edge.
ghost use Rattle.std.specs.Prelude.{◌≡◌, false, [], slice_index_or};

use storage_flags::Flags;

fn flag_in(row: &[bool], place: usize) -> bool
    ensures { result ≡ slice_index_or row.now place false }
{
    match row.get(place) {
        Some(flag) => *flag,
        None => false,
    }
}

/// The flag of an edge of the graph of a number.
pub fn flag_at(rows: &[Flags], graph: u32, place: usize) -> bool
    ensures { result ≡ slice_index_or (slice_index_or rows.now graph []) place false }
{
    match rows.get(graph as usize) {
        Some(row) => flag_in(row.as_slice(), place),
        None => false,
    }
}
