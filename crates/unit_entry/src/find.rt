//! The function with which a run begins.
ghost use Rattle.std.specs.Prelude.{◌≡◌};
ghost use Rattle.std.specs.Str.{str_eq_ignore_ascii_case};
ghost use Rattle.unit_entry.specs.Entries.{entry_of, is_called};

use if1_graph::{Graph, Unit1};

/// Whether two names are the same, in small or capital letters.
fn is_same(one: &[u8], other: &[u8]) -> bool
    ensures { result ≡ str_eq_ignore_ascii_case one.now other.now }
{
    one.eq_ignore_ascii_case(other)
}

fn is_called(graph: &Graph, word: &[u8]) -> bool
    ensures { result ≡ is_called word.now graph.now }
{
    graph.exported && is_same(graph.name.as_slice(), word)
}

/// The number of the first exported function of a name, whose capital letters count as small ones.
pub fn entry(unit: &Unit1, word: &[u8]) -> Option<u32>
    ensures { result ≡ entry_of unit.now word.now }
{
    for graph in unit.graphs.as_slice() {
        if is_called(graph, word) {
            return Some(graph.number);
        }
    }
    None
}
