//! Links turned round.
ghost use Rattle.std.specs.Prelude.{◌≡◌, ◌<◌, [], ◌∷◌, ◌++◌, length, replicate, slice_set, All, IfOk, OnOk};
ghost use Rattle.if1_order.specs.Walks.{AreInside, feeders_of};
ghost use Rattle.if1_components.specs.Backward.{AreTurned, HasBack};

use flow_value::{NoMemory, Seq};
use if1_order::Places;
use std::alloc::Global;

fn no_links(alloc: Global, places: usize) -> Result<Vec<Places>, NoMemory>
    ensures { IfOk result (λ v. v.items ≡ replicate places []) }
{
    let mut lists = Vec::with_capacity(alloc, places)?;
    for _ in 0..places {
        lists.push(Seq::new(alloc))?;
    }
    Ok(lists)
}

fn link_one(from: usize, place: usize, lists: &mut Vec<Places>) -> Result<(), NoMemory>
    requires { from < length lists.old.items }
    ensures { OnOk result (lists.new.items ≡ slice_set lists.old.items from (feeders_of lists.old.items from ++ place ∷ [])) }
{
    lists[from].add(place)?;
    Ok(())
}

// enters a place in the lists of all these
fn link_back(from: &[usize], place: usize, lists: &mut Vec<Places>) -> Result<(), NoMemory>
    requires { All (λ s. s < length lists.old.items) from.now }
    ensures { OnOk result (HasBack from.now place lists.old.items lists.new.items) }
{
    for other in from {
        link_one(*other, place, lists)?;
    }
    Ok(())
}

/// For each place, those to which links lead from it. Linear in the length of the lists.
pub fn turned(alloc: Global, lists: &[Places]) -> Result<Vec<Places>, NoMemory>
    requires { AreInside lists.now }
    ensures { IfOk result (λ v. AreTurned lists.now v.items) }
{
    let mut back = no_links(alloc, lists.len())?;
    for (place, list) in lists.iter().enumerate() {
        link_back(list.as_slice(), place, &mut back)?;
    }
    Ok(back)
}
