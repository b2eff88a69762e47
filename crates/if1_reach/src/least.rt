//! The least weight of what each place of a stretch of an order leads to.
ghost use Rattle.std.specs.Prelude.{◌≡◌, ◌<◌, ◌≤◌, ℕ, length, slice_index, All};
ghost use Rattle.if1_order.specs.Walks.{AreInside};
ghost use Rattle.if1_reach.specs.Ranks.{IsRanked};
ghost use Rattle.if1_reach.specs.Least.{AreLowered, AreLeast};

use crate::ranks::Ranks;
use flow_value::Numbers;
use if1_order::Places;

fn lower(places: &[usize], weight: u32, weights: &mut Numbers)
    requires { All (λ x. x < length weights.old) places.now }
    ensures { AreLowered places.now weight weights.old weights.new }
{
    for place in places {
        if weights.as_slice()[*place] > weight {
            weights.set(*place, weight);
        }
    }
}

/// Turns the weight of each place from one rank on and before another into the least of its own and of those of all
/// places of these ranks to which it leads. Linear in these ranks and the links into their places.
pub fn sink(lists: &[Places], ranks: &Ranks, first: usize, end: usize, weights: &mut Numbers)
    requires inside { AreInside lists.now }
    requires ranked { IsRanked lists.now ranks.now }
    requires end { end ≤ length ranks.now.order }
    requires fit { length weights.old ≡ length lists.now }
    ensures { AreLeast lists.now ranks.now.ranks first end weights.old weights.new }
{
    let mut rank = end;
    while rank > first {
        rank -= 1;
        let place = ranks.order.as_slice()[rank];
        let weight = weights.as_slice()[place];
        lower(lists[place].as_slice(), weight, weights);
    }
}
