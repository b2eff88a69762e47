//! Colors of places, which spread backwards along links.
ghost use Rattle.std.specs.Prelude.{◌≡◌, ◌≢◌, ◌<◌, [], ◌∷◌, length, slice_index, All, IfOk, OnOk};
ghost use Rattle.if1_order.specs.Walks.{AreInside};
ghost use Rattle.if1_components.specs.Colors.{Paints, IsSpread, IsCleared};

use flow_value::{NoMemory, Seq};
use if1_order::Places;
use std::alloc::Global;

fn paint(
    place: usize,
    from: usize,
    to: usize,
    colors: &mut Places,
    met: &mut Places,
) -> Result<(), NoMemory>
    requires place { place < length colors.old }
    requires apart { from ≢ to }
    ensures { OnOk result (Paints (place ∷ []) from to colors.old met.old colors.new met.new) }
{
    if colors.as_slice()[place] != from {
        return Ok(());
    }
    met.add(place)?;
    colors.set(place, to);
    Ok(())
}

fn paint_all(
    places: &[usize],
    from: usize,
    to: usize,
    colors: &mut Places,
    met: &mut Places,
) -> Result<(), NoMemory>
    requires places { All (λ x. x < length colors.old) places.now }
    requires apart { from ≢ to }
    ensures { OnOk result (Paints places.now from to colors.old met.old colors.new met.new) }
{
    for place in places {
        paint(*place, from, to, colors, met)?;
    }
    Ok(())
}

/// Gives the root and all places of its color that lead to it, by places of that color alone, another
/// color; the places that got it. Linear in the lists of these.
pub fn spread(
    alloc: Global,
    lists: &[Places],
    root: usize,
    from: usize,
    to: usize,
    colors: &mut Places,
) -> Result<Places, NoMemory>
    requires inside { AreInside lists.now }
    requires fit { length colors.old ≡ length lists.now }
    requires root { root < length lists.now }
    requires from { slice_index colors.old root ≡ from }
    requires apart { from ≢ to }
    ensures { IfOk result (IsSpread lists.now root from to colors.old colors.new) }
{
    let mut met = Seq::new(alloc);
    paint(root, from, to, colors, &mut met)?;
    let mut at = 0;
    while at < met.len() {
        let place = met.as_slice()[at];
        paint_all(lists[place].as_slice(), from, to, colors, &mut met)?;
        at += 1;
    }
    Ok(met)
}

/// Gives those of these places that have a color another one.
pub fn clear(places: &[usize], from: usize, to: usize, colors: &mut Places)
    requires places { All (λ x. x < length colors.old) places.now }
    requires apart { from ≢ to }
    ensures { IsCleared places.now from to colors.old colors.new }
{
    for place in places {
        if colors.as_slice()[*place] == from {
            colors.set(*place, to);
        }
    }
}
