//! A walk backwards along edges: from a place to those for which it waits, with the way in a list.
ghost use Rattle.std.specs.Prelude.{◌≡◌, ◌+◌, ◌<◌, ◌≤◌, ◌∷◌, ◌++◌, [], length, replicate, slice_index, slice_index_or, MatchOption, IfOk, OnOk, Contains};
ghost use Rattle.if1_order.specs.declared.walk.Mark.TheVariants.{Fresh};
ghost use Rattle.if1_order.specs.Walks.{AreInside, Sorts, IsWalkTo, Moves, Leads, Visits, mark_of, feeders_of};

use flow_value::{NoMemory, Seq};
use std::alloc::Global;

/// Places of nodes in a list of labels.
pub type Places = Seq<usize>;

/// How far the walk is with a place.
#[derive(Clone, Copy, PartialEq, Eq)]
pub enum Mark {
    /// It was not met.
    Fresh,
    /// It is on the path.
    Open,
    /// It is in the order.
    Done,
}

/// What the walk has so far.
#[derive(Drop)]
pub struct Walk {
    /// The mark of each place.
    pub marks: Seq<Mark>,
    /// How many of a place's feeders are known to be in the order.
    pub seen: Places,
    /// The way from where the walk began to the place before the one where it is.
    pub path: Places,
    /// The order so far.
    pub order: Places,
}

/// Where a step leads.
pub enum Move {
    /// To this place.
    To(usize),
    /// To this place once more, from itself.
    Around(usize),
    /// Back out of the place where the walk began.
    End,
}

/// What the walk finds.
#[derive(Drop)]
pub enum Sorted {
    /// Each place once, after those for which it waits.
    InOrder(Places),
    /// A place that waits for itself.
    OnCircle(usize),
}

fn marks(alloc: Global, places: usize) -> Result<Seq<Mark>, NoMemory>
    ensures { IfOk result (λ m. m ≡ replicate places Fresh) }
{
    let mut marks = Seq::with_room(alloc, places)?;
    for _ in 0..places {
        marks.add(Mark::Fresh)?;
    }
    Ok(marks)
}

fn zeros(alloc: Global, places: usize) -> Result<Places, NoMemory>
    ensures { IfOk result (λ m. m ≡ replicate places 0) }
{
    let mut zeros = Seq::with_room(alloc, places)?;
    for _ in 0..places {
        zeros.add(0)?;
    }
    Ok(zeros)
}

fn begun(alloc: Global, lists: &[Places]) -> Result<Walk, NoMemory>
    ensures { IfOk result (λ w. IsWalkTo lists.now w [] × (w.path ≡ [])) }
{
    Ok(Walk {
        marks: marks(alloc, lists.len())?,
        seen: zeros(alloc, lists.len())?,
        path: Seq::new(alloc),
        order: Seq::new(alloc),
    })
}

// all that the place waits for is in the order, so the place goes there too
fn leave(lists: &[Places], walk: &mut Walk, at: usize) -> Result<Move, NoMemory>
    requires walk { IsWalkTo lists.now walk.old (walk.old.path ++ at ∷ []) }
    requires all { length (feeders_of lists.now at) ≤ slice_index walk.old.seen at }
    ensures { IfOk result (Moves lists.now walk.old walk.new at) }
{
    walk.order.add(at)?;
    walk.marks.set(at, Mark::Done);
    match walk.path.pop() {
        Some(next) => Ok(Move::To(next)),
        None => Ok(Move::End),
    }
}

fn mark_at(walk: &Walk, place: usize) -> Mark
    requires { place < length walk.now.marks }
    ensures { result ≡ mark_of walk.now.marks place }
{
    walk.marks.as_slice()[place]
}

// to the next feeder, by its mark; `count` is how many are then seen
fn pass(
    lists: &[Places],
    walk: &mut Walk,
    at: usize,
    feeder: usize,
    count: usize,
) -> Result<Move, NoMemory>
    requires walk { IsWalkTo lists.now walk.old (walk.old.path ++ at ∷ []) }
    requires more { slice_index walk.old.seen at < length (feeders_of lists.now at) }
    requires feeder { feeder ≡ slice_index (feeders_of lists.now at) (slice_index walk.old.seen at) }
    requires count { count ≡ slice_index walk.old.seen at + 1 }
    requires inside { AreInside lists.now }
    ensures { IfOk result (Moves lists.now walk.old walk.new at) }
{
    match mark_at(walk, feeder) {
        Mark::Open => Ok(Move::Around(feeder)),
        Mark::Done => {
            walk.seen.set(at, count);
            Ok(Move::To(at))
        }
        Mark::Fresh => {
            walk.path.add(at)?;
            walk.marks.set(feeder, Mark::Open);
            Ok(Move::To(feeder))
        }
    }
}

fn take_step(lists: &[Places], walk: &mut Walk, at: usize) -> Result<Move, NoMemory>
    requires walk { IsWalkTo lists.now walk.old (walk.old.path ++ at ∷ []) }
    requires inside { AreInside lists.now }
    ensures { IfOk result (Moves lists.now walk.old walk.new at) }
{
    let seen = walk.seen.as_slice()[at];
    let feeders = lists[at].as_slice();
    if seen < feeders.len() {
        pass(lists, walk, at, feeders[seen], seen + 1)
    } else {
        leave(lists, walk, at)
    }
}

// from a place that was not met until all that it waits for, at any distance, is in the order
fn visit(lists: &[Places], walk: &mut Walk, root: usize) -> Result<Option<usize>, NoMemory>
    requires walk { IsWalkTo lists.now walk.old [] }
    requires path { walk.old.path ≡ [] }
    requires fresh { mark_of walk.old.marks root ≡ Fresh }
    requires root { root < length lists.now }
    requires inside { AreInside lists.now }
    ensures { IfOk result (λ r. MatchOption r (Visits lists.now walk.old walk.new root) (λ s. (s < length lists.now) × Leads lists.now s s)) }
{
    walk.marks.set(root, Mark::Open);
    let mut at = root;
    loop {
        match take_step(lists, walk, at)? {
            Move::To(next) => at = next,
            Move::Around(place) => return Ok(Some(place)),
            Move::End => return Ok(None),
        }
    }
}

fn enter(lists: &[Places], walk: &mut Walk, root: usize) -> Result<Option<usize>, NoMemory>
    requires walk { IsWalkTo lists.now walk.old [] }
    requires path { walk.old.path ≡ [] }
    requires root { root < length lists.now }
    requires inside { AreInside lists.now }
    ensures { IfOk result (λ r. MatchOption r (Visits lists.now walk.old walk.new root) (λ s. (s < length lists.now) × Leads lists.now s s)) }
{
    match mark_at(walk, root) {
        Mark::Fresh => visit(lists, walk, root),
        Mark::Open => Ok(None),
        Mark::Done => Ok(None),
    }
}

/// The places, each after those for which it waits, or one that waits for itself in one or more
/// steps. Linear in the length of the lists.
pub fn sort(alloc: Global, lists: &[Places]) -> Result<Sorted, NoMemory>
    requires { AreInside lists.now }
    ensures { IfOk result (Sorts lists.now) }
{
    let mut walk = begun(alloc, lists)?;
    for root in 0..lists.len() {
        if let Some(place) = enter(lists, &mut walk, root)? {
            return Ok(Sorted::OnCircle(place));
        }
    }
    Ok(Sorted::InOrder(walk.order))
}
