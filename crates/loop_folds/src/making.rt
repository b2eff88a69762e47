//! What is kept of the values of a clause.
ghost use Rattle.std.specs.Prelude.{◌≡◌, ℕ, ◌+◌, ◌<◌, ◌^◌, List, [], ◌∷◌, ◌++◌, OnOk, OnErr, None, if◌then◌else◌, is_ok};
ghost use Rattle.flow_value.specs.declared.value.Val.{Val};
ghost use Rattle.loop_folds.specs.Kept.{kept};
ghost use Rattle.loop_folds.specs.CatenateState.{state_of};
ghost use Rattle.loop_folds.specs.Clauses.{gathered, streams_fold};
ghost use Rattle.loop_folds.specs.Makings.{folding_of, none_of, Stands, counted};

use crate::folding::Folding;
use crate::{Catenate, Greatest, Last, Least, Product, Reduction, Sum};
use flow_value::{Items, MOST_ELEMENTS, NoMemory, Val, array_of, stream_of};
use std::alloc::Global;

/// How many elements are kept at most: one past the limit, where the value is an error whatever
/// follows.
const MOST_KEPT: usize = MOST_ELEMENTS + 1;

/// What is kept of the values of a clause, by what it makes of them.
#[derive(Drop)]
pub enum Making {
    Array(Items),
    Stream(Items),
    Last(Last),
    Sum(Sum),
    Product(Product),
    Least(Least),
    Greatest(Greatest),
    CatenateArrays(Catenate),
    /// The empty stream while there is no value, and the values.
    CatenateStreams(Option<Items>, Catenate),
}

impl Making {
    /// No values; takes no memory.
    pub fn nothing(alloc: Global, folding: Folding) -> Making
        ensures folding { folding_of result ≡ folding }
        ensures none { Stands result [] }
    {
        match folding {
            Folding::Array => Making::Array(Items::new(alloc)),
            Folding::Stream => Making::Stream(Items::new(alloc)),
            Folding::Last => Making::Last(Last::unit(alloc)),
            Folding::Sum => Making::Sum(Sum::unit(alloc)),
            Folding::Product => Making::Product(Product::unit(alloc)),
            Folding::Least => Making::Least(Least::unit(alloc)),
            Folding::Greatest => Making::Greatest(Greatest::unit(alloc)),
            Folding::CatenateArrays => Making::CatenateArrays(Catenate::unit(alloc)),
            Folding::CatenateStreams => {
                Making::CatenateStreams(Some(Items::new(alloc)), Catenate::unit(alloc))
            }
        }
    }

    /// Adds a value at the end. On want of memory all is as it was.
    pub fn put(&mut self, v: Val) -> Result<(), NoMemory>
        requires { counted self.old + 1 < 2 ^ 64 }
        ensures added { OnOk result ((vs : List Val) → Stands self.old vs → Stands self.new (vs ++ v ∷ [])) }
        ensures folding { folding_of self.new ≡ folding_of self.old }
        ensures refused { OnErr result (self.new ≡ self.old) }
    {
        match self {
            Making::Array(items) => keep_item(items, v),
            Making::Stream(items) => keep_item(items, v),
            Making::Last(last) => put_at_end(last, v),
            Making::Sum(sum) => put_at_end(sum, v),
            Making::Product(product) => put_at_end(product, v),
            Making::Least(least) => put_at_end(least, v),
            Making::Greatest(greatest) => put_at_end(greatest, v),
            Making::CatenateArrays(arrays) => put_at_end(arrays, v),
            Making::CatenateStreams(none, streams) => put_stream(none, streams, v),
        }
    }

    /// What is made of the values, arrays from a lower bound; takes no memory.
    pub fn value(self, lower: i64) -> Val
        ensures { (vs : List Val) → Stands self vs → result ≡ gathered (folding_of self) lower vs }
    {
        match self {
            Making::Array(items) => array_of(lower, items),
            Making::Stream(items) => stream_of(items),
            Making::Last(last) => last.done(),
            Making::Sum(sum) => sum.done(),
            Making::Product(product) => product.done(),
            Making::Least(least) => least.done(),
            Making::Greatest(greatest) => greatest.done(),
            Making::CatenateArrays(arrays) => arrays.done(),
            Making::CatenateStreams(none, streams) => streams_value(none, streams),
        }
    }
}

/// Adds an element, as far as elements are kept. On want of memory the list is as it was.
fn keep_item(items: &mut Items, v: Val) -> Result<(), NoMemory>
    ensures added { OnOk result ((vs : List Val) → items.old ≡ kept vs → items.new ≡ kept (vs ++ v ∷ [])) }
    ensures refused { OnErr result (items.new ≡ items.old) }
{
    items.add(v)?;
    items.truncate(MOST_KEPT);
    Ok(())
}

/// Adds a value at the end of a reduction. On want of memory it is as it was.
fn put_at_end<R: Reduction>(reduction: &mut R, v: Val) -> Result<(), NoMemory>
    requires { R.count reduction.old + 1 < 2 ^ 64 }
    ensures added { OnOk result ((vs : List Val) → R.stands reduction.old vs → R.stands reduction.new (vs ++ v ∷ [])) }
    ensures refused { OnErr result (reduction.new ≡ reduction.old) }
{
    match reduction.put(v) {
        Ok(()) => Ok(()),
        Err(_) => Err(NoMemory),
    }
}

/// Adds a stream at the end. On want of memory all is as it was.
fn put_stream(none: &mut Option<Items>, streams: &mut Catenate, v: Val) -> Result<(), NoMemory>
    requires { streams.old.seen.count + 1 < 2 ^ 64 }
    ensures added { OnOk result ((vs : List Val) → streams.old ≡ state_of vs → streams.new ≡ state_of (vs ++ v ∷ [])) }
    ensures none { none.new ≡ (if is_ok result then None else none.old) }
    ensures refused { OnErr result (streams.new ≡ streams.old) }
{
    put_at_end(streams, v)?;
    *none = None;
    Ok(())
}

fn streams_value(none: Option<Items>, streams: Catenate) -> Val
    ensures { (vs : List Val) → none ≡ none_of vs → streams ≡ state_of vs → result ≡ streams_fold vs }
{
    match none {
        Some(items) => stream_of(items),
        None => streams.done(),
    }
}
