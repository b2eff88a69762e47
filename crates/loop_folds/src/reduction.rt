//! What a reduction is.
ghost use Rattle.std.specs.Prelude.{◌≡◌, ℕ, Bool, IsTrue, IsErr, ◌+◌, ◌^◌, ◌<◌, List, [], ◌∷◌, ◌++◌, OnOk, IfErr};
ghost use Rattle.flow_value.specs.declared.value.Val.{Val};
ghost use Rattle.loop_folds.specs.Laws.{JoinLaws};

use flow_value::Val;
use std::alloc::Global;

/// What was collected of a list of elements, which grows at its end. A reduction need not keep
/// the elements. Since each clause speaks of every list that the reduction stands for, a list
/// that is cut into parts, which are collected apart and joined in order, gives the same value.
pub trait Reduction: Sized {
    // The number of elements.
    ghost count: { Self → ℕ };

    // That it stands for the list.
    ghost stands: { Self → List Val → Type 0 };

    // The value of a list.
    ghost value: { List Val → Val };

    // The reduction of no elements.
    ghost empty: { Self };

    // The reduction of the elements of two, in order.
    ghost joined: { Self → Self → Self };

    // Whether want of memory can refuse an element.
    ghost refusable: { Bool };

    /// The reduction of no elements; takes no memory.
    fn unit(alloc: Global) -> Self
        ensures stands { stands result [] }
        ensures counted { count result ≡ 0 }
        ensures same { result ≡ empty };

    /// Adds one element at the end. On want of memory the element comes back, and the reduction
    /// is as it was.
    fn put(&mut self, v: Val) -> Result<(), Val>
        requires { count self.old + 1 < 2 ^ 64 }
        ensures added { OnOk result ((xs : List Val) → stands self.old xs → stands self.new (xs ++ v ∷ [])) }
        ensures counted { OnOk result (count self.new ≡ count self.old + 1) }
        ensures refused { IfErr result (λ back. (back ≡ v) × (self.new ≡ self.old)) }
        ensures refused_if_refusable { IsErr result → IsTrue refusable };

    /// Adds the elements of `later` at the end. On want of memory `later` comes back, and the
    /// reduction is as it was.
    fn join(&mut self, later: Self) -> Result<(), Self>
        requires { count self.old + count later < 2 ^ 64 }
        ensures added { OnOk result ((xs : List Val) (ys : List Val) → stands self.old xs → stands later ys → stands self.new (xs ++ ys)) }
        ensures counted { OnOk result (count self.new ≡ count self.old + count later) }
        ensures same { OnOk result (self.new ≡ joined self.old later) }
        ensures refused { IfErr result (λ back. (back ≡ later) × (self.new ≡ self.old)) }
        ensures refused_if_refusable { IsErr result → IsTrue refusable };

    /// The value of the list, which takes no memory.
    fn done(self) -> Val
        ensures { (xs : List Val) → stands self xs → result ≡ value xs };

    // That each list has one reduction, that joining the empty one on either side changes
    // nothing, and that joining is associative.
    ghost laws: { JoinLaws stands empty joined };
}
