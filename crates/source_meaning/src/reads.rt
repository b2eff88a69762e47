//! What expressions do not read.
ghost use Rattle.std.specs.Prelude.{◌≡◌, ℕ, false, List, slice_set};
ghost use Rattle.flow_value.specs.declared.value.Val.{Val};
ghost use Rattle.typed_tree.specs.declared.expr.TypedExpr.{TypedExpr};
ghost use Rattle.typed_tree.specs.declared.program.Function.{Function};
ghost use Rattle.meaning.specs.Meaning.{meaning};
ghost use Rattle.source_meaning.specs.Reads.{reads};

/// An expression gives the same whatever the value is at a level that it does not read.
pub fn what_is_not_read_is_free()
    ensures { (n : ℕ) (p : List Function) (l : ℕ) (e : TypedExpr) → reads l e ≡ false → (env : List Val) (v : Val) → meaning n p e (slice_set env l v) ≡ meaning n p e env }
{}
