//! Sizes of generators and of the nodes of clauses.
ghost use Rattle.std.specs.Prelude.{◌≡◌, ℕ, min, map};
ghost use Rattle.lowered_sizes.specs.declared.sizes.Sizes.{Sizes};
ghost use Rattle.lowered_sizes.specs.Forms.{
  first_array,
  generator_sized,
  generators_sized,
  is_limited,
  phrase_sized,
  returns_sized,
  types_of,
};
ghost use Rattle.lowering.specs.Choices.{is_array};
ghost use Rattle.tree_sizes.specs.Capped.{Keeps, KeepsSizes};
ghost use Rattle.tree_sizes.specs.Clauses.{clause_sized};

use crate::leaves::{fold, span};
use crate::sums::{beside, node, only, smaller};
use flow_value::item_at;
use lowered_sizes::Sizes;
use type_table::{Form, Types};
use typed_tree::{ClauseForm, Product, Source, TypedExpr};

/// A node for a generator.
fn generator(source: Source) -> Sizes
    ensures { KeepsSizes result (generator_sized source) }
{
    match source {
        Source::Range => node(2, 1),
        Source::Elements => node(1, 1),
        Source::Indexed => node(1, 2),
    }
}

/// How much generators become, one behind another.
fn generators(sources: &[Source]) -> Sizes
    ensures { KeepsSizes result (generators_sized sources.now) }
{
    let mut all = only(0);
    let mut at = sources.len();
    while at > 0 {
        at -= 1;
        all = beside(generator(sources[at]), all);
    }
    all
}

/// How much the generators of a `for` become.
pub fn inputs(form: &Product) -> Sizes
    ensures { (s : Sizes) → s ≡ generators_sized form.now.sources → KeepsSizes result s }
{
    generators(form.sources.as_slice())
}

/// A node for a clause, of which so many multiples are left, and so many types.
fn clause(is_limit: bool, form: ClauseForm, multiples: u128, types: u128) -> Sizes
    ensures { (m k : ℕ) → min 2 multiples ≡ min 2 m → min 1 types ≡ min 1 k → KeepsSizes result (clause_sized is_limit form m k) }
{
    if types == 0 {
        return only(0);
    }
    fold(
        is_limit,
        form.folding,
        smaller(span(form.masking), multiples),
    )
}

/// A node for each clause that has a type, on so many multiples.
pub fn returns(is_limit: bool, clauses: &[ClauseForm], multiples: u128, types: u128) -> Sizes
    ensures { (m k : ℕ) → Keeps multiples m → Keeps types k → KeepsSizes result (returns_sized is_limit clauses.now m k) }
{
    let mut all = only(0);
    let mut left = multiples;
    let mut others = types;
    for form in clauses {
        all = beside(all, clause(is_limit, *form, left, others));
        left = left.saturating_sub(span(form.masking));
        others = others.saturating_sub(1);
    }
    all
}

/// Whether a type is an array.
fn is_array(types: &Types, ty: usize) -> bool
    ensures { result ≡ is_array types.now ty }
{
    matches!(types.form(ty), Some(Form::Array(_)))
}

/// Whether the first of the values of some expressions is an array.
fn is_first_array(types: &Types, parts: &[TypedExpr]) -> bool
    ensures { result ≡ first_array types.now (types_of (map (phrase_sized types.now) parts.now)) }
{
    for e in parts {
        if let Some(ty) = item_at(e.types.as_slice(), 0) {
            return is_array(types, *ty);
        }
    }
    false
}

/// Whether the lower bound of an `array of` is that of an array.
pub fn is_limited(types: &Types, sources: &[Source], bounds: &[TypedExpr]) -> bool
    ensures { result ≡ is_limited types.now sources.now (types_of (map (phrase_sized types.now) bounds.now)) }
{
    match item_at(sources, 0) {
        None | Some(Source::Range) => false,
        Some(_) => is_first_array(types, bounds),
    }
}
