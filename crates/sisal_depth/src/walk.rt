//! From the steps of a derivation to the depth of its unit.

ghost use Rattle.std.specs.Prelude.{◌≡◌, ◌∷◌, ◌<◌, List, [], min, IfOk, Some, length, map, drop, take, slice_index_or};
ghost use Rattle.pushdown.specs.Grammar.{Derives};
ghost use Rattle.pushdown.specs.Meaning.{reads, run};
ghost use Rattle.pushdown.specs.declared.Symbol.TheVariants.{Rule};
ghost use Rattle.sisal_tree.specs.Depth.{PassesAt, depth_of};
ghost use Rattle.sisal_grammar.specs.declared.value.Outline.{Outline};
ghost use Rattle.sisal_grammar.specs.Acts.{sisal};
ghost use Rattle.sisal_grammar.specs.Plan.{plan};
ghost use Rattle.sisal_grammar.specs.Classes.{class_of};
ghost use Rattle.sisal_grammar.specs.Language.{language};
ghost use Rattle.sisal_grammar.specs.Placed.{placed};
ghost use Rattle.sisal_depth.specs.Sizes.{no_token, sizes_of, token_size};

use crate::sizes::{Growth, Sizes, counted};
use crate::step::{arity, grow};
use flow_value::NoMemory;
use pushdown::Step;
use sisal_grammar::{Value, action_of};
use sisal_lex::Token;
use std::alloc::Global;

/// The depth of a unit.
#[derive(Clone, Copy)]
pub struct Deepest {
    /// The depth of the deepest result of its functions, counted up to 201.
    pub depth: u16,
    /// The line on which a deepest result begins; of no meaning where there is no result.
    pub line: u32,
}

/// The depth of the unit whose derivation these steps are, and where it is deepest. Takes time and
/// memory in proportion to the number of steps, however deep the unit nests, and makes no tree.
pub fn depth_of(alloc: Global, steps: &[Step], tokens: &[Token]) -> Result<Deepest, NoMemory>
    requires { Derives
        language
        (Rule 0 ∷ [])
        (map class_of (map (λ t. t.kind) tokens.now))
        steps.now }
    ensures depth { IfOk result (λ d. (o : Outline)
        → run sisal plan steps.now (placed 0 tokens.now) ≡ Some (Value.AnOutline o ∷ [])
        → d.depth ≡ min (depth_of o.items) 201) }
    ensures line { IfOk result (λ d. (o : Outline)
        → run sisal plan steps.now (placed 0 tokens.now) ≡ Some (Value.AnOutline o ∷ [])
        → 200 < d.depth → PassesAt 200 o.items d.line) }
{
    let sizes = sizes_in(alloc, steps, tokens)?;
    let unit = sizes.part(0, 1);
    Ok(Deepest {
        depth: unit.least,
        line: unit.line,
    })
}

/// The sizes of the values of a derivation's steps.
fn sizes_in(alloc: Global, steps: &[Step], tokens: &[Token]) -> Result<Sizes, NoMemory>
    requires { reads steps.now ≡ length tokens.now }
    ensures { IfOk result (λ z. z ≡ sizes_of steps.now tokens.now) }
{
    let mut sizes = Sizes::new(alloc);
    let mut left = tokens.len();
    let mut k = steps.len();
    while k > 0 {
        k -= 1;
        match steps[k] {
            Step::Read => {
                left -= 1;
                sizes.push(token_at(tokens, left))?;
            }
            Step::Open(production) => {
                let action = action_of(production);
                let size = grow(&sizes, action);
                sizes.skip(arity(action));
                sizes.push(size)?;
            }
        }
    }
    Ok(sizes)
}

/// The size of the token at a place.
fn token_at(tokens: &[Token], place: usize) -> Growth
    requires { place < length tokens.now }
    ensures { result ≡ token_size (slice_index_or tokens.now place no_token) }
{
    counted(0, 0, 0, tokens[place].line)
}
