//! From the steps of a derivation to its unit.

ghost use Rattle.std.specs.Prelude.{◌≡◌, ◌∷◌, List, [], ◌<◌, IfOk, Some, length, map, slice_index_or};
ghost use Rattle.pushdown.specs.Grammar.{Derives};
ghost use Rattle.pushdown.specs.Meaning.{run};
ghost use Rattle.pushdown.specs.declared.Symbol.TheVariants.{Rule};
ghost use Rattle.sisal_grammar.specs.Acts.{sisal};
ghost use Rattle.sisal_grammar.specs.Classes.{class_of};
ghost use Rattle.sisal_grammar.specs.Language.{language};
ghost use Rattle.sisal_grammar.specs.Placed.{placed};
ghost use Rattle.sisal_grammar.specs.Plan.{plan};
ghost use Rattle.sisal_build.specs.Nowhere.{nowhere};

use crate::performing::perform;
use flow_value::{NoMemory, Seq};
use parse_stack::Values;
use pushdown::Step;
use sisal_grammar::{Outline, Placed, Value, action_of, class_of};
use sisal_lex::{Kind, Token};
use std::alloc::Global;

/// The unit whose derivation these steps are: they are taken from the last to the first, so that the
/// values of a production's symbols lie on top of a stack when its turn comes. Takes time and memory
/// in proportion to the number of steps, and no stack of calls.
pub fn outline_of(alloc: Global, steps: &[Step], tokens: &[Token]) -> Result<Outline, NoMemory>
    requires derived { Derives
        language
        (Rule 0 ∷ [])
        (map class_of (map (λ t. t.kind) tokens.now))
        steps.now }
    requires few { length tokens.now < 4294967295 }
    ensures { IfOk result (λ o.
        run sisal plan steps.now (placed 0 tokens.now) ≡ Some (Value.AnOutline o ∷ [])) }
{
    let mut values = values_of(alloc, steps, tokens)?;
    Ok(values.take_outline())
}

/// The values of the steps of a derivation of the tokens, taken from the last to the first.
fn values_of(alloc: Global, steps: &[Step], tokens: &[Token]) -> Result<Values, NoMemory>
    requires derived { Derives
        language
        (Rule 0 ∷ [])
        (map class_of (map (λ t. t.kind) tokens.now))
        steps.now }
    requires few { length tokens.now < 4294967295 }
    ensures { IfOk result (λ w. run sisal plan steps.now (placed 0 tokens.now) ≡ Some w) }
{
    let mut values = Values::new(alloc);
    let mut left = tokens.len();
    let mut k = steps.len();
    while k > 0 {
        k -= 1;
        match steps[k] {
            Step::Read => {
                left -= 1;
                let token = token_at(alloc, tokens, left)?;
                values.push(Value::AToken(token))?;
            }
            Step::Open(production) => perform(&mut values, alloc, action_of(production))?,
        }
    }
    Ok(values)
}

/// The token at a place, with its place.
fn token_at(alloc: Global, tokens: &[Token], place: usize) -> Result<Placed, NoMemory>
    requires there { place < length tokens.now }
    requires few { length tokens.now < 4294967295 }
    ensures { IfOk result (λ t. t ≡ slice_index_or (placed 0 tokens.now) place nowhere) }
{
    let token = &tokens[place];
    let kind = copy_of(alloc, &token.kind)?;
    Ok(Placed {
        place: place as u32,
        kind,
        line: token.line,
    })
}

/// A copy of what a token is.
fn copy_of(alloc: Global, kind: &Kind) -> Result<Kind, NoMemory>
    ensures { IfOk result (λ k. k ≡ kind.now) }
{
    Ok(match kind {
        Kind::Word(word) => Kind::Word(*word),
        Kind::Sign(sign) => Kind::Sign(*sign),
        Kind::Id(name) => Kind::Id(*name),
        Kind::Number(number) => Kind::Number(*number),
        Kind::Letter(code) => Kind::Letter(*code),
        Kind::Quoted(text) => Kind::Quoted(Seq::from_slice(alloc, text.as_slice())?),
    })
}

/// The classes of tokens.
pub fn classes_of(alloc: Global, tokens: &[Token]) -> Result<Vec<u8>, NoMemory>
    ensures { IfOk result (λ v. v.items ≡ map (λ t. class_of t.kind) tokens.now) }
{
    let classes = tokens
        .iter()
        .map(|token| class_of(&token.kind))
        .collect(alloc)?;
    Ok(classes)
}
