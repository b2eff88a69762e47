//! From tokens to the tree of a unit.

ghost use Rattle.std.specs.Prelude.{◌≡◌, ◌∷◌, ◌<◌, ◌≤◌, List, [], IfOk, IfErr, length, map};
ghost use Rattle.pushdown.specs.Grammar.{Derives};
ghost use Rattle.pushdown.specs.declared.Symbol.TheVariants.{Rule};
ghost use Rattle.sisal_tree.specs.Depth.{depth_of};
ghost use Rattle.sisal_grammar.specs.Classes.{class_of};
ghost use Rattle.sisal_grammar.specs.Language.{language};
ghost use Rattle.sisal_grammar.specs.Phrases.{unit};
ghost use Rattle.sisal_grammar.specs.Placed.{placed};
ghost use Rattle.sisal_grammar.specs.Spells.{Spells};
ghost use Rattle.sisal_parse.specs.Faults.{DepthFault, SyntaxFault};
ghost use Rattle.sisal_parse.specs.Units.{outline};

use crate::fault::ParseFault;
use crate::steps::steps_of;
use pushdown::Step;
use sisal_build::outline_of;
use sisal_depth::depth_of;
use sisal_grammar::Outline;
use sisal_lex::{Token, Tokens};
use sisal_tree::Unit;
use std::alloc::Global;

/// The greatest depth of an expression.
const MOST_DEPTH: u16 = 200;

/// The unit that the tokens of a text are (SISAL Language Reference Manual 1.2, syntax). Takes time
/// and memory in proportion to the number of tokens, and no stack of calls that grows with the text,
/// however deep it nests: what decides between the faults works on lists. No tokens are two units
/// (`sisal_grammar::one_unit`).
pub fn parse(alloc: Global, tokens: Tokens) -> Result<Unit, ParseFault>
    requires few { length tokens.list < 4294967295 }
    ensures same { IfOk result (λ u. u.tokens ≡ tokens) }
    ensures spelled { IfOk result (λ u. Spells unit (placed 0 tokens.list) (outline u)) }
    ensures shallow { IfOk result (λ u. depth_of u.items ≤ 200) }
    ensures syntax { IfErr result (λ e. SyntaxFault tokens.list e) }
    ensures too_deep { IfErr result (λ e. DepthFault tokens.list e) }
{
    let list = tokens.list.as_slice();
    let steps = steps_of(alloc, list)?;
    let outline = outline_within(alloc, &steps, list)?;
    let Outline { defines, items } = outline;
    Ok(Unit {
        tokens,
        defines,
        items,
    })
}

/// The unit of a derivation, if it is not too deep.
fn outline_within(alloc: Global, steps: &[Step], tokens: &[Token]) -> Result<Outline, ParseFault>
    requires derived { Derives
        language
        (Rule 0 ∷ [])
        (map class_of (map (λ t. t.kind) tokens.now))
        steps.now }
    requires few { length tokens.now < 4294967295 }
    ensures spelled { IfOk result (λ o. Spells unit (placed 0 tokens.now) o) }
    ensures shallow { IfOk result (λ o. depth_of o.items ≤ 200) }
    ensures syntax { IfErr result (λ e. SyntaxFault tokens.now e) }
    ensures too_deep { IfErr result (λ e. DepthFault tokens.now e) }
{
    let deepest = depth_of(alloc, steps, tokens)?;
    if deepest.depth > MOST_DEPTH {
        return Err(ParseFault::TooDeep(deepest.line));
    }
    let outline = outline_of(alloc, steps, tokens)?;
    Ok(outline)
}
