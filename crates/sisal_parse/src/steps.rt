//! From tokens to the steps of their derivation.

ghost use Rattle.std.specs.Prelude.{◌≡◌, ◌∷◌, ◌<◌, ◌≤◌, List, [], IfOk, IfErr, length, map, get_or};
ghost use Rattle.pushdown.specs.Grammar.{Derives};
ghost use Rattle.pushdown.specs.declared.Symbol.TheVariants.{Rule};
ghost use Rattle.sisal_grammar.specs.Classes.{class_of};
ghost use Rattle.sisal_grammar.specs.Language.{language};
ghost use Rattle.sisal_parse.specs.Faults.{DepthFault, IsFirstBad, SyntaxFault, line_at};

use crate::fault::ParseFault;
use pushdown::{Refusal, Step, derive};
use sisal_build::classes_of;
use sisal_grammar::tables;
use sisal_lex::Token;
use std::alloc::Global;

/// The steps by which the grammar derives the tokens, or the first token at which no unit goes on.
pub fn steps_of(alloc: Global, tokens: &[Token]) -> Result<Vec<Step>, ParseFault>
    requires few { length tokens.now < 4294967295 }
    ensures derived { IfOk result (λ s. Derives
        language
        (Rule 0 ∷ [])
        (map class_of (map (λ t. t.kind) tokens.now))
        s.items) }
    ensures syntax { IfErr result (λ e. SyntaxFault tokens.now e) }
    ensures not_deep { IfErr result (λ e. DepthFault tokens.now e) }
{
    let classes = classes_of(alloc, tokens)?;
    let tables = tables();
    match derive(alloc, &tables, &classes) {
        Ok(steps) => Ok(steps),
        Err(Refusal::Syntax(place)) => Err(ParseFault::Syntax {
            token: place as u32 + 1,
            line: line_of(tokens, place),
        }),
        Err(Refusal::NoMemory) => Err(ParseFault::NoMemory),
    }
}

/// The line of the token at a place, or of the last one where it is past the end, or 1 where there is
/// no token.
fn line_of(tokens: &[Token], place: usize) -> u32
    ensures { result ≡ line_at place tokens.now }
{
    if tokens.is_empty() {
        return 1;
    }
    tokens[place.min(tokens.len() - 1)].line
}
