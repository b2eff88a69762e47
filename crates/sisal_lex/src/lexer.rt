//! The whole text, from left to right.
ghost use Rattle.std.specs.Prelude.{◌≡◌, ◌≤◌, ◌<◌, ◌-◌, ◌^◌, ◌⊎◌, ◌++◌, ◌∷◌, [], length, Ok, Err, IfOk, IfErr, OnOk};
ghost use Rattle.sisal_lex.specs.Names.{kind_in, used_by};
ghost use Rattle.sisal_lex.specs.Tokens.{line_after, tokens_of};
ghost use Rattle.sisal_lex.specs.Sound.{AreSound, AreFolded};
ghost use Rattle.sisal_lex.specs.Heads.{bytes_after, tokens_in, used_at, IsNoFault};

use crate::fault::LexFault;
use crate::head::{Head, Lexeme, head_of};
use crate::names::{Names, kind_of};
use crate::token::{Token, Tokens};
use flow_value::{NoMemory, Seq};
use std::alloc::Global;

const LONGEST: usize = 4194304;

/// The tokens of a SISAL text, each as long as it can be, and its names, each once in the order
/// of first use (SISAL Language Reference Manual 1.2, lexical elements). A text of more than
/// 4,194,304 bytes is too long; of other faults the first in the text is named, with its line.
pub fn lex(alloc: Global, text: &[u8]) -> Result<Tokens, LexFault>
    ensures tokens { IfOk result (λ t. tokens_of text.now ≡ Ok t) }
    ensures fault { IfErr result (λ e. (e ≡ LexFault.NoMemory) ⊎ (tokens_of text.now ≡ Err e)) }
    ensures few { IfOk result (λ t. length t.list ≤ length text.now) }
    ensures sound { IfOk result (λ t. AreSound (length t.names) t.list) }
    ensures folded { IfOk result (λ t. AreFolded t.names) }
{
    if text.len() > LONGEST {
        return Err(LexFault::TooLong);
    }
    let mut list = Seq::new(alloc);
    let mut names = Names::new(alloc);
    let mut line = 1;
    let mut at = 0;
    while at < text.len() {
        let first = text[at];
        let head = head_of(alloc, line, first, &text[at + 1..])?;
        at += 1 + enter(&mut list, &mut names, head, line)?;
        line = line_after(line, first);
    }
    let names = names.into_list(alloc)?;
    Ok(Tokens { list, names })
}

/// Adds what stands at the head of the rest, and gives how many bytes it has after its first.
fn enter(list: &mut Seq<Token>, names: &mut Names, head: Head, line: u32) -> Result<usize, LexFault>
    requires { length names.old < 2 ^ 32 }
    ensures bytes { IfOk result (λ more. more ≡ bytes_after head) }
    ensures list { OnOk result (list.new ≡ list.old ++ tokens_in names.old line head) }
    ensures names { OnOk result (names.new ≡ used_at names.old head) }
    ensures no_fault { OnOk result (IsNoFault head) }
    ensures fault { IfErr result (λ e. (e ≡ LexFault.NoMemory) ⊎ (head ≡ Head.Fault e)) }
{
    match head {
        Head::Gap(more) => Ok(more),
        Head::Found(lexeme, more) => {
            add(list, names, lexeme, line)?;
            Ok(more)
        }
        Head::Fault(fault) => Err(fault),
    }
}

fn add(list: &mut Seq<Token>, names: &mut Names, lexeme: Lexeme, line: u32) -> Result<(), NoMemory>
    requires { length names.old < 2 ^ 32 }
    ensures list { OnOk result (list.new ≡ list.old ++ record { kind = kind_in names.old lexeme; line = line } ∷ []) }
    ensures names { OnOk result (names.new ≡ used_by names.old lexeme) }
{
    let kind = kind_of(names, lexeme)?;
    list.add(Token { kind, line })?;
    Ok(())
}

fn line_after(line: u32, byte: u8) -> u32
    requires { line < 2 ^ 32 - 1 }
    ensures { result ≡ line_after line byte }
{
    if byte == b'\n' { line + 1 } else { line }
}
