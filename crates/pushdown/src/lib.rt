//! A parser over any LL(1) grammar that is given as a table: it decides whether tokens are a text of
//! the grammar, and gives the steps by which they are.
//!
//! A grammar is a list of productions. The parser keeps the symbols that it still wants, the next on
//! top: a class of tokens, or a rule. A rule on top is replaced by the symbols of the production
//! that the table names at the next token; a class on top must be that of the next token. All
//! pending work lies in two vectors, so that no text, however deep it nests, deepens a stack of
//! calls, and the work grows with the length of the text.
//!
//! Whether a table is right for its grammar is a test that a check computes (`AreRight`), so that
//! another grammar costs another table and no proof.
#![tactic(auto)]

ghost use Rattle.std.specs.Prelude.{◌≡◌, ◌<◌, ◌∷◌, List, [], ℕ, OnOk, IfOk, IfErr, MatchResult, true, false, reverse, ◌++◌, length};
ghost use Rattle.pushdown.specs.Grammar.{Derives, Grammar};
ghost use Rattle.pushdown.specs.Table.{IsEnd, IsRight, Proper, Table};
ghost use Rattle.pushdown.specs.Engine.{Opens, IsSettled, Wants, FirstBad, IsCause};
ghost use Rattle.pushdown.specs.Rows.{AreRight, grammar_in, rows_of, start_test, table_in};
ghost use Rattle.pushdown.specs.declared.Refusal.TheVariants.{NoMemory};

pub mod tables;
mod wanted;

use std::alloc::{AllocError, AllocFailed, Global};
use tables::Tables;
use wanted::Wanted;

/// A symbol of a production.
#[derive(Clone, Copy)]
pub enum Symbol {
    /// A token of this class, from 1.
    Want(u8),
    /// What this rule stands for, by the rule's number from 0.
    Rule(u8),
}

/// A step of a derivation, in the order of the text.
#[derive(Clone, Copy)]
pub enum Step {
    /// The next token is read.
    Read,
    /// A rule is replaced by the symbols of this production.
    Open(u8),
}

/// Why tokens are refused.
#[derive(Debug, Drop)]
pub enum Refusal {
    /// The place, from 0, of the first token that no text of the grammar has after those before it;
    /// the number of tokens where they all begin some text and are none.
    Syntax(usize),
    /// Want of memory.
    NoMemory,
}

impl From<AllocError> for Refusal {
    ghost from_gives = { λ _ e. e ≡ NoMemory };

    fn from(_error: AllocError) -> Refusal {
        Refusal::NoMemory
    }
}

/// With a right table, no tokens have two derivations.
pub fn one_derivation()
    ensures { (g : Grammar) (t : Table) → IsRight g t → (s : List Symbol) (cs : List ℕ)
        (ps qs : List Step) → Proper t IsEnd s → Derives g s cs ps → Derives g s cs qs → ps ≡ qs }
{}

/// Replaces rules on top until a token is wanted, where one of this class comes next.
fn settle(
    tables: &Tables,
    wanted: &mut Wanted,
    steps: &mut Vec<Step>,
    class: u8,
) -> Result<(), AllocError>
    requires right { AreRight tables.now }
    requires proper { Proper (table_in tables.now) IsEnd wanted.old }
    ensures opens { OnOk result ((ps : List Step) × (steps.new.items ≡ steps.old.items ++ ps)
        × Opens (grammar_in tables.now) (table_in tables.now) class wanted.old ps wanted.new) }
    ensures settled { OnOk result (IsSettled (table_in tables.now) class wanted.new) }
{
    while let Some(Symbol::Rule(rule)) = wanted.next() {
        let Some(production) = tables.choose(rule, class) else {
            return Ok(());
        };
        wanted.skip();
        wanted.put(tables.body(production))?;
        steps.push(Step::Open(production))?;
    }
    Ok(())
}

/// Reads a token of this class, if some text goes on with it.
fn read_token(
    tables: &Tables,
    wanted: &mut Wanted,
    steps: &mut Vec<Step>,
    token: u8,
) -> Result<bool, AllocError>
    requires right { AreRight tables.now }
    requires proper { Proper (table_in tables.now) IsEnd wanted.old }
    ensures read { result ≡ Ok true → (start : List Symbol) (before : List ℕ)
        → Wants (grammar_in tables.now) (table_in tables.now) start before steps.old.items wanted.old
        → Wants (grammar_in tables.now) (table_in tables.now) start
        (before ++ token ∷ []) steps.new.items wanted.new }
    ensures refused { result ≡ Ok false → (start : List Symbol) (before : List ℕ)
        → Wants (grammar_in tables.now) (table_in tables.now) start before steps.old.items wanted.old
        → (cs : List ℕ) (rs : List Step)
        → Derives (grammar_in tables.now) start ((before ++ token ∷ []) ++ cs) rs → ⊥ }
{
    settle(tables, wanted, steps, token)?;
    if !wanted.accept(token) {
        return Ok(false);
    }
    steps.push(Step::Read)?;
    Ok(true)
}

/// The steps by which rule 0 derives tokens of these classes, or the place of the first token that
/// no text has there. Class 0 is none of a token: it stands for the end.
pub fn derive(alloc: Global, tables: &Tables, tokens: &[u8]) -> Result<Vec<Step>, Refusal>
    requires right { AreRight tables.now }
    requires starts { start_test (rows_of tables.now) ≡ true }
    ensures ok { IfOk result (λ steps.
        Derives (grammar_in tables.now) (Symbol.Rule 0 ∷ []) tokens.now steps.items) }
    ensures err { IfErr result (λ e.
        IsCause (grammar_in tables.now) (Symbol.Rule 0 ∷ []) tokens.now e) }
{
    let mut wanted = Wanted::new(alloc);
    let mut steps = Vec::new(alloc);
    wanted.put(&[Symbol::Rule(0)])?;
    for (k, token) in tokens.iter().enumerate() {
        if !read_token(tables, &mut wanted, &mut steps, *token)? {
            return Err(Refusal::Syntax(k));
        }
    }
    settle(tables, &mut wanted, &mut steps, 0)?;
    match wanted.next() {
        None => Ok(steps),
        Some(_) => Err(Refusal::Syntax(tokens.len())),
    }
}
