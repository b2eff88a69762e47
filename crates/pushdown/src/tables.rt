//! A grammar and its table of choices, by rows of numbers, as a program writes them into statics.

ghost use Rattle.std.specs.Prelude.{◌≡◌, ◌<◌, ◌≤◌, true, length, slice_range};
ghost use Rattle.pushdown.specs.Rows.{are_bounds, grammar_in, rows_of, table_in};

use crate::Symbol;

/// The room for classes of tokens in a row, the end's class 0 among them.
pub const CLASSES: usize = 81;

/// A grammar and its table of choices. The last five rows tell why the table is right, and are read
/// by its test alone.
#[derive(Clone, Copy)]
pub struct Tables<'a> {
    /// The rule of each production.
    pub heads: &'a [u8],
    /// The symbols of all productions, one after another.
    pub symbols: &'a [Symbol],
    /// Where the symbols of each production begin, and where the last end.
    pub starts: &'a [u16],
    /// For each rule and class of token 1 more than the production to take, or 0.
    pub choices: &'a [[u8; CLASSES]],
    /// For each rule and class of token 1 where the class may come after the rule, or 0.
    pub follows: &'a [[u8; CLASSES]],
    /// For each rule a production whose rules have lower ranks.
    pub bests: &'a [u8],
    /// The rank of each rule.
    pub ranks: &'a [u8],
    /// For each rule a weight above that of the rules that lead each of its bodies.
    pub weights: &'a [u8],
    /// For each rule 1 where it may stand for no token, or 0.
    pub empties: &'a [u8],
}

impl Tables<'_> {
    /// The production of a rule where a token of this class comes next, if there is one.
    pub fn choose(&self, rule: u8, class: u8) -> Option<u8>
        ensures { result ≡ (table_in self.now).choose rule class }
    {
        let row = self.choices.get(rule as usize)?;
        let n = *row.get(class as usize)?;
        if n == 0 { None } else { Some(n - 1) }
    }

    /// The symbols of a production.
    pub fn body(&self, production: u8) -> &[Symbol]
        requires within { production < (grammar_in self.now).productions }
        requires bounds { are_bounds (rows_of self.now) ≡ true }
        ensures { result.now ≡ (grammar_in self.now).body production }
    {
        let p = production as usize;
        part(
            self.symbols,
            self.starts[p] as usize,
            self.starts[p + 1] as usize,
        )
    }
}

/// The symbols from the one place to the other.
fn part(symbols: &[Symbol], from: usize, to: usize) -> &[Symbol]
    requires order { from ≤ to }
    requires within { to ≤ length symbols.now }
    ensures { result.now ≡ slice_range symbols.now from to }
{
    &symbols[from..to]
}
