//! Pragmas.
ghost use Rattle.std.specs.Prelude.{◌≡◌, [], IfOk, drop};
ghost use Rattle.std.specs.List.{list_all};
ghost use Rattle.if1_graph.specs.LineParts.{parts_of};
ghost use Rattle.if1_graph.specs.Numbers.{rising};
ghost use Rattle.if1_graph.specs.Places.{added, became};
ghost use Rattle.if1_graph.specs.Pragmas.{is_pragma, is_pragma_word, has_key, is_taking_word, renamed, name_after, takes_in, labels_in, labels_of, named, preceded};

use crate::line_part::{next_part, word_of};
use crate::number::add_numbers;
use flow_value::{Name, NoMemory, Numbers};
use std::alloc::Global;

/// Whether a word has the form of a pragma.
pub fn is_pragma_word(word: &[u8]) -> bool
    ensures { result ≡ is_pragma_word word.now }
{
    word.len() >= 4 && word[0] == b'%' && word[3] == b'='
}

fn has_key(word: &[u8], first: u8, second: u8) -> bool
    ensures { result ≡ has_key first second word.now }
{
    is_pragma_word(word) && word[1] == first && word[2] == second
}

/// Whether nothing but pragmas stands from a place on.
pub fn has_pragmas_only(line: &[u8], from: usize) -> bool
    ensures { result ≡ list_all is_pragma (parts_of (drop from line.now)) }
{
    let mut at = from;
    while let Some((part, rest)) = next_part(line, at) {
        if !is_pragma_word(word_of(line, part)) {
            return false;
        }
        at = rest;
    }
    true
}

/// Whether `%tk=1` stands from a place on.
pub fn takes(line: &[u8], from: usize) -> bool
    ensures { result ≡ takes_in (parts_of (drop from line.now)) }
{
    let mut at = from;
    while let Some((part, rest)) = next_part(line, at) {
        if is_taking(word_of(line, part)) {
            return true;
        }
        at = rest;
    }
    false
}

fn is_taking(word: &[u8]) -> bool
    ensures { result ≡ is_taking_word word.now }
{
    has_key(word, b't', b'k') && word.len() == 5 && word[4] == b'1'
}

/// The name after a word, which gives another one or keeps it.
fn renamed<'a>(name: &'a [u8], word: &'a [u8]) -> &'a [u8]
    ensures { result.now ≡ renamed name.now word.now }
{
    if has_key(word, b'n', b'a') {
        &word[4..]
    } else {
        name
    }
}

/// The text of the last `%na` from a place on, empty where there is none.
fn name(alloc: Global, line: &[u8], from: usize) -> Result<Name, NoMemory>
    ensures { IfOk result (λ name. name ≡ name_after [] (parts_of (drop from line.now))) }
{
    let mut name: &[u8] = &[];
    let mut at = from;
    while let Some((part, rest)) = next_part(line, at) {
        name = renamed(name, word_of(line, part));
        at = rest;
    }
    Name::from_slice(alloc, name)
}

/// The name from a place on, where nothing but pragmas stands there.
pub fn named(alloc: Global, line: &[u8], from: usize) -> Result<Option<Name>, NoMemory>
    ensures { IfOk result (λ name. name ≡ named (parts_of (drop from line.now))) }
{
    if !has_pragmas_only(line, from) {
        return Ok(None);
    }
    Ok(Some(name(alloc, line, from)?))
}

/// Adds the labels that a word lists; false where it is a `%bf` with another text.
fn add_labels(all: &mut Numbers, word: &[u8]) -> Result<bool, NoMemory>
    ensures { IfOk result (λ ok. added all.old (labels_in word.now) ≡ became ok all.new) }
{
    if !has_key(word, b'b', b'f') {
        return Ok(true);
    }
    add_numbers(all, &word[4..], 1)
}

/// The labels of all `%bf` from a place on.
fn labels(alloc: Global, line: &[u8], from: usize) -> Result<Option<Numbers>, NoMemory>
    ensures { IfOk result (λ all. all ≡ labels_of (parts_of (drop from line.now))) }
{
    let mut all = Numbers::new(alloc);
    let mut at = from;
    while let Some((part, rest)) = next_part(line, at) {
        if !add_labels(&mut all, word_of(line, part))? {
            return Ok(None);
        }
        at = rest;
    }
    Ok(Some(all))
}

fn sort_once(items: &mut Vec<u32>)
    ensures { items.new.items ≡ rising items.old.items }
{
    items.sort_unstable();
    items.dedup();
}

/// The numbers of a list, each once, from the least to the greatest.
fn rising(numbers: Numbers) -> Numbers
    ensures { result ≡ rising numbers }
{
    let mut items = numbers.into_vec();
    sort_once(&mut items);
    Numbers::from_vec(items)
}

/// The labels of the nodes that come before this one, rising, each once.
pub fn preceded(alloc: Global, line: &[u8], from: usize) -> Result<Option<Numbers>, NoMemory>
    ensures { IfOk result (λ all. all ≡ preceded (parts_of (drop from line.now))) }
{
    match labels(alloc, line, from)? {
        Some(all) => Ok(Some(rising(all))),
        None => Ok(None),
    }
}
