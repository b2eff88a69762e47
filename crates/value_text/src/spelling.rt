//! Whether a text is a value text, whatever its nesting: a machine that goes from byte to byte and
//! keeps what is open in a list.
ghost use Rattle.std.specs.Prelude.{◌≡◌, ◌∷◌, List, [], OnOk, IfOk, MatchOption, reverse, ◌++◌};
ghost use Rattle.value_text.specs.Forms.{IsValueText, FirstBad};
ghost use Rattle.value_text.specs.Machine.{letters_of, quote_of, after_item, in_item, in_quotes, escaped, high, low, character_ended, begin, go_on, ended, behind_error, behind_cause, behind_word, in_word, after_colon, behind_number, in_digits, in_digit, cause, tag_behind_error, cause_e, in_bound, past_blank, between, next, may_end_in, may_end, holds_many, innermost, is_closed, Leaves, Refuses, LeadsOn};
ghost use Rattle.value_text.specs.declared.spelling.Enclosure.{Enclosure};

use crate::token::{escape_of, hex_digit, is_blank, is_digit, is_letter, is_plain};
use flow_value::{NoMemory, Seq};
use std::alloc::Global;
use std::marker::Model;

/// What encloses the place that was reached.
#[derive(Clone, Copy)]
pub enum Enclosure {
    Array,
    Stream,
    Record,
    Union,
}

/// A word of value text.
#[derive(Clone, Copy)]
pub enum Word {
    Error,
    Nil,
    Yes,
    No,
    Overflow,
    Zero,
    Bounds,
    Empty,
    Size,
    Tag,
    Explicit,
}

/// What a row of digits stands for.
#[derive(Clone, Copy)]
pub enum Number {
    Integer,
    Bound,
    Tag,
}

/// What stands between quotes.
#[derive(Clone, Copy)]
pub enum Quoted {
    Character,
    Text,
}

/// What was read last, and so what may come next.
#[derive(Clone, Copy)]
pub enum Mode {
    /// A value has to come.
    Wanted,
    /// A part or an opening ended: what may come is said by what is open.
    Ended,
    /// Inside or directly behind a word, of which so many letters were read.
    Word(Word, usize),
    /// The word `error` and blanks.
    ErrorEnded,
    /// A parenthesis behind `error`.
    Cause,
    /// A cause that begins with `e`.
    CauseE,
    /// A cause and blanks.
    CauseEnded,
    /// A number has to come.
    Digit(Number),
    /// A digit.
    Digits(Number),
    /// The bracket of an array.
    Bound,
    /// A number, and blanks.
    NumberEnded(Number),
    /// Between quotes, where an item may begin.
    Item(Quoted),
    /// The item of a character.
    CharacterEnded,
    /// A backslash.
    Escape(Quoted),
    /// A backslash and an x.
    High(Quoted),
    /// A backslash, an x and a digit.
    Low(Quoted),
}

/// Where a byte leads.
#[derive(Clone, Copy)]
pub enum Move {
    /// On to another mode.
    To(Mode),
    /// Into an aggregate.
    Open(Enclosure, Mode),
    /// Out of an aggregate.
    Close,
    /// No value text goes on so.
    Bad,
}

/// The letters of a word.
fn letters(word: Word) -> &'static [u8]
    ensures { result.now ≡ letters_of word }
{
    match word {
        Word::Error => b"error",
        Word::Nil => b"nil",
        Word::Yes => b"T",
        Word::No => b"F",
        Word::Overflow => b"overflow",
        Word::Zero => b"zero",
        Word::Bounds => b"bounds",
        Word::Empty => b"empty",
        Word::Size => b"size",
        Word::Tag => b"tag",
        Word::Explicit => b"explicit",
    }
}

/// Where the first byte of a value leads.
#[tactic(auto, unfolding(crate::specs::Machine::begin))]
fn begin(c: u8) -> Move
    ensures { result ≡ begin c }
{
    if is_digit(c) {
        return Move::To(Mode::Digits(Number::Integer));
    }
    match c {
        b'e' => Move::To(Mode::Word(Word::Error, 1)),
        b'n' => Move::To(Mode::Word(Word::Nil, 1)),
        b'T' => Move::To(Mode::Word(Word::Yes, 1)),
        b'F' => Move::To(Mode::Word(Word::No, 1)),
        b'-' => Move::To(Mode::Digit(Number::Integer)),
        b'\'' => Move::To(Mode::Item(Quoted::Character)),
        b'"' => Move::To(Mode::Item(Quoted::Text)),
        b'[' => Move::Open(Enclosure::Array, Mode::Bound),
        b'{' => Move::Open(Enclosure::Stream, Mode::Ended),
        b'<' => Move::Open(Enclosure::Record, Mode::Ended),
        b'(' => Move::Open(Enclosure::Union, Mode::Digit(Number::Tag)),
        _ => Move::Bad,
    }
}

/// Where a byte leads that is no blank, where a part or an opening ended.
#[tactic(auto, unfolding(crate::specs::Machine::go_on))]
fn go_on(inside: Option<Enclosure>, c: u8) -> Move
    ensures { result ≡ go_on inside c }
{
    match inside {
        None => Move::Bad,
        Some(Enclosure::Union) if c == b')' => Move::Close,
        Some(Enclosure::Union) => Move::Bad,
        Some(Enclosure::Array) if c == b']' => Move::Close,
        Some(Enclosure::Stream) if c == b'}' => Move::Close,
        Some(Enclosure::Record) if c == b'>' => Move::Close,
        Some(_) => begin(c),
    }
}

#[tactic(auto, unfolding(crate::specs::Machine::ended))]
fn ended(inside: Option<Enclosure>, c: u8) -> Move
    ensures { result ≡ ended inside c }
{
    if is_blank(c) {
        Move::To(Mode::Ended)
    } else {
        go_on(inside, c)
    }
}

#[tactic(auto, unfolding(crate::specs::Machine::behind_error))]
fn behind_error(inside: Option<Enclosure>, c: u8) -> Move
    ensures { result ≡ behind_error inside c }
{
    if is_blank(c) {
        Move::To(Mode::ErrorEnded)
    } else if c == b'(' {
        Move::To(Mode::Cause)
    } else {
        go_on(inside, c)
    }
}

#[tactic(auto, unfolding(crate::specs::Machine::behind_cause))]
fn behind_cause(c: u8) -> Move
    ensures { result ≡ behind_cause c }
{
    if is_blank(c) {
        Move::To(Mode::CauseEnded)
    } else if c == b')' {
        Move::To(Mode::Ended)
    } else {
        Move::Bad
    }
}

/// Where a byte leads directly behind a word.
#[tactic(auto, unfolding(crate::specs::Machine::behind_word))]
fn behind_word(word: Word, inside: Option<Enclosure>, c: u8) -> Move
    ensures { result ≡ behind_word word inside c }
{
    if is_digit(c) || is_letter(c) {
        return Move::Bad;
    }
    match word {
        Word::Error => behind_error(inside, c),
        Word::Nil | Word::Yes | Word::No => ended(inside, c),
        _ => behind_cause(c),
    }
}

/// Where a byte leads inside or directly behind a word.
#[tactic(auto, unfolding(crate::specs::Machine::in_word))]
fn in_word(word: Word, read: usize, inside: Option<Enclosure>, c: u8) -> Move
    ensures { result ≡ in_word word read inside c }
{
    let letters = letters(word);
    if read < letters.len() {
        if letters[read] == c {
            Move::To(Mode::Word(word, read + 1))
        } else {
            Move::Bad
        }
    } else {
        behind_word(word, inside, c)
    }
}

fn holds_many(inside: Option<Enclosure>) -> bool
    ensures { result ≡ holds_many inside }
{
    match inside {
        None => false,
        Some(Enclosure::Union) => false,
        Some(_) => true,
    }
}

/// Where the first digit of a tag leads: what stands before it is a part of its own.
fn tag_behind_error(inside: Option<Enclosure>) -> Move
    ensures { result ≡ tag_behind_error inside }
{
    if holds_many(inside) {
        Move::Open(Enclosure::Union, Mode::Digits(Number::Tag))
    } else {
        Move::Bad
    }
}

/// Where a byte leads behind `error` and a parenthesis: into a cause, or into the number of a tag.
#[tactic(auto, unfolding(crate::specs::Machine::cause))]
fn cause(inside: Option<Enclosure>, c: u8) -> Move
    ensures { result ≡ cause inside c }
{
    if is_digit(c) {
        return tag_behind_error(inside);
    }
    match c {
        b'o' => Move::To(Mode::Word(Word::Overflow, 1)),
        b'z' => Move::To(Mode::Word(Word::Zero, 1)),
        b'b' => Move::To(Mode::Word(Word::Bounds, 1)),
        b's' => Move::To(Mode::Word(Word::Size, 1)),
        b't' => Move::To(Mode::Word(Word::Tag, 1)),
        b'e' => Move::To(Mode::CauseE),
        _ => Move::Bad,
    }
}

#[tactic(auto, unfolding(crate::specs::Machine::cause_e))]
fn cause_e(c: u8) -> Move
    ensures { result ≡ cause_e c }
{
    match c {
        b'm' => Move::To(Mode::Word(Word::Empty, 2)),
        b'x' => Move::To(Mode::Word(Word::Explicit, 2)),
        _ => Move::Bad,
    }
}

fn after_colon(number: Number) -> Mode
    ensures { result ≡ after_colon number }
{
    match number {
        Number::Tag => Mode::Wanted,
        _ => Mode::Ended,
    }
}

/// Where a byte leads behind a number.
#[tactic(auto, unfolding(crate::specs::Machine::behind_number))]
fn behind_number(number: Number, inside: Option<Enclosure>, c: u8) -> Move
    ensures { result ≡ behind_number number inside c }
{
    if is_blank(c) {
        return Move::To(Mode::NumberEnded(number));
    }
    match number {
        Number::Integer => go_on(inside, c),
        _ if c == b':' => Move::To(after_colon(number)),
        _ => Move::Bad,
    }
}

/// Where a byte leads in a row of digits or directly behind it.
#[tactic(auto, unfolding(crate::specs::Machine::in_digits))]
fn in_digits(number: Number, inside: Option<Enclosure>, c: u8) -> Move
    ensures { result ≡ in_digits number inside c }
{
    if is_digit(c) {
        Move::To(Mode::Digits(number))
    } else if is_letter(c) {
        Move::Bad
    } else {
        behind_number(number, inside, c)
    }
}

#[tactic(auto, unfolding(crate::specs::Machine::in_bound))]
fn in_bound(c: u8) -> Move
    ensures { result ≡ in_bound c }
{
    if is_digit(c) {
        Move::To(Mode::Digits(Number::Bound))
    } else if c == b'-' {
        Move::To(Mode::Digit(Number::Bound))
    } else {
        Move::Bad
    }
}

fn after_item(quoted: Quoted) -> Mode
    ensures { result ≡ after_item quoted }
{
    match quoted {
        Quoted::Character => Mode::CharacterEnded,
        Quoted::Text => Mode::Item(Quoted::Text),
    }
}

/// The quote that closes.
fn quote(quoted: Quoted) -> u8
    ensures { result ≡ quote_of quoted }
{
    match quoted {
        Quoted::Character => b'\'',
        Quoted::Text => b'"',
    }
}

/// Where a byte leads that begins an item.
#[tactic(auto, unfolding(crate::specs::Machine::in_item))]
fn in_item(quoted: Quoted, c: u8) -> Move
    ensures { result ≡ in_item quoted c }
{
    if c == b'\\' {
        Move::To(Mode::Escape(quoted))
    } else if is_plain(quote(quoted), c) {
        Move::To(after_item(quoted))
    } else {
        Move::Bad
    }
}

#[tactic(auto, unfolding(crate::specs::Machine::in_quotes))]
fn in_quotes(quoted: Quoted, c: u8) -> Move
    ensures { result ≡ in_quotes quoted c }
{
    match quoted {
        Quoted::Text if c == b'"' => Move::To(Mode::Ended),
        _ => in_item(quoted, c),
    }
}

#[tactic(auto, unfolding(crate::specs::Machine::escaped))]
fn escaped(quoted: Quoted, c: u8) -> Move
    ensures { result ≡ escaped quoted c }
{
    if c == b'x' {
        return Move::To(Mode::High(quoted));
    }
    match escape_of(c) {
        Some(_) => Move::To(after_item(quoted)),
        None => Move::Bad,
    }
}

#[tactic(auto, unfolding(crate::specs::Machine::high))]
fn high(quoted: Quoted, c: u8) -> Move
    ensures { result ≡ high quoted c }
{
    if 48 <= c && c <= 55 {
        Move::To(Mode::Low(quoted))
    } else {
        Move::Bad
    }
}

#[tactic(auto, unfolding(crate::specs::Machine::low))]
fn low(quoted: Quoted, c: u8) -> Move
    ensures { result ≡ low quoted c }
{
    match hex_digit(c) {
        Some(_) => Move::To(after_item(quoted)),
        None => Move::Bad,
    }
}

#[tactic(auto, unfolding(crate::specs::Machine::character_ended))]
fn character_ended(c: u8) -> Move
    ensures { result ≡ character_ended c }
{
    if c == b'\'' {
        Move::To(Mode::Ended)
    } else {
        Move::Bad
    }
}

#[tactic(auto, unfolding(crate::specs::Machine::in_digit))]
fn in_digit(number: Number, c: u8) -> Move
    ensures { result ≡ in_digit number c }
{
    if is_digit(c) {
        Move::To(Mode::Digits(number))
    } else {
        Move::Bad
    }
}

/// Where a byte leads that is no blank.
fn past_blank(mode: Mode, inside: Option<Enclosure>, c: u8) -> Move
    ensures { result ≡ past_blank mode inside c }
{
    match mode {
        Mode::Wanted => begin(c),
        Mode::ErrorEnded => behind_error(inside, c),
        Mode::Cause => cause(inside, c),
        Mode::CauseEnded => behind_cause(c),
        Mode::Digit(number) => in_digit(number, c),
        Mode::Bound => in_bound(c),
        Mode::NumberEnded(number) => behind_number(number, inside, c),
        _ => go_on(inside, c),
    }
}

fn between(mode: Mode, inside: Option<Enclosure>, c: u8) -> Move
    ensures { result ≡ between mode inside c }
{
    if is_blank(c) {
        Move::To(mode)
    } else {
        past_blank(mode, inside, c)
    }
}

/// Where a byte leads.
fn next(mode: Mode, inside: Option<Enclosure>, c: u8) -> Move
    ensures { result ≡ next mode inside c }
{
    match mode {
        Mode::Word(word, read) => in_word(word, read, inside, c),
        Mode::CauseE => cause_e(c),
        Mode::Digits(number) => in_digits(number, inside, c),
        Mode::Item(quoted) => in_quotes(quoted, c),
        Mode::CharacterEnded => character_ended(c),
        Mode::Escape(quoted) => escaped(quoted, c),
        Mode::High(quoted) => high(quoted, c),
        Mode::Low(quoted) => low(quoted, c),
        _ => between(mode, inside, c),
    }
}

/// Whether a value text may end behind so many letters of a word.
fn may_end_in(word: Word, read: usize) -> bool
    ensures { result ≡ may_end_in word read }
{
    match word {
        Word::Error | Word::Nil | Word::Yes | Word::No => read >= letters(word).len(),
        _ => false,
    }
}

/// Whether a value text may end here, where nothing is open.
fn may_end(mode: Mode) -> bool
    ensures { result ≡ may_end mode }
{
    match mode {
        Mode::Ended => true,
        Mode::ErrorEnded => true,
        Mode::Word(word, read) => may_end_in(word, read),
        Mode::Digits(Number::Integer) => true,
        Mode::NumberEnded(Number::Integer) => true,
        _ => false,
    }
}

/// What is open, the innermost first.
#[derive(Drop)]
struct Opened {
    items: Seq<Enclosure>,
}

impl Model for Opened {
    ghost Value = { List Enclosure };

    ghost view = { λ o. reverse o.items };
}

impl Opened {
    fn new(alloc: Global) -> Opened
        ensures { result ≡ [] }
    {
        Opened {
            items: Seq::new(alloc),
        }
    }

    fn is_empty(&self) -> bool
        ensures { result ≡ is_closed self.now }
    {
        match self.innermost() {
            None => true,
            Some(_) => false,
        }
    }

    fn innermost(&self) -> Option<Enclosure>
        ensures { result ≡ innermost self.now }
    {
        self.items.as_slice().last().copied()
    }

    fn enter(&mut self, aggregate: Enclosure) -> Result<(), NoMemory>
        ensures { OnOk result (self.new ≡ aggregate ∷ self.old) }
    {
        self.items.add(aggregate)
    }

    /// Leaves the innermost, if there is one.
    fn leave(&mut self) -> bool
        ensures { Leaves result self.old self.new }
    {
        match self.items.pop() {
            None => false,
            Some(_) => true,
        }
    }
}

/// Reads a byte; none where no value text goes on so.
fn advance(nest: &mut Opened, mode: Mode, c: u8) -> Result<Option<Mode>, NoMemory>
    ensures { IfOk result (λ reached. MatchOption
        reached
        (Refuses mode nest.old c)
        (λ m. LeadsOn mode nest.old c m nest.new)) }
{
    match next(mode, nest.innermost(), c) {
        Move::To(reached) => Ok(Some(reached)),
        Move::Open(aggregate, reached) => {
            nest.enter(aggregate)?;
            Ok(Some(reached))
        }
        Move::Close if nest.leave() => Ok(Some(Mode::Ended)),
        Move::Close => Ok(None),
        Move::Bad => Ok(None),
    }
}

/// The first byte at which no value text goes on, or the text's length, if it is no value text.
pub fn first_bad(alloc: Global, text: &[u8]) -> Result<Option<usize>, NoMemory>
    ensures { IfOk result (λ found. MatchOption found (IsValueText text.now) (λ k. FirstBad text.now k)) }
{
    let mut nest = Opened::new(alloc);
    let mut mode = Mode::Wanted;
    for i in 0..text.len() {
        let Some(reached) = advance(&mut nest, mode, text[i])? else {
            return Ok(Some(i));
        };
        mode = reached;
    }
    if nest.is_empty() && may_end(mode) {
        Ok(None)
    } else {
        Ok(Some(text.len()))
    }
}
