//! What stands at the head of a text.
ghost use Rattle.std.specs.Prelude.{◌≡◌, IfOk};
ghost use Rattle.sisal_lex.specs.Tokens.{word_or_name, name_at, number_at, character_at, text_at, sign_at, head_of};

use crate::fault::LexFault;
use crate::quotes::{character, text_in_quotes};
use crate::rows::{bytes_in_line, bytes_in_name, digits, folded, number_of};
use crate::signs::{long_sign, short_sign};
use crate::token::Kind;
use crate::words::word_of;
use flow_value::{Name, NoMemory};
use std::alloc::Global;

/// A token before its name has a number.
#[derive(Drop)]
pub enum Lexeme {
    /// A name in small letters.
    Named(Name),
    /// Any other token.
    Plain(Kind),
}

/// What stands at the head of a text.
#[derive(Drop)]
pub enum Head {
    /// A blank or a comment, and how many bytes it has after its first.
    Gap(usize),
    /// A token, and how many bytes it has after its first.
    Found(Lexeme, usize),
    /// No token.
    Fault(LexFault),
}

/// What stands at the head of a text on a line, by the text's first byte and the bytes after it.
pub fn head_of(alloc: Global, line: u32, first: u8, after: &[u8]) -> Result<Head, NoMemory>
    ensures { IfOk result (λ h. h ≡ head_of line first after.now) }
{
    match first {
        b'\t' | b'\n' | b'\r' | b' ' => Ok(Head::Gap(0)),
        b'%' => Ok(Head::Gap(bytes_in_line(after))),
        b'a'..=b'z' | b'A'..=b'Z' => name_at(alloc, first, after),
        b'0'..=b'9' => Ok(number_at(line, first, after)),
        b'\'' => Ok(character_at(line, after)),
        b'"' => text_at(alloc, line, after),
        _ => Ok(sign_at(line, first, after)),
    }
}

fn name_at(alloc: Global, first: u8, after: &[u8]) -> Result<Head, NoMemory>
    ensures { IfOk result (λ h. h ≡ name_at first after.now) }
{
    let more = bytes_in_name(after);
    let name = folded(alloc, first, &after[..more])?;
    Ok(Head::Found(word_or_name(name), more))
}

fn word_or_name(name: Name) -> Lexeme
    ensures { result ≡ word_or_name name }
{
    match word_of(name.as_slice()) {
        Some(word) => Lexeme::Plain(Kind::Word(word)),
        None => Lexeme::Named(name),
    }
}

fn number_at(line: u32, first: u8, after: &[u8]) -> Head
    ensures { result ≡ number_at line first after.now }
{
    let more = digits(after);
    match number_of(first, &after[..more]) {
        Some(n) => Head::Found(Lexeme::Plain(Kind::Number(n)), more),
        None => Head::Fault(LexFault::NumberTooWide(line)),
    }
}

fn character_at(line: u32, after: &[u8]) -> Head
    ensures { result ≡ character_at line after.now }
{
    match character(after) {
        Some(one) => Head::Found(Lexeme::Plain(Kind::Letter(one.code)), one.bytes),
        None => Head::Fault(LexFault::OpenText(line)),
    }
}

fn text_at(alloc: Global, line: u32, after: &[u8]) -> Result<Head, NoMemory>
    ensures { IfOk result (λ h. h ≡ text_at line after.now) }
{
    match text_in_quotes(alloc, after)? {
        Some(text) => Ok(Head::Found(Lexeme::Plain(Kind::Quoted(text.codes)), text.bytes)),
        None => Ok(Head::Fault(LexFault::OpenText(line))),
    }
}

fn sign_at(line: u32, first: u8, after: &[u8]) -> Head
    ensures { result ≡ sign_at line first after.now }
{
    if let Some(sign) = long_sign(first, after) {
        return Head::Found(Lexeme::Plain(Kind::Sign(sign)), 1);
    }
    match short_sign(first) {
        Some(sign) => Head::Found(Lexeme::Plain(Kind::Sign(sign)), 0),
        None => Head::Fault(LexFault::BadByte(line)),
    }
}
